ghost use Rattle.std.specs.Prelude.{◌≡◌};
ghost use Rattle.club.specs.Lines.{word, behind, number, short, handle, card, round_range, report_range, rounds, verb, plain, event_in};

use crate::event::Event;

/// The first word of a line, up to a space, and what follows that space.
fn split_word(line: &[u8]) -> (&[u8], &[u8])
    ensures first { result.0.now ≡ word line.now }
    ensures rest { result.1.now ≡ behind line.now }
{
    match line.iter().position(|byte| *byte == b' ') {
        Some(i) => (&line[..i], &line[i + 1..]),
        None => (line, &[]),
    }
}

/// A decimal number of 64 bits.
fn parse_long(digits: &[u8]) -> Option<u64>
    ensures { result ≡ number digits.now 18446744073709551615 }
{
    if digits.is_empty() {
        return None;
    }
    // No `parse` of std's: it also takes a sign, and text alone.
    let mut value: u64 = 0;
    for digit in digits {
        if !digit.is_ascii_digit() {
            return None;
        }
        value = value
            .checked_mul(10)?
            .checked_add(u64::from(*digit - b'0'))?;
    }
    Some(value)
}

/// A key or a count, of 16 bits.
#[tactic(auto, using(crate::proofs::Lines::short_below))]
fn parse_short(digits: &[u8]) -> Option<u16>
    ensures { result ≡ short digits.now }
{
    u16::try_from(parse_long(digits)?).ok()
}

/// A handle, of 32 bits.
#[tactic(auto, using(crate::proofs::Lines::handle_below))]
fn parse_handle(digits: &[u8]) -> Option<u32>
    ensures { result ≡ handle digits.now }
{
    u32::try_from(parse_long(digits)?).ok()
}

/// A key and a value.
fn parse_card(args: &[u8]) -> Option<(u16, u64)>
    ensures { result ≡ card args.now }
{
    let (key, value) = split_word(args);
    Some((parse_short(key)?, parse_long(value)?))
}

/// The first key of a run of rounds, and their count.
fn parse_range(args: &[u8]) -> Option<(u16, u16)>
    ensures { result ≡ round_range args.now }
{
    let (first, count) = split_word(args);
    Some((parse_short(first)?, parse_short(count)?))
}

/// The handle of a report, and a run of rounds.
fn parse_report_range(args: &[u8]) -> Option<(u32, u16, u16)>
    ensures { result ≡ report_range args.now }
{
    let (report, args) = split_word(args);
    let report = parse_handle(report)?;
    let (first, count) = parse_range(args)?;
    Some((report, first, count))
}

/// The first key of a run of rounds, their count, and the key of the index.
fn parse_rounds(args: &[u8]) -> Option<(u16, u16, u16)>
    ensures { result ≡ rounds args.now }
{
    let (first, args) = split_word(args);
    let (count, index) = split_word(args);
    Some((
        parse_short(first)?,
        parse_short(count)?,
        parse_short(index)?,
    ))
}

/// The word that begins a line.
#[derive(Clone, Copy)]
enum Verb {
    Card,
    Correct,
    Recalculate,
    Finish,
    List,
    Figures,
    Report,
    Show,
    ShowFigures,
    Close,
    CleanUp,
}

#[tactic(auto, using(crate::proofs::Lines::no_verb))]
fn parse_verb(word: &[u8]) -> Option<Verb>
    ensures { result ≡ verb word.now }
{
    match word {
        b"card" => Some(Verb::Card),
        b"correct" => Some(Verb::Correct),
        b"recalculate" => Some(Verb::Recalculate),
        b"finish" => Some(Verb::Finish),
        b"list" => Some(Verb::List),
        b"figures" => Some(Verb::Figures),
        b"report" => Some(Verb::Report),
        b"show" => Some(Verb::Show),
        b"show-figures" => Some(Verb::ShowFigures),
        b"close" => Some(Verb::Close),
        b"clean" => Some(Verb::CleanUp),
        _ => None,
    }
}

/// An event without numbers.
fn parse_plain(event: Event, args: &[u8]) -> Option<Event>
    ensures { result ≡ plain event args.now }
{
    args.is_empty().then_some(event)
}

/// The event that a line tells of; none where the line is malformed.
/// A line is bytes and not a `&str`, since not every line is UTF-8.
pub fn parse(line: &[u8]) -> Option<Event>
    ensures { result ≡ event_in line.now }
{
    let (word, args) = split_word(line);
    match parse_verb(word)? {
        Verb::Card => parse_card(args).map(|(key, value)| Event::Card { key, value }),
        Verb::Correct => { parse_card(args).map(|(key, value)| Event::Correction { key, value }) }
        Verb::Recalculate => {
            let (first, count, index) = parse_rounds(args)?;
            Some(Event::Recalculation {
                first,
                count,
                index,
            })
        }
        Verb::Figures => { parse_range(args).map(|(first, count)| Event::Figures { first, count }) }
        Verb::Show => parse_handle(args).map(|report| Event::Show { report }),
        Verb::ShowFigures => {
            let (report, first, count) = parse_report_range(args)?;
            Some(Event::ShowFigures {
                report,
                first,
                count,
            })
        }
        Verb::Close => parse_handle(args).map(|report| Event::Close { report }),
        Verb::Finish => parse_plain(Event::Finish, args),
        Verb::List => parse_plain(Event::List, args),
        Verb::Report => parse_plain(Event::Report, args),
        Verb::CleanUp => parse_plain(Event::CleanUp, args),
    }
}
