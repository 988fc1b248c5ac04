//! An afternoon from its lines of text to the words for each, on two engines that are compared.
ghost use Rattle.std.specs.Prelude.{◌≡◌, ℕ, List, ◌==◌, ◌^◌, ◌<◌, false, [], length, IfSome, IfOk, OnOk, IsTrue};
ghost use Rattle.std.specs.Io.Buffered.{reader_buffer, reader_remaining, writer_buffer, writer_contents};
ghost use Rattle.std.specs.Io.KnownBytes.{Keeps};
ghost use Rattle.std.specs.List.{list_any};
ghost use Rattle.std.specs.Str.Lines.{lines};
ghost use Rattle.club.specs.Lines.{event_in, text_of};
ghost use Rattle.club.specs.Afternoons.{AnswersLines, AnswersOnBoth, AnswersAfternoon};

use crate::desk::Desk;
use crate::line::parse;
use crate::said::Spoken;
use std::alloc::Global;
use std::io;
use std::io::{BufRead, BufReader, BufWriter, Read, Write};
use validation::validator::Validator;
use versions::store::VersionStore;

/// How many lines there were, and on how many of them the two engines differed.
#[derive(Clone, Copy)]
struct Counts {
    lines: u64,
    apart: u64,
}

/// Answers each line of an input on both desks, and writes what they say, and at the end the counts.
/// Any line has its answer; an input that cannot be read or an output that cannot be written ends it.
pub fn run<S: VersionStore, V: Validator, T: VersionStore, U: Validator, R: Read, W: Write + Drop>(
    alloc: Global,
    one: &mut Desk<S, V>,
    other: &mut Desk<T, U>,
    input: &mut BufReader<R>,
    output: &mut BufWriter<W>,
) -> io::Result<()>
    // Where it is known which bytes come, and the numbers of the lines suffice.
    ensures known { OnOk result (IfSome (reader_remaining R.remaining input.old)
        (λ text. length text < 2 ^ 63 → AnswersAfternoon S.meaning V.meaning T.meaning U.meaning
        one.old one.new other.old other.new (lines text)
        (writer_contents W.contents output.old) (writer_contents W.contents output.new))) }

    // Of any reader: the lines that it gave.
    ensures taken { OnOk result ((ls : List (List ℕ)) × AnswersAfternoon
        S.meaning V.meaning T.meaning U.meaning one.old one.new other.old other.new ls
        (writer_contents W.contents output.old) (writer_contents W.contents output.new)) }
    ensures flushed { OnOk result (writer_buffer output.new ≡ []) }
{
    let Counts { lines, apart } = answer_each(alloc, one, other, input, output)?;
    writeln!(
        output,
        "{lines} lines on two stores and two validators, {apart} told apart"
    )?;
    output.flush()
}

/// Answers each line, and counts them.
fn answer_each<
    S: VersionStore,
    V: Validator,
    T: VersionStore,
    U: Validator,
    R: Read,
    W: Write + Drop,
>(
    alloc: Global,
    one: &mut Desk<S, V>,
    other: &mut Desk<T, U>,
    input: &mut BufReader<R>,
    output: &mut BufWriter<W>,
) -> io::Result<Counts>
    ensures { IfOk result (λ counts. (ls : List (List ℕ)) × (counts.lines ≡ length ls)
        × AnswersLines S.meaning V.meaning T.meaning U.meaning one.old one.new other.old other.new
        ls (writer_contents W.contents output.old) (writer_contents W.contents output.new)
        counts.apart
        × IfSome (reader_remaining R.remaining input.old)
        (λ text. length text < 2 ^ 63 → lines text ≡ ls)) }
{
    let mut line = Vec::new(alloc);
    let mut apart: u64 = 0;
    for number in 1..u64::MAX {
        flush_before_waiting(input, output)?;
        line.clear();
        if input.read_until(b'\n', &mut line)? == 0 {
            return Ok(Counts {
                lines: number - 1,
                apart,
            });
        }
        let differs = answer_line(number, stripped(line.as_slice()), one, other, output)?;
        apart = apart.saturating_add(differs);
    }
    Ok(Counts {
        lines: u64::MAX - 1,
        apart,
    })
}

/// Who waits for an answer before the next line must have it before that is waited for.
fn flush_before_waiting<R: Read, W: Write + Drop>(
    input: &BufReader<R>,
    output: &mut BufWriter<W>,
) -> io::Result<()>
    ensures bytes { Keeps (writer_contents W.contents output.old)
        (writer_contents W.contents output.new) }
    ensures flushed { OnOk result (list_any (λ byte. byte == 10) (reader_buffer input.now) ≡ false
        → writer_buffer output.new ≡ []) }
{
    if !input.buffer().contains(&b'\n') {
        output.flush()?;
    }
    Ok(())
}

/// A line without its line feed and the carriage return before that.
fn stripped(line: &[u8]) -> &[u8]
    ensures { result.now ≡ text_of line.now }
{
    match line {
        [text @ .., b'\r', b'\n'] => text,
        [text @ .., b'\n'] => text,
        text => text,
    }
}

/// Answers one line on both desks, writes what they say, and answers on how many lines they differ.
fn answer_line<S: VersionStore, V: Validator, T: VersionStore, U: Validator, W: Write>(
    number: u64,
    line: &[u8],
    one: &mut Desk<S, V>,
    other: &mut Desk<T, U>,
    output: &mut W,
) -> io::Result<u64>
    ensures { IfOk result (AnswersOnBoth S.meaning V.meaning T.meaning U.meaning
        one.old one.new other.old other.new number (event_in line.now)
        (W.contents output.old) (W.contents output.new)) }
{
    let event = parse(line);
    let said = Spoken(one.answer_event(number, event));
    let says = Spoken(other.answer_event(number, event));
    writeln!(output, "{number} {said}")?;
    if are_same(&said, &says) {
        return Ok(0);
    }
    writeln!(output, "{number} the other engine: {says}")?;
    Ok(1)
}

/// Whether two answers are the same. Under the bound, whose law says that what is the same compares so.
fn are_same<A: Eq>(one: &A, other: &A) -> bool
    ensures value { result ≡ A.eq one.now other.now }
    ensures same { one.now ≡ other.now → IsTrue result }
{
    one == other
}
