ghost use Rattle.std.specs.Prelude.{◌≡◌, ◌≢◌, ℕ, ◌^◌, ◌<◌, ◌≤◌, List, [], ◌∷◌, length, take, OnOk, OnErr, IfOk, IfErr, IfSome, MatchResult};
ghost use Rattle.std.specs.Io.{WritesAtMost};
ghost use Rattle.std.specs.Io.Buffered.{reader_buffer, reader_remaining, writer_buffer, writer_contents};
ghost use Rattle.std.specs.IoError.{error_kind};
ghost use Rattle.std.specs.String.{string_bytes, string_capacity};
ghost use Rattle.std.specs.Io.KnownBytes.{Appends, Consumes, IsAtEnd, WriteAppends};
ghost use Rattle.callfile.specs.Runs.{Answers, AnswersFile, AppendsSome, Breaks, ConsumesSome, Stops};
ghost use Rattle.callfile.specs.Steps.{GoesThrough, Advances, GrowsByLines, HandsOver};

use crate::answer::answer;
use crate::line::Line;
use engine::engine::Engine;
use records::codec::RECORD;
use records::format::Format;
use stamped::MAX_KEYS;
use std::alloc::Global;
use std::io;
use std::io::{BufReader, BufWriter, ErrorKind, Read, Write};
use validation::validator::Validator;
use versions::store::VersionStore;

/// Lines are handed to the output at the latest once they have this many bytes: a buffer of std's.
const HELD: usize = 8192;

/// The longest line: a number of 20 digits, " read", a space and 20 digits for each key, and a line feed.
const LONGEST: usize = 20 + 5 + 21 * MAX_KEYS as usize + 1;

/// The longest line fits behind the lines that are held, so the text never grows.
const CAPACITY: usize = HELD + LONGEST;

/// Answers each record of an input on the engine, until the input ends. Every read is lent the buffer.
/// A text for the lines that are held is allocated, once and before anything is read:
/// where there is no memory for it, nothing is answered, and all is left as it was.
pub fn run<F: Format, S: VersionStore, V: Validator, R: Read, W: Write + Drop>(
    alloc: Global,
    engine: &mut Engine<S, V>,
    buffer: &mut [u64],
    input: &mut BufReader<R>,
    output: &mut BufWriter<W>,
) -> io::Result<()>
    // Where it is known which bytes come, and the numbers of the records suffice: those are answered.
    ensures file { OnOk result (IfSome (reader_remaining R.remaining input.old)
        (λ bytes. length bytes < 2 ^ 64 → AnswersFile F.decoded S.meaning V.meaning
        engine.old engine.new buffer.old buffer.new (writer_contents W.contents output.old)
        (writer_contents W.contents output.new) bytes)) }
    ensures end { OnOk result (IfSome (reader_remaining R.remaining input.old)
        (λ bytes. length bytes < 2 ^ 64 → IsAtEnd (reader_remaining R.remaining input.new))) }

    // Of any reader: what was taken from it is answered.
    ensures taken { OnOk result ((bytes : List ℕ)
        × Consumes (reader_remaining R.remaining input.old)
        (reader_remaining R.remaining input.new) bytes
        × AnswersFile F.decoded S.meaning V.meaning engine.old engine.new buffer.old buffer.new
        (writer_contents W.contents output.old) (writer_contents W.contents output.new) bytes) }

    // All that is written has left the buffer of the output.
    ensures flushed { OnOk result (writer_buffer output.new ≡ []) }

    // An error leaves the first records answered, and a beginning of their lines written.
    ensures err { OnErr result (Stops F.decoded S.meaning V.meaning engine.old engine.new 1
        buffer.old buffer.new (reader_remaining R.remaining input.old)
        (reader_remaining R.remaining input.new) (writer_contents W.contents output.old)
        (writer_contents W.contents output.new)) }
{
    answer_all::<F, _, _, _, _>(alloc, engine, buffer, input, output)?;
    output.flush()
}

/// Answers each record until the input ends. The last lines may still be in the buffer of the output.
fn answer_all<F: Format, S: VersionStore, V: Validator, R: Read, W: Write + Drop>(
    alloc: Global,
    engine: &mut Engine<S, V>,
    buffer: &mut [u64],
    input: &mut BufReader<R>,
    output: &mut BufWriter<W>,
) -> io::Result<()>
    ensures { MatchResult result
        (λ _. GoesThrough F.decoded S.meaning V.meaning engine.old engine.new
        buffer.old buffer.new (reader_remaining R.remaining input.old)
        (reader_remaining R.remaining input.new) (writer_contents W.contents output.old)
        (writer_contents W.contents output.new))
        (λ _. Stops F.decoded S.meaning V.meaning engine.old engine.new 1
        buffer.old buffer.new (reader_remaining R.remaining input.old)
        (reader_remaining R.remaining input.new) (writer_contents W.contents output.old)
        (writer_contents W.contents output.new)) }
{
    let mut text = new_text(alloc)?;
    for number in 1..u64::MAX {
        hand_over(input, &mut text, output)?;
        if !answer_next::<F, _, _, _>(number, engine, buffer, input, &mut text)? {
            return write_lines(&mut text, output);
        }
    }
    write_lines(&mut text, output)
}

/// An empty text, with capacity for the longest line behind the lines that are held.
// Out of line, since it comes once in a run.
#[inline(never)]
fn new_text(alloc: Global) -> io::Result<String>
    ensures empty { IfOk result (λ text. string_bytes text ≡ []) }
    ensures capacity { IfOk result (λ text. CAPACITY ≤ string_capacity text) }
{
    Ok(String::with_capacity(alloc, CAPACITY)?)
}

/// Who waits for an answer before the next record must have it before that is waited for.
/// Otherwise lines are held, so that many are written at once.
fn hand_over<R: Read, W: Write + Drop>(
    input: &BufReader<R>,
    text: &mut String,
    output: &mut BufWriter<W>,
) -> io::Result<()>
    ensures bytes { MatchResult result
        (λ _. HandsOver (string_bytes text.old) (string_bytes text.new)
        (writer_contents W.contents output.old) (writer_contents W.contents output.new))
        (λ _. AppendsSome (writer_contents W.contents output.old)
        (writer_contents W.contents output.new) (string_bytes text.old)) }
    ensures flushed { OnOk result (length (reader_buffer input.now) < RECORD →
        (string_bytes text.new ≡ []) × (writer_buffer output.new ≡ [])) }
    ensures few { OnOk result (length (string_bytes text.new) < HELD) }
{
    if input.buffer().len() < RECORD {
        write_lines(text, output)?;
        return output.flush();
    }
    if text.len() >= HELD {
        return write_lines(text, output);
    }
    Ok(())
}

/// Answers the next record, if there is one, with its line behind the text.
/// Says whether the record is whole, so that another may follow.
fn answer_next<F: Format, S: VersionStore, V: Validator, R: Read>(
    number: u64,
    engine: &mut Engine<S, V>,
    buffer: &mut [u64],
    input: &mut R,
    text: &mut String,
) -> io::Result<bool>
    ensures { MatchResult result
        (Advances F.decoded S.meaning V.meaning engine.old engine.new number
        buffer.old buffer.new (R.remaining input.old) (R.remaining input.new)
        (string_bytes text.old) (string_bytes text.new))
        (λ _. Breaks F.decoded S.meaning V.meaning engine.old engine.new number
        buffer.old buffer.new (R.remaining input.old) (R.remaining input.new)) }
{
    let mut bytes = [0; RECORD];
    let count = read_record(input, &mut bytes)?;
    if count == 0 {
        return Ok(false);
    }
    answer_record::<F, _, _>(number, &bytes[..count], engine, buffer, text)?;
    Ok(count == RECORD)
}

/// Answers one record, and puts its line behind the text.
fn answer_record<F: Format, S: VersionStore, V: Validator>(
    number: u64,
    bytes: &[u8],
    engine: &mut Engine<S, V>,
    buffer: &mut [u64],
    text: &mut String,
) -> io::Result<()>
    ensures answers { Answers F.decoded S.meaning V.meaning engine.old engine.new number
        (bytes.now ∷ []) buffer.old buffer.new }
    ensures line { OnOk result (GrowsByLines F.decoded S.meaning V.meaning engine.old number
        (bytes.now ∷ []) buffer.old (string_bytes text.old) (string_bytes text.new)) }
{
    let result = answer::<F, _, _>(number, bytes, engine, buffer);
    let line = Line {
        number,
        result,
        buffer,
    };
    writeln!(text, "{line}")?;
    Ok(())
}

/// Reads until the record is full or the input ends, and answers how many bytes came.
fn read_record<R: Read>(input: &mut R, bytes: &mut [u8]) -> io::Result<usize>
    ensures within { IfOk result (λ n. n ≤ length bytes.new) }
    ensures taken { IfOk result (λ n. Consumes (R.remaining input.old) (R.remaining input.new)
        (take n bytes.new)) }
    ensures short { IfOk result (λ n. n < length bytes.new → IsAtEnd (R.remaining input.new)) }
    ensures err { OnErr result (ConsumesSome (R.remaining input.old) (R.remaining input.new)) }
{
    // `read_exact` does not tell how many bytes of a short record came.
    let mut count = 0;
    while count < bytes.len() {
        let more = input.read(&mut bytes[count..])?;
        if more == 0 {
            break;
        }
        count += more;
    }
    Ok(count)
}

/// Writes the text, and clears it.
// Out of line, since it comes once in hundreds of records.
#[inline(never)]
fn write_lines<W: Write>(text: &mut String, output: &mut W) -> io::Result<()>
    ensures bytes { MatchResult result
        (λ _. Appends (W.contents output.old) (W.contents output.new) (string_bytes text.old))
        (λ _. AppendsSome (W.contents output.old) (W.contents output.new)
        (string_bytes text.old)) }
    ensures retried { IfErr result (λ e. error_kind e ≢ ErrorKind.Interrupted) }
    ensures cleared { OnOk result (string_bytes text.new ≡ []) }
{
    write_text(output, text.as_bytes())?;
    text.clear();
    Ok(())
}

/// Writes all of a text; what an error leaves written is a beginning of it.
fn write_text<W: Write>(output: &mut W, text: &[u8]) -> io::Result<()>
    ensures bytes { MatchResult result
        (λ _. Appends (W.contents output.old) (W.contents output.new) text.now)
        (λ _. AppendsSome (W.contents output.old) (W.contents output.new) text.now) }
    ensures retried { IfErr result (λ e. error_kind e ≢ ErrorKind.Interrupted) }
{
    // `write_all` does not tell what an error leaves.
    let mut written = 0;
    while written < text.len() {
        let count = write_some(output, &text[written..])?;
        if count == 0 {
            return Err(ErrorKind::WriteZero.into());
        }
        written += count;
    }
    Ok(())
}

/// Writes a beginning of a text. A write that is interrupted is tried again, as the library does.
fn write_some<W: Write>(output: &mut W, text: &[u8]) -> io::Result<usize>
    ensures bound { WritesAtMost result text.now }
    ensures bytes { WriteAppends (W.contents output.old) (W.contents output.new) result text.now }
    ensures retried { IfErr result (λ e. error_kind e ≢ ErrorKind.Interrupted) }
{
    for _ in 0..u64::MAX {
        match output.write(text) {
            Ok(some) => return Ok(some),
            Err(error) => {
                if error.kind() != ErrorKind::Interrupted {
                    return Err(error);
                }
            }
        }
    }
    Err(ErrorKind::TimedOut.into())
}
