//! Answers the call file on its standard input, over a log store and a recent list.
#![tactic(auto)]

ghost use Rattle.std.specs.Prelude.{◌≡◌, [], OnOk, OnErr};
ghost use Rattle.std.specs.Io.Buffered.{reader_remaining, writer_buffer, writer_contents};
ghost use Rattle.callfile.specs.Programs.{AnswersAll, AnswersTaken, AnswersSome};

use callfile::sizes::{CELLS, KEYS, PLACES};
use callfile::stream::run;
use engine::engine::{Engine, LAST_TICK};
use records::codec::CallFile;
use std::alloc::Global;
use std::io;
use std::io::{BufReader, BufWriter, Read, Write};
use validation::entry::Entry;
use validation::recent::RecentList;
use versions::log::LogStore;
use versions::store::Version;

/// Answers a call file over a log store and a recent list.
fn answer_file<R: Read, W: Write + Drop>(
    alloc: Global,
    input: &mut BufReader<R>,
    output: &mut BufWriter<W>,
) -> io::Result<()>
    ensures all { OnOk result (AnswersAll (reader_remaining R.remaining input.old)
        (writer_contents W.contents output.old) (writer_contents W.contents output.new)) }
    ensures taken { OnOk result (AnswersTaken (reader_remaining R.remaining input.old)
        (reader_remaining R.remaining input.new)
        (writer_contents W.contents output.old) (writer_contents W.contents output.new)) }

    // All that is written has left the buffer of the output.
    ensures flushed { OnOk result (writer_buffer output.new ≡ []) }
    ensures err { OnErr result (AnswersSome (reader_remaining R.remaining input.old)
        (writer_contents W.contents output.old) (writer_contents W.contents output.new)) }
{
    let mut cells = [Version::CLEARED; CELLS];
    let mut entries = [Entry::CLEARED; KEYS as usize];
    let mut buffer = [0; PLACES];
    let store = LogStore::make(KEYS, &mut cells);
    let validator = RecentList::make(KEYS, &mut entries);
    let mut engine = Engine::make(LAST_TICK, store, validator);
    run::<CallFile, _, _, _, _>(alloc, &mut engine, &mut buffer, input, output)
}

// Out of line: the log's inner loop then comes to lie where it runs a sixth faster.
#[inline(never)]
fn main(rt: HostRuntime) -> io::Result<()> {
    let mut input = BufReader::new(rt.alloc(), rt.stdin())?;
    let mut output = BufWriter::new(rt.alloc(), rt.stdout())?;
    answer_file(rt.alloc(), &mut input, &mut output)
}
