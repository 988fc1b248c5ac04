//! Answers the call file on its standard input, over a chain store and a stamp table.
#![tactic(auto)]

ghost use Rattle.std.specs.Prelude.{◌≡◌, [], OnOk, OnErr};
ghost use Rattle.std.specs.Io.Buffered.{reader_remaining, writer_buffer, writer_contents};
ghost use Rattle.callfile.specs.Programs.{AnswersAll, AnswersTaken, AnswersSome};

use callfile::sizes::{CELLS, KEYS, PLACES};
use callfile::stream::run;
use chain::cell::Cell;
use chain::store::ChainStore;
use engine::engine::{Engine, LAST_TICK};
use records::codec::CallFile;
use std::alloc::Global;
use std::io;
use std::io::{BufReader, BufWriter, Read, Write};
use validation::table::StampTable;

/// A granule is one key.
const GRAIN: u16 = 1;

/// Answers a call file over a chain store and a stamp table.
fn answer_file<R: Read, W: Write + Drop>(
    alloc: Global,
    input: &mut BufReader<R>,
    output: &mut BufWriter<W>,
) -> io::Result<()>
    ensures all { OnOk result (AnswersAll (reader_remaining R.remaining input.old)
        (writer_contents W.contents output.old) (writer_contents W.contents output.new)) }
    ensures taken { OnOk result (AnswersTaken (reader_remaining R.remaining input.old)
        (reader_remaining R.remaining input.new)
        (writer_contents W.contents output.old) (writer_contents W.contents output.new)) }

    // All that is written has left the buffer of the output.
    ensures flushed { OnOk result (writer_buffer output.new ≡ []) }
    ensures err { OnErr result (AnswersSome (reader_remaining R.remaining input.old)
        (writer_contents W.contents output.old) (writer_contents W.contents output.new)) }
{
    let mut heads = [None; KEYS as usize];
    let mut cells = [Cell::CLEARED; CELLS];
    let mut stamps = [0; KEYS as usize];
    let mut buffer = [0; PLACES];
    let store = ChainStore::make(KEYS, &mut heads, &mut cells);
    let validator = StampTable::make(KEYS, GRAIN, &mut stamps);
    let mut engine = Engine::make(LAST_TICK, store, validator);
    run::<CallFile, _, _, _, _>(alloc, &mut engine, &mut buffer, input, output)
}

fn main(rt: HostRuntime) -> io::Result<()> {
    let mut input = BufReader::new(rt.alloc(), rt.stdin())?;
    let mut output = BufWriter::new(rt.alloc(), rt.stdout())?;
    answer_file(rt.alloc(), &mut input, &mut output)
}
