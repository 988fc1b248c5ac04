//! Runs a club's afternoon, a line of text for each event, and prints what each one did.
//! It runs on two engines at once, made of different stores and validators, and compares what they say.
#![tactic(auto)]

ghost use Rattle.std.specs.Prelude.{◌≡◌, ℕ, List, ◌^◌, ◌<◌, [], length, OnOk, IfSome};
ghost use Rattle.std.specs.Io.Buffered.{reader_remaining, writer_buffer, writer_contents};
ghost use Rattle.std.specs.Io.KnownBytes.{Appends};
ghost use Rattle.std.specs.Str.Lines.{lines};
ghost use Rattle.clubday.specs.Day.{day_text};

use chain::cell::Cell;
use chain::store::ChainStore;
use club::afternoon::run;
use club::desk::Desk;
use club::said::KEYS;
use engine::engine::Engine;
use std::alloc::Global;
use std::io;
use std::io::{BufReader, BufWriter, Read, Write};
use validation::recent::{Entry, RecentList};
use validation::table::StampTable;
use versions::log::LogStore;
use versions::store::Version;

// Nine cells for the club's versions, and ticks for a short afternoon.
const CELLS: usize = 9;

const DAY_LAST_TICK: u32 = 54;

/// Answers the lines of an afternoon: on the log store with the recent list, and beside it on the chain store
/// with the stamp table.
fn answer_day<R: Read, W: Write + Drop>(
    alloc: Global,
    input: &mut BufReader<R>,
    output: &mut BufWriter<W>,
) -> io::Result<()>
    // Where it is known which bytes come, and the numbers of the lines suffice.
    ensures text { OnOk result (IfSome (reader_remaining R.remaining input.old)
        (λ text. length text < 2 ^ 63 → Appends (writer_contents W.contents output.old)
        (writer_contents W.contents output.new) (day_text (lines text)))) }

    // Of any reader: the lines that it gave.
    ensures taken { OnOk result ((ls : List (List ℕ))
        × Appends (writer_contents W.contents output.old) (writer_contents W.contents output.new)
        (day_text ls)) }

    // All that is written has left the buffer of the output.
    ensures flushed { OnOk result (writer_buffer output.new ≡ []) }
{
    let mut versions = [Version::CLEARED; CELLS];
    let mut entries = [Entry::CLEARED; KEYS as usize];
    let mut heads = [None; KEYS as usize];
    let mut cells = [Cell::CLEARED; CELLS];
    let mut stamps = [0; KEYS as usize];
    let log = LogStore::make(KEYS, &mut versions);
    let recent = RecentList::make(KEYS, &mut entries);
    let chain = ChainStore::make(KEYS, &mut heads, &mut cells);
    let table = StampTable::make(KEYS, 1, &mut stamps);
    let first = Engine::make(DAY_LAST_TICK, log, recent);
    let second = Engine::make(DAY_LAST_TICK, chain, table);
    let mut one = Desk::new(first);
    let mut other = Desk::new(second);
    run(alloc, &mut one, &mut other, input, output)
}

fn main(rt: HostRuntime) -> anyhow::Result<()> {
    let mut input = BufReader::new(rt.alloc(), rt.stdin())?;
    let mut output = BufWriter::new(rt.alloc(), rt.stdout())?;
    answer_day(rt.alloc(), &mut input, &mut output)?;
    Ok(())
}
