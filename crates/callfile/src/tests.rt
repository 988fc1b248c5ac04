use crate::stream::run;
use engine::engine::Engine;
use ledger::{Call, Kind};
use records::codec::{CallFile, RECORD, encode};
use std::alloc::Global;
use std::cell::{Cell, RefCell};
use std::io;
use std::io::{BufReader, BufWriter, ErrorKind, Read, Write};
use std::test::Fail;
use validation::entry::Entry;
use validation::recent::RecentList;
use versions::log::LogStore;
use versions::store::Version;

const LINES: &[u8] =
    b"1 refused 4 7 1\n2 began 1\n3 wrote\n4 committed 2\n5 began 3\n6 read 54 0\n7 refused 4 7 7\n";

/// Seven records that `LINES` answers, the last one short of a byte.
fn records(alloc: Global) -> io::Result<Vec<u8>> {
    let mut records = Vec::new(alloc);
    records.extend_from_slice(&[8; RECORD])?;
    for call in [
        Call::Begin(Kind::Updater),
        Call::Write {
            handle: 1,
            key: 2,
            value: 54,
        },
        Call::Commit { handle: 1 },
        Call::Begin(Kind::Reader),
        Call::Read {
            handle: 3,
            first: 2,
            count: 2,
        },
        Call::Abort { handle: 3 },
    ] {
        records.extend_from_slice(&encode(call).unwrap())?;
    }
    let _ = records.pop();
    Ok(records)
}

fn run_over<R: Read + Drop, W: Write + Drop>(alloc: Global, input: R, output: W) -> io::Result<()> {
    let mut output = BufWriter::new(alloc, output)?;
    run_into(alloc, input, &mut output)
}

fn run_into<R: Read + Drop, W: Write + Drop>(
    alloc: Global,
    input: R,
    output: &mut BufWriter<W>,
) -> io::Result<()> {
    let mut cells = [Version::CLEARED; 4];
    let mut entries = [Entry::CLEARED; 4];
    let store = LogStore::make(4, &mut cells);
    let validator = RecentList::make(4, &mut entries);
    let mut engine = Engine::make(100, store, validator);
    let mut input = BufReader::new(alloc, input)?;
    run::<CallFile, _, _, _, _>(alloc, &mut engine, &mut [0; 2], &mut input, output)
}

/// What came out of a run, and how many calls made it so.
#[derive(Drop)]
struct Outcome {
    lines: RefCell<Vec<u8>>,
    calls: Cell<usize>,
}

impl Outcome {
    fn new(alloc: Global) -> Outcome {
        Outcome {
            lines: RefCell::new(Vec::new(alloc)),
            calls: Cell::new(0),
        }
    }

    fn count(&self) -> usize {
        let calls = self.calls.get();
        self.calls.set(calls.saturating_add(1));
        calls
    }
}

/// Fails at the call with this number, and at no other.
#[derive(Drop)]
struct FailsOnce<'a> {
    outcome: &'a Outcome,
    at: usize,
}

impl Write for FailsOnce<'_> {
    fn write(&mut self, buf: &[u8]) -> io::Result<usize> {
        self.flush()?;
        match self.outcome.lines.try_borrow_mut() {
            Ok(mut lines) => lines.extend_from_slice(buf)?,
            Err(_) => return Err(ErrorKind::Other.into()),
        }
        Ok(buf.len())
    }

    fn flush(&mut self) -> io::Result<()> {
        if self.outcome.count() == self.at {
            return Err(ErrorKind::BrokenPipe.into());
        }
        Ok(())
    }
}

/// Is interrupted at every other write.
#[derive(Drop)]
struct Interrupted<'a> {
    outcome: &'a Outcome,
}

impl Write for Interrupted<'_> {
    fn write(&mut self, buf: &[u8]) -> io::Result<usize> {
        if self.outcome.count().is_multiple_of(2) {
            return Err(ErrorKind::Interrupted.into());
        }
        match self.outcome.lines.try_borrow_mut() {
            Ok(mut lines) => lines.extend_from_slice(buf)?,
            Err(_) => return Err(ErrorKind::Other.into()),
        }
        Ok(buf.len())
    }

    fn flush(&mut self) -> io::Result<()> {
        Ok(())
    }
}

/// Gives a few bytes at a time, and no more until each whole record that it gave has its line.
#[derive(Drop)]
struct Waiting<'a> {
    rest: &'a [u8],
    given: usize,
    step: usize,
    outcome: &'a Outcome,
}

impl Read for Waiting<'_> {
    fn read(&mut self, buf: &mut [u8]) -> io::Result<usize> {
        let lines = match self.outcome.lines.try_borrow() {
            Ok(lines) => lines.iter().filter(|byte| **byte == b'\n').count(),
            Err(_) => 0,
        };
        if lines < self.given / RECORD {
            return Err(ErrorKind::TimedOut.into());
        }
        let count = self.step.min(buf.len()).min(self.rest.len());
        let (given, rest) = self.rest.split_at(count);
        buf[..count].copy_from_slice(given);
        self.rest = rest;
        self.given = self.given.saturating_add(count);
        Ok(count)
    }
}

#[test]
fn answers_to_the_end(rt: HostRuntime) -> Result<(), Fail> {
    let records = records(rt.alloc())?;
    let outcome = Outcome::new(rt.alloc());
    let output = FailsOnce {
        outcome: &outcome,
        at: usize::MAX,
    };
    run_over(rt.alloc(), records.as_slice(), output)?;
    assert_eq!(rt; outcome.lines.try_borrow()?.as_slice(), LINES);
    Ok(())
}

#[test]
fn a_line_comes_before_the_next_record_is_waited_for(rt: HostRuntime) -> Result<(), Fail> {
    let records = records(rt.alloc())?;
    for step in [1, 7, 20, 64] {
        let outcome = Outcome::new(rt.alloc());
        let input = Waiting {
            rest: records.as_slice(),
            given: 0,
            step,
            outcome: &outcome,
        };
        let output = FailsOnce {
            outcome: &outcome,
            at: usize::MAX,
        };
        run_over(rt.alloc(), input, output)?;
        assert_eq!(rt;
            outcome.lines.try_borrow()?.as_slice(),
            LINES,
            "by {step} bytes"
        );
    }
    Ok(())
}

#[test]
fn each_failing_call_is_an_error_after_some_lines(rt: HostRuntime) -> Result<(), Fail> {
    let records = records(rt.alloc())?;
    let good = Outcome::new(rt.alloc());
    let output = FailsOnce {
        outcome: &good,
        at: usize::MAX,
    };
    run_over(rt.alloc(), records.as_slice(), output)?;
    assert!(rt; good.calls.get() > 0);
    for at in 0..good.calls.get() {
        let outcome = Outcome::new(rt.alloc());
        let output = FailsOnce {
            outcome: &outcome,
            at,
        };
        assert!(rt;
            run_over(rt.alloc(), records.as_slice(), output).is_err(),
            "at {at}"
        );
        assert!(rt;
            LINES.starts_with(outcome.lines.try_borrow()?.as_slice()),
            "at {at}"
        );
    }
    Ok(())
}

#[test]
fn a_write_that_is_interrupted_is_tried_again(rt: HostRuntime) -> Result<(), Fail> {
    let records = records(rt.alloc())?;
    let outcome = Outcome::new(rt.alloc());
    let output = Interrupted { outcome: &outcome };
    // With no buffer each text goes to the writer itself.
    let mut output = BufWriter::with_capacity(rt.alloc(), 0, output)?;
    run_into(rt.alloc(), records.as_slice(), &mut output)?;
    assert_eq!(rt; outcome.lines.try_borrow()?.as_slice(), LINES);
    Ok(())
}
