//! The calls on the engine, what they do and why they are refused, as values.
//! What each call answers is defined in `specs/`; the laws of it are the contracts in `laws`.
#![tactic(auto)]

ghost use Rattle.std.specs.Prelude.{◌≡◌};
ghost use Rattle.ledger.specs.declared.Call.TheVariants.{Read};

use refusals::{Refusal, Report};

pub mod laws;

/// The calls of the engine, and its set-up, are the third layer.
pub const LAYER: u8 = 3;

/// The most transactions that are active at once.
pub const MAX_ACTIVE: usize = 16;

/// The most ranges that an updater reads or totals.
pub const MAX_READS: usize = 32;

/// The most keys that an updater writes.
pub const MAX_WRITES: usize = 32;

#[derive(Clone, Copy)]
pub enum Kind {
    Reader,
    Updater,
}

#[derive(Clone, Copy)]
pub enum Call {
    Begin(Kind),
    Read {
        handle: u32,
        first: u16,
        count: u16,
    },
    /// One figure of what a read of the range would give. It needs no buffer; otherwise it is refused as that read is.
    Total {
        handle: u32,
        first: u16,
        count: u16,
        summary: SummaryKind,
    },
    Write {
        handle: u32,
        key: u16,
        value: u64,
    },
    Commit {
        handle: u32,
    },
    Abort {
        handle: u32,
    },
    Reclaim,
}

/// What an accepted call did.
#[derive(Clone, Copy, Debug, PartialEq, Eq)]
pub enum Done {
    Began { handle: u32 },
    /// So many values are at the front of the caller's buffer.
    Read { count: u16 },
    /// One figure of the values that a read would give.
    Total(Figure),
    Wrote,
    Ended(Verdict),
    Aborted,
    Reclaimed { count: u16 },
}

/// What a commit answers.
#[derive(Clone, Copy, Debug, PartialEq, Eq)]
pub enum Verdict {
    Closed,
    /// The first key read whose granule was written since, and the stamp of that granule.
    Restart { key: u16, stamp: u32 },
    Spent,
    /// The number of writes, and the free cells.
    Full { writes: u16, free: u16 },
    Committed { tick: u32 },
}

/// Why a call is refused.
#[derive(Clone, Copy, Debug, PartialEq, Eq)]
pub enum Fault {
    KeyOutside { key: u16 },
    ShortBuffer { length: usize },
    NoTransaction { handle: u32 },
    ReaderWrites { handle: u32 },
    TooManyActive,
    ClockSpent { last: u32 },
    ReadListFull { handle: u32 },
    WriteListFull { handle: u32 },
}

/// A kind of summary: which figure of the values of a range is told.
#[derive(Clone, Copy, Debug, PartialEq, Eq)]
pub enum SummaryKind {
    /// Their sum modulo 2^64.
    Sum,
    /// The smallest of them, with the lowest key that has it.
    Smallest,
    /// How many of them are not 0.
    NonZero,
}

/// One figure of the values of a range.
#[derive(Clone, Copy, Debug, PartialEq, Eq)]
pub enum Figure {
    /// The sum modulo 2^64.
    Sum { value: u64 },
    /// None of a range of no keys; of equal values the one with the lowest key.
    Smallest { least: Option<KeyedValue> },
    /// How many values are not 0.
    NonZero { count: u64 },
}

/// A value, and the key that has it.
#[derive(Clone, Copy, Debug, PartialEq, Eq)]
pub struct KeyedValue {
    pub key: u16,
    pub value: u64,
}

/// A run of keys.
#[derive(Clone, Copy, PartialEq, Eq)]
pub struct Range {
    pub first: u16,
    pub count: u16,
}

impl Range {
    /// The call that reads it.
    pub fn read_by(self, handle: u32) -> Call
        ensures { result ≡ Read handle self.first self.count }
    {
        Call::Read {
            handle,
            first: self.first,
            count: self.count,
        }
    }
}

/// A value to be written to a key.
#[derive(Clone, Copy)]
pub struct Write {
    pub key: u16,
    pub value: u64,
}

impl Refusal for Fault {
    ghost use Rattle.ledger.specs.Faults.{fault_report};

    ghost reported = { fault_report };

    fn report(&self) -> Report {
        let (number, place) = match *self {
            Fault::KeyOutside { key } => (5, u64::from(key)),
            // A length fits 64 bits.
            Fault::ShortBuffer { length } => (6, length as u64),
            Fault::NoTransaction { handle } => (9, u64::from(handle)),
            Fault::ReaderWrites { handle } => (10, u64::from(handle)),
            Fault::TooManyActive => (11, MAX_ACTIVE as u64),
            Fault::ClockSpent { last } => (12, u64::from(last)),
            Fault::ReadListFull { handle } => (13, u64::from(handle)),
            Fault::WriteListFull { handle } => (14, u64::from(handle)),
        };
        Report {
            layer: LAYER,
            number,
            place,
        }
    }
}
