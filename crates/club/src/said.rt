//! What an event did, as a value that two engines' answers are compared by, and its words.
ghost use Rattle.std.specs.Prelude.{Some};
ghost use Rattle.club.specs.Texts.{answer_or_refusal, ending_text, recalculation_text, redone_text, least_text, figures_text, said_text};

use answer_lines::Spaced;
use ledger::{Fault, KeyedValue, Verdict};
use refusals::Refusal;
use std::fmt;

/// The keys of the club's table, all of which a list shows.
pub const KEYS: u16 = 8;

/// A recalculation that has read its rounds and not yet written its index.
#[derive(Clone, Copy, PartialEq, Eq)]
pub struct Recalculation {
    pub handle: u32,
    pub first: u16,
    pub count: u16,
    pub index: u16,
    pub value: u64,
}

/// A recalculation that was done again, and how that ended.
#[derive(Clone, Copy, PartialEq, Eq)]
pub struct Redone {
    pub work: Recalculation,
    pub end: Result<Verdict, Fault>,
}

/// The figures of a run of rounds: their sum, the smallest, and how many were played.
#[derive(Clone, Copy, PartialEq, Eq)]
pub struct Figures {
    pub sum: u64,
    pub smallest: Option<KeyedValue>,
    pub played: u64,
}

/// What an event did.
#[derive(Clone, Copy, PartialEq, Eq)]
pub enum Said {
    Card {
        key: u16,
        value: u64,
        end: Result<Verdict, Fault>,
    },
    /// `was` is the value before.
    Correction {
        key: u16,
        value: u64,
        was: u64,
        end: Result<Verdict, Fault>,
    },
    Recalculation(Recalculation),
    AlreadyOpen,
    NoneOpen,
    Ended(Verdict),
    /// Key and stamp of the clash, and how the second try went.
    Restarted {
        key: u16,
        stamp: u32,
        again: Result<Redone, Fault>,
    },
    Values([u64; KEYS as usize]),
    Figures(Figures),
    Report {
        handle: u32,
    },
    Removed {
        count: u16,
    },
}

/// An answer, or why it was refused, as it is printed.
#[derive(Drop, PartialEq, Eq)]
pub struct Spoken<T, E>(pub Result<T, E>);

impl<T: fmt::Display, E: Refusal> fmt::Display for Spoken<T, E> {
    ghost output = { λ s. answer_or_refusal T.output Some E.reported s.0 };

    fn fmt<W: fmt::Write>(&self, f: &mut fmt::Formatter<W>) -> fmt::Result {
        match &self.0 {
            Ok(answer) => write!(f, "{answer}"),
            Err(fault) => write!(f, "refused {}", fault.report()),
        }
    }
}

/// How a transaction ended, as it is printed.
#[derive(Drop)]
struct Ended(Verdict);

impl fmt::Display for Ended {
    ghost output = { λ e. Some (ending_text e.0) };

    fn fmt<W: fmt::Write>(&self, f: &mut fmt::Formatter<W>) -> fmt::Result {
        match self.0 {
            Verdict::Closed => write!(f, "closed"),
            Verdict::Restart { key, stamp } => {
                write!(f, "restarted by the commit at tick {stamp} on key {key}")
            }
            Verdict::Spent => write!(f, "spent: no tick is left"),
            Verdict::Full { writes, free } => write!(f, "full: {writes} to write, {free} free"),
            Verdict::Committed { tick } => write!(f, "committed at tick {tick}"),
        }
    }
}

impl fmt::Display for Recalculation {
    ghost output = { λ w. Some (recalculation_text w) };

    fn fmt<W: fmt::Write>(&self, f: &mut fmt::Formatter<W>) -> fmt::Result {
        let Recalculation {
            handle,
            count,
            index,
            value,
            ..
        } = *self;
        write!(
            f,
            "recalculation {handle} read {count} rounds: index {value} for key {index}"
        )
    }
}

impl fmt::Display for Redone {
    ghost output = { λ d. Some (redone_text d) };

    fn fmt<W: fmt::Write>(&self, f: &mut fmt::Formatter<W>) -> fmt::Result {
        let Redone { work, end } = *self;
        write!(f, "{work}, {}", Spoken(end.map(Ended)))
    }
}

/// The smallest of a run of rounds, as it is printed.
#[derive(Drop)]
struct Least(Option<KeyedValue>);

impl fmt::Display for Least {
    ghost output = { λ l. Some (least_text l.0) };

    fn fmt<W: fmt::Write>(&self, f: &mut fmt::Formatter<W>) -> fmt::Result {
        match self.0 {
            Some(KeyedValue { key, value }) => write!(f, "{value} for key {key}"),
            None => write!(f, "none"),
        }
    }
}

impl fmt::Display for Figures {
    ghost output = { λ x. Some (figures_text x) };

    fn fmt<W: fmt::Write>(&self, f: &mut fmt::Formatter<W>) -> fmt::Result {
        let Figures {
            sum,
            smallest,
            played,
        } = *self;
        let smallest = Least(smallest);
        write!(f, "sum {sum}, smallest {smallest}, {played} rounds played")
    }
}

impl fmt::Display for Said {
    ghost output = { λ s. Some (said_text s) };

    fn fmt<W: fmt::Write>(&self, f: &mut fmt::Formatter<W>) -> fmt::Result {
        match self {
            Said::Card { key, value, end } => {
                write!(f, "card {value} for key {key}: {}", Spoken(end.map(Ended)))
            }
            Said::Correction {
                key,
                value,
                was,
                end,
            } => {
                let end = Spoken(end.map(Ended));
                write!(f, "card {value} for key {key} in place of {was}: {end}")
            }
            Said::Recalculation(work) => write!(f, "{work}"),
            Said::AlreadyOpen => write!(f, "a recalculation is open already"),
            Said::NoneOpen => write!(f, "no recalculation is open"),
            Said::Ended(verdict) => write!(f, "{}", Ended(*verdict)),
            Said::Restarted { key, stamp, again } => {
                let (key, stamp) = (*key, *stamp);
                let restart = Ended(Verdict::Restart { key, stamp });
                write!(f, "{restart}; again: {}", Spoken(*again))
            }
            Said::Values(values) => write!(f, "values{}", Spaced { values }),
            Said::Figures(figures) => write!(f, "{figures}"),
            Said::Report { handle } => write!(f, "report {handle} opened"),
            Said::Removed { count } => write!(f, "{count} versions removed"),
        }
    }
}
