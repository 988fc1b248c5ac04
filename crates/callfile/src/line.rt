ghost use Rattle.std.specs.Prelude.{Some};
ghost use Rattle.callfile.specs.Lines.{figure_text, line_text};

use answer_lines::{LineFault, Spaced};
use ledger::{Done, Figure, KeyedValue, Verdict};
use refusals::Refusal;
use std::fmt;

/// The line that answers a record, with the buffer that its call was lent.
#[derive(Clone, Copy)]
pub struct Line<'a> {
    pub number: u64,
    pub result: Result<Done, LineFault>,
    pub buffer: &'a [u64],
}

impl fmt::Display for Line<'_> {
    ghost output = { λ l. Some (line_text l.number l.result l.buffer.now) };

    fn fmt<W: fmt::Write>(&self, f: &mut fmt::Formatter<W>) -> fmt::Result {
        let number = self.number;
        match self.result {
            Ok(Done::Began { handle }) => write!(f, "{number} began {handle}"),
            Ok(Done::Read { count }) => {
                let count = usize::from(count);
                let values = Spaced {
                    values: self.buffer.get(..count).unwrap_or(self.buffer),
                };
                write!(f, "{number} read{values}")
            }
            Ok(Done::Total(figure)) => write!(f, "{number} {}", Told(figure)),
            Ok(Done::Wrote) => write!(f, "{number} wrote"),
            Ok(Done::Ended(Verdict::Closed)) => write!(f, "{number} closed"),
            Ok(Done::Ended(Verdict::Restart { key, stamp })) => {
                write!(f, "{number} restart {key} {stamp}")
            }
            Ok(Done::Ended(Verdict::Spent)) => write!(f, "{number} spent"),
            Ok(Done::Ended(Verdict::Full { writes, free })) => {
                write!(f, "{number} full {writes} {free}")
            }
            Ok(Done::Ended(Verdict::Committed { tick })) => {
                write!(f, "{number} committed {tick}")
            }
            Ok(Done::Aborted) => write!(f, "{number} aborted"),
            Ok(Done::Reclaimed { count }) => write!(f, "{number} reclaimed {count}"),
            Err(fault) => write!(f, "{number} refused {}", fault.report()),
        }
    }
}

/// A figure, as a line tells it.
#[derive(Clone, Copy)]
struct Told(Figure);

impl fmt::Display for Told {
    ghost output = { λ t. Some (figure_text t.0) };

    fn fmt<W: fmt::Write>(&self, f: &mut fmt::Formatter<W>) -> fmt::Result {
        match self.0 {
            Figure::Sum { value } => write!(f, "sum {value}"),
            Figure::Smallest { least: None } => write!(f, "smallest none"),
            Figure::Smallest {
                least: Some(KeyedValue { key, value }),
            } => write!(f, "smallest {value} {key}"),
            Figure::NonZero { count } => write!(f, "nonzero {count}"),
        }
    }
}
