//! What the lines that answer a call file and those that answer an afternoon share.
#![tactic(auto)]

ghost use Rattle.std.specs.Prelude.{◌≡◌, Some};

use ledger::Fault;
use refusals::{Refusal, Report};
use std::fmt;

/// The inputs are the fourth layer.
pub const LAYER: u8 = 4;

/// Why a line or a record of an input is refused.
#[derive(Clone, Copy, Debug, PartialEq, Eq)]
pub enum LineFault {
    /// The line or the record with this number is malformed.
    Malformed { number: u64 },
    /// The engine refuses the call.
    Engine(Fault),
}

impl From<Fault> for LineFault {
    ghost use Rattle.answer_lines.specs.declared.LineFault.TheVariants.{Engine};

    ghost from_gives = { λ f e. e ≡ Engine f };

    fn from(fault: Fault) -> LineFault {
        LineFault::Engine(fault)
    }
}

impl Refusal for LineFault {
    ghost use Rattle.answer_lines.specs.Lines.{line_report};

    ghost reported = { line_report };

    fn report(&self) -> Report {
        match *self {
            LineFault::Malformed { number } => Report {
                layer: LAYER,
                number: 7,
                place: number,
            },
            LineFault::Engine(fault) => fault.report(),
        }
    }
}

/// A space before each value.
#[derive(Clone, Copy)]
pub struct Spaced<'a> {
    pub values: &'a [u64],
}

impl fmt::Display for Spaced<'_> {
    ghost use Rattle.answer_lines.specs.Lines.{spaced};

    ghost output = { λ s. Some (spaced s.values.now) };

    fn fmt<W: fmt::Write>(&self, f: &mut fmt::Formatter<W>) -> fmt::Result {
        for value in self.values {
            write!(f, " {value}")?;
        }
        Ok(())
    }
}
