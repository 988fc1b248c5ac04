//! What a refusal says, whichever layer refuses.
#![tactic(auto)]

ghost use Rattle.std.specs.Prelude.{◌≡◌, Some};

use std::fmt;

/// The layer that refuses, the number of the reason, and at what.
#[derive(Clone, Copy, Debug, PartialEq, Eq)]
pub struct Report {
    pub layer: u8,
    pub number: u8,
    pub place: u64,
}

impl fmt::Display for Report {
    ghost use Rattle.refusals.specs.Reports.{report_text};

    ghost output = { λ r. Some (report_text r) };

    fn fmt<W: fmt::Write>(&self, f: &mut fmt::Formatter<W>) -> fmt::Result {
        write!(f, "{} {} {}", self.layer, self.number, self.place)
    }
}

/// A reason to refuse.
pub trait Refusal {
    ghost use Rattle.refusals.specs.declared.Report.{Report};

    ghost reported: { Self → Report };

    /// What it says; a fault that was carried up from a lower layer says what it said there.
    fn report(&self) -> Report
        ensures { result ≡ reported self.now };
}
