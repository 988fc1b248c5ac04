ghost use Rattle.std.specs.Prelude.{◌≡◌, Some};
ghost use Rattle.trials.specs.Tally.{tally_sum, tally_text};

use std::fmt;
use std::ops::AddAssign;

/// What was compared, and what differed.
#[derive(Clone, Copy, Default)]
pub struct Tally {
    /// Call files answered: one for each pair of store and validator.
    pub runs: u64,
    pub lines: u64,
    /// Runs with a line other than the expected one.
    pub differing: u64,
}

impl Tally {
    pub fn new() -> Tally
        ensures { (result.runs ≡ 0) × (result.lines ≡ 0) × (result.differing ≡ 0) }
    {
        Tally::default()
    }
}

impl AddAssign for Tally {
    ghost add_assign_gives = { λ old other new. new ≡ tally_sum old other };

    fn add_assign(&mut self, other: Tally) {
        self.runs = self.runs.saturating_add(other.runs);
        self.lines = self.lines.saturating_add(other.lines);
        self.differing = self.differing.saturating_add(other.differing);
    }
}

impl fmt::Display for Tally {
    ghost output = { λ t. Some (tally_text t) };

    fn fmt<W: fmt::Write>(&self, f: &mut fmt::Formatter<W>) -> fmt::Result {
        let Tally {
            runs,
            lines,
            differing,
        } = *self;
        match differing {
            0 => write!(f, "{runs} runs, {lines} lines"),
            _ => write!(f, "{runs} runs, {lines} lines, {differing} runs differ"),
        }
    }
}
