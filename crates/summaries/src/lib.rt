//! Summaries: one figure of many values, each with its key, and three kinds of them.
#![tactic(auto)]

mod figures;
pub mod kinds;
#[cfg(test)]
mod tests;

ghost use Rattle.std.specs.Prelude.{◌≡◌, ℕ};
ghost use Rattle.summaries.specs.Summaries.{SummaryLaws};

/// A kind of summary: one figure of many values, each with its key. The type's values are the figures.
/// An implementation owes two laws: that of no keys changes nothing on either side, and joining comes out alike in any
/// bracketing.
pub trait Summary {
    ghost one: { ℕ → ℕ → Self };

    ghost neutral: { Self };

    ghost join: { Self → Self → Self };

    // What lets the values of a run of keys be joined in parts.
    ghost laws: { SummaryLaws neutral join };

    /// The figure of one key and its value.
    fn one(key: u16, value: u64) -> Self
        ensures { result ≡ one key value };

    /// The figure of no keys.
    fn neutral() -> Self
        ensures { result ≡ neutral };

    /// The figure of some keys and, behind them, of others.
    fn join(self, other: Self) -> Self
        ensures { result ≡ join self other };
}
