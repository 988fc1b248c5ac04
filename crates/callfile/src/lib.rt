//! Call files: records of calls on the engine, and the line that answers each.
//! `line` has the lines, `answer` leads from a record to its line, and `stream` answers a whole input,
//! in whichever format its records are.
//! `sizes` has what the programs lend.
#![tactic(auto)]

pub mod answer;
pub mod examples;
pub mod line;
pub mod sizes;
pub mod stream;
#[cfg(test)]
mod tests;
