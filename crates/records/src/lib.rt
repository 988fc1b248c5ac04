//! The records of a call file: 20 bytes, each a call on the engine.
//! `format` says what a format of records is, and `codec` has that of call files.
#![tactic(auto)]

pub mod codec;
pub mod format;
#[cfg(test)]
mod tests;
