//! The engine: seven calls on transactions, over any version store and any validator.
//! `engine` has the calls, `slip` gives them to the holder of a slip, and `replay` makes a list of them.
#![tactic(auto)]

pub mod engine;
pub mod fault;
pub mod replay;
pub mod slip;
