//! Validators: what tells an updater's commit which keys were committed since it began.
//! The interface, and two implementations over lent memory.
#![tactic(auto)]

pub mod entry;
pub mod fault;
pub mod recent;
pub mod table;
#[cfg(test)]
mod tests;
pub mod validator;
