//! A version store that links each key's versions from a head, newest first, and its unused cells in a list of their own.
#![tactic(auto)]

pub mod cell;
pub mod fault;
mod links;
pub mod store;
#[cfg(test)]
mod tests;
