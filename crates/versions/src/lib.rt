//! Version stores: the interface, and a store that keeps its versions packed in a log.
#![tactic(auto)]

pub mod fault;
pub mod log;
pub mod store;
#[cfg(test)]
mod tests;
