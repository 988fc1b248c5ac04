//! A club's afternoon: its events, told by lines of text, and the transactions that they are made of.
#![tactic(auto)]

pub mod afternoon;
pub mod desk;
pub mod event;
pub mod index;
pub mod line;
pub mod said;
pub mod transactions;
