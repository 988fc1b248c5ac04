//! The active transactions: a table of records, each with its read list and its write list.
#![tactic(auto)]

pub mod lists;
pub mod record;
pub mod table;
