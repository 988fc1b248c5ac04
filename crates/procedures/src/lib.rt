//! What makes calls on an engine, one after another, for whatever layer stands above it.
//! `specs/Procedures` says what such calls answer and when an engine carried them out.
#![tactic(auto)]

pub mod updates;
