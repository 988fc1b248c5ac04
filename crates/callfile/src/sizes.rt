//! The sizes of what the programs that answer call files lend.

pub const KEYS: u16 = 64;

pub const CELLS: usize = 256;

/// The places of the buffer that every read is lent.
pub const PLACES: usize = 64;
