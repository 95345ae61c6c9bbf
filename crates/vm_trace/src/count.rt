//! How often a row of a fixed table is used.

/// How many rows the table of xor has: a pair of bytes each.
pub const XOR_ROWS: u32 = 65_536;

/// How many rows the range table has: the numbers below 2^n, for n from 0 to 16.
pub const RANGE_ROWS: u32 = 131_071;

/// How many rows the table of SHA-256's constants has: a round each.
pub const SHA_ROWS: u32 = 64;

/// The tables whose rows are fixed, and that are told by the counts of their rows alone.
#[derive(Clone, Copy, Debug, PartialEq, Eq)]
pub enum CountList {
    Program,
    Xor,
    Range,
    ShaConst,
}

/// The place of a row in its table, counted from 0, and how often it is used.
#[derive(Clone, Copy, Debug, PartialEq, Eq)]
pub struct CountEntry {
    pub place: u32,
    pub count: u32,
}
