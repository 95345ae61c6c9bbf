//! The buses, by their numbers.

/// A step receives (pc, time) and sends (next pc, time + slots).
pub const EXECUTION: u8 = 0;

/// A step looks up its instruction: the twelve numbers of its program row.
pub const PROGRAM: u8 = 1;

/// An access receives (space, pointer, old word, old time) and sends (space, pointer, new word, time).
pub const MEMORY: u8 = 2;

/// Two bytes and their xor.
pub const XOR: u8 = 3;

/// A number below a power of two, and the exponent.
pub const RANGE: u8 = 4;

/// A round of SHA-256, and the halves of its constant.
pub const SHA_CONSTANTS: u8 = 5;

/// From here on a bus belongs to the tables of one extension.
pub const FIRST_PRIVATE: u8 = 6;
