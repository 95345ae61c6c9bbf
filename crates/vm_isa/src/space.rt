//! The spaces of the machine's memory.

/// Register `r` is the block at `4 * r`.
pub const REGISTERS: u8 = 1;

/// The bytes below 2^29.
pub const MEMORY: u8 = 2;

/// The 64 public bytes.
pub const PUBLIC: u8 = 3;
