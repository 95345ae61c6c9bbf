//! Pages of memory, and the digests that stand for parts of it.

/// How many pages a space has: the labels of a space are this many, from its number times it on.
pub const SPACE_PAGES: u32 = 1 << 23;

/// The label of the first page of registers. The second page is the one behind it.
pub const REGISTER_LABEL: u32 = 8_388_608;

/// The label of the first page of memory.
pub const MEMORY_LABEL: u32 = 16_777_216;

/// The label of the page of public bytes. It is the one behind the last page of memory.
pub const PUBLIC_LABEL: u32 = 25_165_824;

/// A SHA-256 digest.
pub type Digest = [u8; 32];

/// A page of 64 bytes in which a block was accessed.
#[derive(Clone, Copy, Debug, PartialEq, Eq)]
pub struct Touched {
    /// Its space times 2^23, plus its number in that space.
    pub label: u32,
    /// Its bytes before the first access.
    pub old: [u8; 64],
    /// Its bytes after the last one.
    pub new: [u8; 64],
    /// The time of the last access of each block of four bytes, and 0 where there is none.
    pub times: [u32; 16],
}
