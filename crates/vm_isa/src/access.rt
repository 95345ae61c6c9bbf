//! One access to a block of four bytes.

/// A block, its word before the access and its word after.
#[derive(Clone, Copy, Debug, Default, PartialEq, Eq)]
pub struct Access {
    /// One of `space`.
    pub space: u8,
    pub pointer: u32,
    pub old: [u8; 4],
    pub new: [u8; 4],
}

/// An access at its time.
#[derive(Clone, Copy, Debug, Default, PartialEq, Eq)]
pub struct TimedAccess {
    pub access: Access,
    pub time: u32,
    /// The time of the previous access of the block in this segment, or 0.
    pub before: u32,
}
