//! How a run ends, and its segments.

/// A run that ends.
#[derive(Debug, Drop)]
pub struct Ending {
    /// The exit code.
    pub code: u8,
    /// The bytes that it makes public.
    pub public: [u8; 64],
    pub steps: u64,
    /// How many steps each segment has.
    pub lengths: Vec<u32>,
}
