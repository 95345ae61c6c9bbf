// A block that a step reaches.

/// The block of an access, its slot in the step, and the place of its page among the kept pages.
#[derive(Clone, Copy)]
pub struct Reached {
    pub slot: u32,
    pub space: u8,
    pub pointer: u32,
    pub page: usize,
}
