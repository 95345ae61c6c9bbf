//! What a prover answers.
use rv_run::Trap;

/// What a file states that was written.
#[derive(Clone, Copy, Debug, PartialEq, Eq)]
pub struct Proved {
    /// The exit code of the run.
    pub code: u8,
    /// The bytes that it makes public.
    pub public: [u8; 64],
    /// In how many segments it is cut.
    pub segments: u32,
    /// How many steps it has.
    pub steps: u64,
}

/// What a run comes to.
#[derive(Clone, Copy, Debug, PartialEq, Eq)]
pub enum Proving {
    /// It ends, and its file was written.
    Proved(Proved),
    Trapped(Trap),
    /// Some of its steps have more than 4,096 segments.
    TooManySegments,
}
