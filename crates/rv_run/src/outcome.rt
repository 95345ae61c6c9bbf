// How a step and a run come out.

/// Why a step can't be done. Where several stand together, the first of this list is told.
#[derive(Clone, Copy, Debug, PartialEq, Eq)]
pub enum Cause {
    /// No text word stands at the pc.
    NotText,
    /// The text word isn't listed.
    Undecoded,
    /// A jump or a taken branch leads to an address that isn't a multiple of 4.
    MisalignedTarget,
    /// The address of a load or a store isn't a multiple of its width; that of a hint store, or one
    /// of a SHA block, isn't a multiple of 4.
    Misaligned,
    /// Such an address, or the end of a SHA block, is beyond 2^29.
    OutOfRange,
    /// A hint store finds fewer than four hint bytes.
    HintsEnd,
    /// A reveal's place isn't a multiple of 4 below 64.
    PublicIndex,
}

/// A step that can't be done, at this pc.
#[derive(Clone, Copy, Debug, PartialEq, Eq)]
pub struct Trap {
    pub cause: Cause,
    pub pc: u32,
}

/// What a step came to.
#[derive(Clone, Copy, Debug, PartialEq, Eq)]
pub enum Stepped {
    Went,
    /// A terminate with this exit code.
    Ended(u8),
    Trapped(Trap),
}

/// How a run came out. Steps are completed steps.
#[derive(Clone, Copy, Debug, PartialEq, Eq)]
pub enum RunEnd {
    Ended {
        steps: u64,
        code: u8,
        public: [u8; 64],
    },
    /// One step more than the limit went on.
    StepLimit,
    Trapped {
        steps: u64,
        trap: Trap,
    },
}
