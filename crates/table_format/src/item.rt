//! What the items of a file say.

use vm_trace::{CountEntry, CountList, Digest, Touched};

/// Where a segment of the run begins and ends.
#[derive(Clone, Copy, Debug, PartialEq, Eq)]
pub struct Connector {
    pub pc_start: u32,
    pub pc_end: u32,
    /// The time behind the last step. Times begin at 1.
    pub end_time: u32,
    /// No segment follows.
    pub ends: bool,
}

/// What stands first in a segment: where it begins and ends, and the roots of the tree of pages there.
#[derive(Clone, Copy, Debug, PartialEq, Eq)]
pub struct Bounds {
    pub connector: Connector,
    pub start: Digest,
    pub end: Digest,
}

/// What the whole file claims: the exit code, the public bytes, and the path from them to the last root.
#[derive(Clone, Copy, Debug, PartialEq, Eq)]
pub struct Claim {
    pub code: u8,
    pub public: [u8; 64],
    pub path: [Digest; 25],
}

/// What a reader gives, in the order of the file.
#[derive(Clone, Copy, Debug, PartialEq, Eq)]
pub enum Item {
    /// Whether a segment follows, or the claim.
    Marker {
        more: bool,
    },
    Segment {
        connector: Connector,
        start: Digest,
        end: Digest,
    },
    /// How many rows a table has.
    Height {
        table: u32,
        height: u32,
    },
    /// The reader has the row's values.
    Row {
        table: u32,
        place: u32,
    },
    Count {
        list: CountList,
        entry: CountEntry,
    },
    Page(Touched),
    SiblingCount(u32),
    Sibling(Digest),
    Claim(Claim),
    /// Nothing follows.
    End,
}
