//! What stands next in a file.

use vm_trace::CountList;

/// What stands next, by what was read before it.
#[derive(Clone, Copy, Debug, PartialEq, Eq)]
pub enum Stage {
    /// The form's name and the version, before the first mark.
    Head,
    Marker,
    Segment,
    /// The height of the table behind those whose heights were read.
    Height {
        table: u32,
    },
    /// So many rows of a table, at least one, and what is behind them.
    Row {
        table: u32,
        left: u32,
    },
    /// The count lists, of which nothing was read.
    Counts,
    /// So many entries of a list, with places from `least` on, and what is behind them.
    Entry {
        list: CountList,
        left: u32,
        least: u32,
    },
    /// So many pages, and what is behind them.
    Page {
        left: u32,
    },
    /// So many siblings, at least one.
    Sibling {
        left: u32,
    },
    Claim,
    End,
    /// The end was given.
    Done,
}
