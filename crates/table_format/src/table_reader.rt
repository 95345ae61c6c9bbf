//! A reader that gives the items of a file one by one.
ghost use Rattle.std.specs.Prelude.{◌<◌, ◌^◌, length};
ghost use Rattle.table_format.specs.Reader.{Fits};

mod calls;
mod stages;

use crate::stage::Stage;
use crate::{Reason, Stream};
use readings::Stop;
use vm_field::Fe;

/// What a file is read against: how many columns each table has, and how many rows the program.
#[derive(Drop)]
pub struct Shape {
    pub widths: Vec<u32>,
    pub program_len: u32,
}

/// A reader of a table file, which the host has open as its second input.
///
/// It gives the items in the order of the file, or the reason of the first test that fails. The tests are the form's
/// own; what a checker asks more it tests itself. After an error the reader answers that error from then on.
#[derive(Drop)]
pub struct TableReader {
    /// The bytes behind the items given so far. Whoever takes a segment's items from it says so by `segment_taken`.
    pub stream: Stream,
    version: u32,
    shape: Shape,
    stage: Stage,
    segments: u32,
    heights: Vec<u32>,
    row: Vec<Fe>,
    error: Option<Stop<Reason>>,
    ghost few: { length shape.widths.items < 2 ^ 32 },
    ghost fits: { Fits stage (length heights.items) (length shape.widths.items) },
}
