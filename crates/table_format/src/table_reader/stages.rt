//! Where an item leads.
ghost use Rattle.std.specs.Prelude.{◌≡◌, ◌≤◌, ◌<◌, ◌^◌, ◌↔◌, IsTrue, length};
ghost use Rattle.vm_trace.specs.Canonical.{height_of};
ghost use Rattle.vm_trace.specs.Limits.{limits_of};
ghost use Rattle.table_format.specs.Reader.{Fits, rows_from, behind_row, behind_heights, behind_mark, siblings_left, list_rows};
ghost use Rattle.table_format.specs.declared.stage.Stage.TheVariants.{Done};

use crate::stage::Stage;
use vm_trace::{CountList, RANGE_ROWS, SHA_ROWS, XOR_ROWS};

/// The greatest code of a height in files of this version.
pub fn greatest_code(version: u32) -> u8
    ensures { result ≡ (limits_of version).greatest_code }
{
    if version == 1 { 21 } else { 25 }
}

/// The number of rows that a code stands for.
pub fn height_of(code: u8) -> u32
    requires { code ≤ 31 }
    ensures { result ≡ height_of code }
{
    if code == 0 { 0 } else { 1 << (code - 1) }
}

pub(super) fn is_done(stage: Stage) -> bool
    ensures { IsTrue result ↔ (stage ≡ Done) }
{
    match stage {
        Stage::Done => true,
        _ => false,
    }
}

pub(super) fn behind_mark(more: bool) -> Stage
    ensures { result ≡ behind_mark more }
{
    if more { Stage::Segment } else { Stage::Claim }
}

pub(super) fn siblings_left(left: u32) -> Stage
    ensures { result ≡ siblings_left left }
{
    if left > 0 {
        Stage::Sibling { left }
    } else {
        Stage::Marker
    }
}

// The first row from this table on, or what stands behind the rows.
fn rows_from(heights: &[u32], table: u32) -> Stage
    requires { length heights.now < 2 ^ 32 }
    ensures first { result ≡ rows_from heights.now table }
    ensures fits { Fits result (length heights.now) (length heights.now) }
{
    let mut at = table as usize;
    'tables: while at < heights.len() {
        if heights[at] > 0 {
            return Stage::Row {
                table: at as u32,
                left: heights[at],
            };
        }
        at += 1;
    }
    Stage::Counts
}

// What stands behind a row of a table that has so many left.
pub(super) fn behind_row(heights: &[u32], table: u32, left: u32) -> Stage
    requires few { length heights.now < 2 ^ 32 }
    requires within { table < length heights.now }
    ensures next { result ≡ behind_row heights.now table left }
    ensures fits { Fits result (length heights.now) (length heights.now) }
{
    if left > 1 {
        Stage::Row {
            table,
            left: left - 1,
        }
    } else {
        rows_from(heights, table + 1)
    }
}

// The height that comes next, or what stands behind the heights of all tables.
pub(super) fn behind_heights(tables: usize, heights: &[u32]) -> Stage
    requires few { tables < 2 ^ 32 }
    requires within { length heights.now ≤ tables }
    ensures next { result ≡ behind_heights tables heights.now }
    ensures fits { Fits result (length heights.now) tables }
{
    if heights.len() < tables {
        Stage::Height {
            table: heights.len() as u32,
        }
    } else {
        rows_from(heights, 0)
    }
}

// How many rows the table of a list has.
pub(super) fn list_rows(program_len: u32, list: CountList) -> u32
    ensures { result ≡ list_rows program_len list }
{
    match list {
        CountList::Program => program_len,
        CountList::Xor => XOR_ROWS,
        CountList::Range => RANGE_ROWS,
        CountList::ShaConst => SHA_ROWS,
    }
}
