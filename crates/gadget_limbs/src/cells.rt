//! Columns written part behind part.

ghost use Rattle.std.specs.Prelude.{◌≡◌, ◌+◌, ◌≤◌, ◌++◌, length, take};

use vm_field::Fe;

/// Writes cells at a place.
pub fn put(columns: &mut [Fe], at: usize, cells: &[Fe])
    requires { at + length cells.now ≤ length columns.old }
    ensures long { length columns.new ≡ length columns.old }
    ensures so_far { take (at + length cells.now) columns.new ≡ take at columns.old ++ cells.now }
{
    columns[at..at + cells.len()].copy_from_slice(cells);
}
