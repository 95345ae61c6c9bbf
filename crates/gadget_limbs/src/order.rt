//! The columns of LT that two numbers fill.

ghost use Rattle.std.specs.Prelude.{◌≡◌, ◌+◌, ◌-◌, ◌*◌, ◌%◌, ◌<◌, ◌≤◌, ◌++◌, [], ◌∷◌, length, take, slice_index, nat_lt, nat_eq, if◌then◌else◌};
ghost use Rattle.std.specs.Int.{from_bool};
ghost use Rattle.gadget_limbs.specs.Less.{digits_by, mark, apart, marks_of, distance_of, below_of, less_cells, less_filled};

use crate::less::with_top;
use crate::put;
use air_core::element;
use vm_field::Fe;

/// 128 where numbers are signed.
fn half(signed: bool) -> u32
    ensures { result ≡ 128 * from_bool signed }
{
    if signed { 128 } else { 0 }
}

/// The top limb of a number, whose sign bit is turned where numbers are signed.
fn turned_top<const N: usize>(signed: bool, limbs: &[Fe; N]) -> Fe
    requires { 1 ≤ N }
    ensures { result ≡ (slice_index limbs.now (N - 1) + 128 * from_bool signed) % 256 }
{
    element((limbs[N - 1].value() + half(signed)) % 256)
}

/// 1 at the highest limb at which two numbers differ, where so many are marked above.
#[tactic(auto, unfolding(crate::specs::Less::mark))]
fn mark(above: usize, x: Fe, y: Fe) -> u16
    ensures is { result ≡ mark above x y }
    ensures low { result ≤ 1 }
{
    if above == 0 && x != y { 1 } else { 0 }
}

/// By how much two limbs differ, less 1.
#[tactic(auto, unfolding(crate::specs::Less::apart))]
fn apart(x: Fe, y: Fe) -> Fe
    ensures { result ≡ apart x y }
{
    let (x, y) = (x.value(), y.value());
    if x < y {
        element(y - x - 1)
    } else {
        element((x - y).saturating_sub(1))
    }
}

fn is_below(x: Fe, y: Fe) -> Fe
    ensures { result ≡ from_bool (nat_lt x y) }
{
    if x.value() < y.value() {
        Fe::ONE
    } else {
        Fe::ZERO
    }
}

/// What stands here where no limb above is marked, and else what was found there.
fn highest(above: usize, here: Fe, found: Fe) -> Fe
    ensures { result ≡ if nat_eq above 0 then here else found }
{
    if above == 0 { here } else { found }
}

/// What the marked limbs say.
#[derive(Clone, Copy, Debug)]
struct Marked {
    distance: Fe,
    below: Fe,
}

/// Marks the highest limb at which two numbers differ.
fn mark_highest<const N: usize>(left: &[Fe; N], right: &[Fe; N], marks: &mut [Fe; N]) -> Marked
    ensures marks { marks.new ≡ marks_of left.now right.now }
    ensures distance { result.distance ≡ distance_of left.now right.now }
    ensures below { result.below ≡ below_of left.now right.now }
{
    let mut above = 0;
    let mut distance = Fe::ZERO;
    let mut below = Fe::ZERO;
    for done in 0..N {
        let i = N - 1 - done;
        let (x, y) = (left[i], right[i]);
        let mark = mark(above, x, y);
        marks[i] = Fe::of_u16(mark);
        distance = highest(above, apart(x, y), distance);
        below = highest(above, is_below(x, y), below);
        above += mark as usize;
    }
    Marked { distance, below }
}

/// Writes the columns of LT that two numbers fill, signed ones or not.
#[tactic(auto, unfolding(crate::specs::Less::less_filled))]
pub fn fill_less<const N: usize>(signed: bool, left: &[Fe; N], right: &[Fe; N], columns: &mut [Fe])
    requires some { 1 ≤ N }
    requires few { N ≤ 64 }
    requires wide { length columns.old ≡ N + 4 }
    ensures { columns.new ≡ less_cells (less_filled (from_bool signed) (digits_by (N - 1) left.now) (digits_by (N - 1) right.now)) }
{
    let half = element(half(signed));
    let (left_top, right_top) = (turned_top(signed, left), turned_top(signed, right));
    let (left, right) = (with_top(left, left_top), with_top(right, right_top));
    let mut marks = [Fe::ZERO; N];
    let marked = mark_highest(&left, &right, &mut marks);
    put(columns, 0, &[left_top.sub(half), right_top.sub(half)]);
    put(columns, 2, &marks);
    put(columns, N + 2, &[marked.distance, marked.below]);
}
