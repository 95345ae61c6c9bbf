//! LT: which of two numbers is below the other, by their limbs.

ghost use Rattle.std.specs.Prelude.{◌≡◌, ◌+◌, ◌-◌, ◌*◌, ◌%◌, ◌^◌, ◌<◌, ◌≤◌, ◌++◌, [], ◌∷◌, length, take, slice_index, nat_lt, if◌then◌else◌, ◌==◌, Some};
ghost use Rattle.std.specs.Int.{from_bool};
ghost use Rattle.vm_field.specs.Field.{field_add, field_sub, field_mul};
ghost use Rattle.air_core.specs.Ring.{field};
ghost use Rattle.air_core.specs.First.{first_from};
ghost use Rattle.gadget_limbs.specs.Less.{digits_by, less_columns, less_constraints, less_ranges, top_constraint, marks_sum, equal_above, marked_differs, differences};

use air_core::{bit, bits_broken, first, first_nonzero};
use vm_field::Fe;

/// (x - top) * (256 - x + top)
#[tactic(auto, unfolding(crate::specs::Less::top_constraint))]
fn top_constraint(x: Fe, top: Fe) -> Fe
    ensures { result ≡ top_constraint field x top }
{
    x.sub(top).mul(Fe::of_u16(256).sub(x).add(top))
}

/// mark * (distance + 1 - (2 * less - 1) * difference)
fn marked_differs(mark: Fe, distance: Fe, less: Fe, difference: Fe) -> Fe
    ensures { result ≡ field_mul mark (field_sub (field_add distance 1) (field_mul (field_sub (field_mul 2 less) 1) difference)) }
{
    let sign = Fe::of_u16(2).mul(less).sub(Fe::ONE);
    mark.mul(distance.add(Fe::ONE).sub(sign.mul(difference)))
}

/// The place of a value that isn't 0, or else what was found behind it.
fn earlier(place: u32, value: Fe, later: Option<u32>) -> Option<u32>
    ensures { result ≡ if value == 0 then later else Some place }
{
    if value == Fe::ZERO {
        later
    } else {
        Some(place)
    }
}

/// The sum of the marks, and the first broken constraint of each kind.
#[derive(Clone, Copy, Debug)]
struct MarksBroken {
    sum: Fe,
    above: Option<u32>,
    marked: Option<u32>,
}

/// The limbs are taken from the top down: at each the marks from there up are summed.
fn marks_broken<const N: usize>(
    above_from: u32,
    marked_from: u32,
    marks: &[Fe],
    left: &[Fe; N],
    right: &[Fe; N],
    distance: Fe,
    less: Fe,
) -> MarksBroken
    requires few { N ≤ 64 }
    requires above_low { above_from < 2 ^ 31 }
    requires marked_low { marked_from < 2 ^ 31 }
    requires long { length marks.now ≡ N }
    ensures sum { result.sum ≡ marks_sum field marks.now }
    ensures above { result.above ≡ first_from above_from (equal_above field marks.now (differences field left.now right.now)) }
    ensures marked { result.marked ≡ first_from marked_from (marked_differs field distance less marks.now (differences field left.now right.now)) }
{
    let mut sum = Fe::ZERO;
    let mut above = None;
    let mut marked = None;
    for done in 0..N {
        let i = N - 1 - done;
        let difference = right[i].sub(left[i]);
        let mark = marks[i];
        sum = mark.add(sum);
        let equal = Fe::ONE.sub(sum).mul(difference);
        above = earlier(above_from + i as u32, equal, above);
        let differs = marked_differs(mark, distance, less, difference);
        marked = earlier(marked_from + i as u32, differs, marked);
    }
    MarksBroken { sum, above, marked }
}

/// A number with another top limb.
pub fn with_top<const N: usize>(limbs: &[Fe; N], top: Fe) -> [Fe; N]
    requires { 1 ≤ N }
    ensures { result ≡ take (N - 1) limbs.now ++ (top ∷ []) }
{
    let mut moved = *limbs;
    moved[N - 1] = top;
    moved
}

/// The place of the first broken constraint of LT, where the first stands at the place `from`. The columns
/// are the two top limbs, a mark for each limb, the distance and the answer.
pub fn less_broken<const N: usize>(
    from: u32,
    left: &[Fe; N],
    right: &[Fe; N],
    columns: &[Fe],
) -> Option<u32>
    requires some { 1 ≤ N }
    requires few { N ≤ 64 }
    requires from { from < 2 ^ 30 }
    requires wide { length columns.now ≡ N + 4 }
    ensures { result ≡ first_from from (less_constraints field (digits_by (N - 1) left.now) (digits_by (N - 1) right.now) (less_columns N 0 (slice_index columns.now))) }
{
    let limbs = N as u32;
    let marks = &columns[2..N + 2];
    let less = columns[N + 3];
    let left_top = top_constraint(left[N - 1], columns[0]);
    let right_top = top_constraint(right[N - 1], columns[1]);
    let tops = first_nonzero(from, &[left_top, right_top]);
    let bits = bits_broken(from + 2, marks);
    let broken = marks_broken(
        from + limbs + 5,
        from + 2 * limbs + 5,
        marks,
        &with_top(left, columns[0]),
        &with_top(right, columns[1]),
        columns[N + 2],
        less,
    );
    let unmarked = less.mul(Fe::ONE.sub(broken.sum));
    let answers = first_nonzero(from + limbs + 2, &[bit(broken.sum), bit(less), unmarked]);
    let differ = first(broken.above, broken.marked);
    first(tops, first(bits, first(answers, differ)))
}

/// What is looked up with 8 bits, where `signed` is 1 for signed numbers.
#[tactic(auto, unfolding(crate::specs::Less::less_ranges))]
pub fn less_ranges<const N: usize>(signed: Fe, columns: &[Fe]) -> [Fe; 3]
    requires few { N ≤ 64 }
    requires wide { length columns.now ≡ N + 4 }
    ensures { result ≡ less_ranges field signed (less_columns N 0 (slice_index columns.now)) }
{
    let half = Fe::of_u16(128).mul(signed);
    [columns[0].add(half), columns[1].add(half), columns[N + 2]]
}
