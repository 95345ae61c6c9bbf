//! Accesses of registers and of blocks, and their columns in the row of a record.

ghost use Rattle.std.specs.Prelude.{◌≡◌, ℕ, ◌+◌, ◌≤◌, length, slice_index};
ghost use Rattle.air_core.specs.Ring.{field};
ghost use Rattle.gadget_time.specs.Access.{access_at, block_touch, gap_by, gap_of, register_touch};

use crate::{Gap, Touch, gap_between};
use vm_field::{Fe, Limbs};
use vm_isa::{Access, AccessList, TimedAccess, space};

/// The access of the register of a number, `slot` after the row's time. One that keeps its word has the same old and new.
pub fn register_touch(count: Fe, slot: u16, number: Fe, old: Limbs, new: Limbs, gap: Gap) -> Touch
    ensures { result ≡ register_touch field count slot number old new gap }
{
    Touch {
        count,
        slot: Fe::of_u16(slot),
        space: Fe::of_u16(space::REGISTERS as u16),
        pointer: Fe::of_u16(4).mul(number),
        old,
        new,
        gap,
    }
}

/// The same where the word is read, and stays.
pub fn register_read(count: Fe, slot: u16, number: Fe, word: &Limbs, gap: Gap) -> Touch
    ensures { result ≡ register_touch field count slot number word.now word.now gap }
{
    register_touch(count, slot, number, *word, *word, gap)
}

/// The access of a block of a space, `slot` after the row's time.
pub fn block_touch(
    count: Fe,
    slot: u16,
    space: u8,
    pointer: Fe,
    old: Limbs,
    new: Limbs,
    gap: Gap,
) -> Touch
    ensures { result ≡ block_touch field count slot space pointer old new gap }
{
    Touch {
        count,
        slot: Fe::of_u16(slot),
        space: Fe::of_u16(space as u16),
        pointer,
        old,
        new,
        gap,
    }
}

/// The columns of an access's time.
pub fn gap_at(rest: &[Fe], at: usize) -> Gap
    requires { at + 3 ≤ length rest.now }
    ensures { result ≡ gap_by (slice_index rest.now) at }
{
    Gap {
        before: rest[at],
        lo: rest[at + 1],
        hi: rest[at + 2],
    }
}

/// What they are in the row of a record.
pub fn gap_of(access: &TimedAccess) -> Gap
    ensures { result ≡ gap_of access.now }
{
    gap_between(access.time, access.before)
}

/// The access at a place of a record, and one of zeros where there is none.
pub fn access_at(accesses: &AccessList, place: u32) -> TimedAccess
    ensures { result ≡ access_at accesses.now place }
{
    match accesses.at(place) {
        Some(access) => access,
        None => TimedAccess {
            access: Access {
                space: 0,
                pointer: 0,
                old: [0, 0, 0, 0],
                new: [0, 0, 0, 0],
            },
            time: 0,
            before: 0,
        },
    }
}
