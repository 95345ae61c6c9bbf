//! The accesses of a row.

ghost use Rattle.air_core.specs.Ring.{field};
ghost use Rattle.std.specs.Prelude.{◌≡◌, ◌≤◌, ◌<◌, ◌+◌, ◌*◌, ◌^◌, ◌++◌, length, take, slice_index};
ghost use Rattle.vm_field.specs.Field.{field_add};
ghost use Rattle.vm_field.specs.Limbs.{limbs_by};
ghost use Rattle.gadget_time.specs.Access.{gap_by};
ghost use Rattle.chip_sha_main.specs.Main.{main_row, main_touches};
ghost use Rattle.chip_sha_main.specs.Run.{run_in};

use crate::words::word_field;
use gadget_time::{Touch, gap_at, register_read};
use vm_field::{Fe, Limbs};
use vm_isa::space;

/// Accesses of words one after another: how many, the slot of the first, and the columns where their old words,
/// their new words and their times begin.
#[derive(Clone, Copy, Debug)]
pub struct Run {
    words: usize,
    slot: u16,
    old: usize,
    new: usize,
    gaps: usize,
}

/// The reads of the block, and the writes of the state.
const READS: Run = Run {
    words: 16,
    slot: 2,
    old: 10,
    new: 10,
    gaps: 192,
};

const WRITES: Run = Run {
    words: 8,
    slot: 18,
    old: 74,
    new: 106,
    gaps: 240,
};

/// One access of a run.
#[tactic(auto, unfolding(vm_field::specs::Limbs::limbs_at))]
fn run_touch(rest: &[Fe], run: &Run, count: Fe, base: Fe, i: usize) -> Touch
    requires low { (i < 64) × (run.now.slot < 64) }
    requires old { run.now.old + 4 * i + 4 ≤ length rest.now }
    requires new { run.now.new + 4 * i + 4 ≤ length rest.now }
    requires gaps { run.now.gaps + 3 * i + 3 ≤ length rest.now }
    ensures { result ≡ record {
      count = count;
      slot = run.now.slot + i;
      space = 2;
      pointer = field_add base (4 * i);
      old = limbs_by (slice_index rest.now) (run.now.old + 4 * i);
      new = limbs_by (slice_index rest.now) (run.now.new + 4 * i);
      gap = gap_by (slice_index rest.now) (run.now.gaps + 3 * i);
    } }
{
    Touch {
        count,
        slot: Fe::of_u16(run.slot + i as u16),
        space: Fe::of_u16(space::MEMORY as u16),
        pointer: base.add(Fe::of_u16(4 * i as u16)),
        old: Limbs::read(rest, run.old + 4 * i),
        new: Limbs::read(rest, run.new + 4 * i),
        gap: gap_at(rest, run.gaps + 3 * i),
    }
}

/// Writes the accesses of a run at their slots. What stands before stays.
fn put_run(rest: &[Fe], run: &Run, count: Fe, base: Fe, all: &mut [Touch; 26])
    requires wide { length rest.now ≡ 264 }
    requires slots { run.now.slot + run.now.words ≤ 26 }
    requires old { run.now.old + 4 * run.now.words ≤ 264 }
    requires new { run.now.new + 4 * run.now.words ≤ 264 }
    requires gaps { run.now.gaps + 3 * run.now.words ≤ 264 }
    ensures long { length all.new ≡ 26 }
    ensures front { take (run.now.slot + run.now.words) all.new ≡ take run.now.slot all.old ++ run_in (slice_index rest.now) run.now count base }
{
    for i in 0..run.words {
        all[run.slot as usize + i] = run_touch(rest, run, count, base, i);
    }
}

/// All accesses of a row.
pub fn touches(valid: Fe, rest: &[Fe]) -> [Touch; 26]
    requires { length rest.now ≡ 264 }
    ensures { result ≡ main_touches field (main_row 0 0 valid (slice_index rest.now)) }
{
    let base = Limbs::read(rest, 2);
    let block = Limbs::read(rest, 6);
    let first = register_read(valid, 0, rest[0], &base, gap_at(rest, 186));
    let second = register_read(valid, 1, rest[1], &block, gap_at(rest, 189));
    let mut all = [first; 26];
    all[1] = second;
    put_run(rest, &READS, valid, word_field(&block), &mut all);
    put_run(rest, &WRITES, valid, word_field(&base), &mut all);
    all
}
