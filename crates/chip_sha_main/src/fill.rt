//! The columns of a record of a SHA block.

ghost use Rattle.std.specs.Prelude.{◌≡◌, ◌≤◌, ◌<◌, ◌+◌, ◌*◌, ◌++◌, length, flat_map, map, take, drop};
ghost use Rattle.vm_field.specs.Limbs.{limbs_from, list_of};
ghost use Rattle.vm_word.specs.Word.{limbs_of};
ghost use Rattle.gadget_time.specs.Access.{gap_cells, gap_of};
ghost use Rattle.gadget_bits.specs.Bits.{halves_filled};
ghost use Rattle.gadget_bits.specs.Record.{olds_of};
ghost use Rattle.gadget_bits.specs.Stage.{halves_cells};
ghost use Rattle.chip_sha_main.specs.Sheet.{main_columns, main_filled, cells_of_main};

use gadget_bits::{block, halves_of, old_word, rounds_to, state};
use gadget_limbs::put;
use gadget_time::{access_at, gap_of};
use sha_words::{compress, schedule};
use vm_field::{Fe, Limbs};
use vm_isa::StepRecord;
use vm_word::limbs;

/// Writes the words before accesses that follow one another.
fn put_olds(rest: &mut [Fe], at: usize, done: &StepRecord, from: usize, count: usize)
    requires accesses { length done.now.accesses ≡ 26 }
    requires few { from + count ≤ 26 }
    requires wide { at + 4 * count ≤ length rest.old }
    ensures long { length rest.new ≡ length rest.old }
    ensures front { take (at + 4 * count) rest.new ≡ take at rest.old ++ flat_map list_of (map limbs_from (take count (drop from (olds_of done.now)))) }
{
    for i in 0..count {
        let word = old_word(done, (from + i) as u32);
        put(rest, at + 4 * i, &Limbs::of_bytes(&word).array());
    }
}

/// Writes words by their limbs.
fn put_words(rest: &mut [Fe], at: usize, words: &[u32])
    requires wide { at + 4 * length words.now ≤ length rest.old }
    ensures long { length rest.new ≡ length rest.old }
    ensures front { take (at + 4 * length words.now) rest.new ≡ take at rest.old ++ flat_map list_of (map (λ n. limbs_from (limbs_of n)) words.now) }
{
    for i in 0..words.len() {
        put(rest, at + 4 * i, &Limbs::of_bytes(&limbs(words[i])).array());
    }
}

/// Writes words by their halves.
fn put_halves(rest: &mut [Fe], at: usize, words: &[u32])
    requires wide { at + 2 * length words.now ≤ length rest.old }
    ensures long { length rest.new ≡ length rest.old }
    ensures front { take (at + 2 * length words.now) rest.new ≡ take at rest.old ++ halves_cells (map halves_filled words.now) }
{
    for i in 0..words.len() {
        let halves = halves_of(words[i]);
        put(rest, at + 2 * i, &[halves.lo, halves.hi]);
    }
}

/// Writes the times of accesses that follow one another.
fn put_gaps(rest: &mut [Fe], at: usize, done: &StepRecord, from: usize, count: usize)
    requires accesses { length done.now.accesses ≡ 26 }
    requires few { from + count ≤ 26 }
    requires wide { at + 3 * count ≤ length rest.old }
    ensures long { length rest.new ≡ length rest.old }
    ensures front { take (at + 3 * count) rest.new ≡ take at rest.old ++ flat_map gap_cells (map gap_of (take count (drop from done.now.accesses))) }
{
    for i in 0..count {
        let gap = gap_of(&access_at(&done.accesses, (from + i) as u32));
        put(rest, at + 3 * i, &[gap.before, gap.lo, gap.hi]);
    }
}

/// Writes the columns behind the flag, of a record with the accesses of a SHA block.
fn fill_block(done: &StepRecord, rest: &mut [Fe])
    requires accesses { length done.now.accesses ≡ 26 }
    requires wide { length rest.old ≡ 264 }
    ensures { rest.new ≡ cells_of_main (main_columns done.now) }
{
    let (before, message) = (state(done), block(done));
    let words = schedule(&message);
    let last = rounds_to(before, &words, 64);
    let i = done.instr;
    put(
        rest,
        0,
        &[Fe::of_u16(i.rd as u16), Fe::of_u16(i.rs1 as u16)],
    );
    put_olds(rest, 2, done, 0, 2);
    put_olds(rest, 10, done, 2, 16);
    put_olds(rest, 74, done, 18, 8);
    put_words(rest, 106, &compress(before, &message));
    put_halves(rest, 138, &last);
    put_halves(rest, 154, &words[64..80]);
    put_gaps(rest, 186, done, 0, 2);
    put_gaps(rest, 192, done, 2, 16);
    put_gaps(rest, 240, done, 18, 8);
}

/// Writes the columns behind the flag.
pub fn fill(done: &StepRecord, rest: &mut [Fe])
    requires { length rest.old ≡ 264 }
    ensures { rest.new ≡ main_filled done.now }
{
    if done.accesses.len() == 26 {
        fill_block(done, rest);
    } else {
        rest.fill(Fe::ZERO);
    }
}
