//! Words as field elements and as halves, and the sums behind the last round.

ghost use Rattle.air_core.specs.Ring.{field};
ghost use Rattle.std.specs.Prelude.{◌≡◌, ◌≤◌, ◌+◌, ◌*◌, ◌++◌, length, map, slice_index};
ghost use Rattle.chip_sha_main.specs.Main.{word_field, word_halves, block_halves, carry_bits, sum_bits, words_by, halves_by};

use air_core::{bit, element};
use gadget_bits::{Halves, half_carry};
use gadget_limbs::put;
use vm_field::{Fe, Limbs};

/// A word as one element.
#[tactic(auto, unfolding(crate::specs::Main::word_field))]
pub fn word_field(w: &Limbs) -> Fe
    ensures { result ≡ word_field field w.now }
{
    let low = w.x0.add(Fe::of_u16(256).mul(w.x1));
    low.add(element(65536).mul(w.x2))
        .add(element(16_777_216).mul(w.x3))
}

/// The halves of a word whose lowest limb is `x0`.
#[tactic(auto, unfolding(crate::specs::Main::word_halves))]
fn word_halves(w: &Limbs) -> Halves
    ensures { result ≡ word_halves field w.now }
{
    Halves {
        lo: w.x0.add(Fe::of_u16(256).mul(w.x1)),
        hi: w.x2.add(Fe::of_u16(256).mul(w.x3)),
    }
}

/// The halves of a word of the block, whose highest limb is `x0`.
#[tactic(auto, unfolding(crate::specs::Main::block_halves))]
fn block_halves(w: &Limbs) -> Halves
    ensures { result ≡ block_halves field w.now }
{
    Halves {
        lo: w.x3.add(Fe::of_u16(256).mul(w.x2)),
        hi: w.x1.add(Fe::of_u16(256).mul(w.x0)),
    }
}

/// Both carries of one sum, which are 0 or 1.
#[tactic(auto, unfolding(crate::specs::Main::carry_bits))]
fn carry_bits(old: &Limbs, working: &Halves, new: &Limbs) -> [Fe; 2]
    ensures { result ≡ carry_bits field old.now working.now new.now }
{
    let x = word_halves(old);
    let y = word_halves(new);
    let low = half_carry(x.lo.add(working.lo), y.lo);
    let high = half_carry(x.hi.add(working.hi).add(low), y.hi);
    [bit(low), bit(high)]
}

/// The constraints of the eight sums.
#[tactic(auto, unfolding(vm_field::specs::Limbs::limbs_at))]
pub fn carries(rest: &[Fe]) -> [Fe; 16]
    requires { length rest.now ≡ 264 }
    ensures { result ≡ sum_bits field (words_by (slice_index rest.now) 74 8) (halves_by (slice_index rest.now) 138 8) (words_by (slice_index rest.now) 106 8) }
{
    let mut all = [Fe::ZERO; 16];
    for i in 0..8 {
        let old = Limbs::read(rest, 74 + 4 * i);
        let working = Halves::read(rest, 138 + 2 * i);
        let new = Limbs::read(rest, 106 + 4 * i);
        put(&mut all, 2 * i, &carry_bits(&old, &working, &new));
    }
    all
}

/// The words of the state as halves.
#[tactic(auto, unfolding(vm_field::specs::Limbs::limbs_at))]
fn state_halves(rest: &[Fe]) -> [Halves; 8]
    requires { length rest.now ≡ 264 }
    ensures { result ≡ map (word_halves field) (words_by (slice_index rest.now) 74 8) }
{
    let mut all = [Halves::ZERO; 8];
    for i in 0..8 {
        all[i] = word_halves(&Limbs::read(rest, 74 + 4 * i));
    }
    all
}

/// Those of the block.
#[tactic(auto, unfolding(vm_field::specs::Limbs::limbs_at))]
fn message_halves(rest: &[Fe]) -> [Halves; 16]
    requires { length rest.now ≡ 264 }
    ensures { result ≡ map (block_halves field) (words_by (slice_index rest.now) 10 16) }
{
    let mut all = [Halves::ZERO; 16];
    for i in 0..16 {
        all[i] = block_halves(&Limbs::read(rest, 10 + 4 * i));
    }
    all
}

/// Halves one after another.
fn halves_by<const N: usize>(rest: &[Fe], at: usize) -> [Halves; N]
    requires { at + 2 * N ≤ length rest.now }
    ensures { result ≡ halves_by (slice_index rest.now) at N }
{
    let mut all = [Halves::ZERO; N];
    for i in 0..N {
        all[i] = Halves::read(rest, at + 2 * i);
    }
    all
}

fn appended(state: &[Halves; 8], words: &[Halves; 16]) -> [Halves; 24]
    ensures { result ≡ state.now ++ words.now }
{
    let mut all = [Halves::ZERO; 24];
    for i in 0..8 {
        all[i] = state[i];
    }
    for j in 0..16 {
        all[8 + j] = words[j];
    }
    all
}

/// The words of the stage before the first round.
pub fn start_words(rest: &[Fe]) -> [Halves; 24]
    requires { length rest.now ≡ 264 }
    ensures { result ≡ map (word_halves field) (words_by (slice_index rest.now) 74 8) ++ map (block_halves field) (words_by (slice_index rest.now) 10 16) }
{
    appended(&state_halves(rest), &message_halves(rest))
}

/// Those of the stage behind the last round.
pub fn end_words(rest: &[Fe]) -> [Halves; 24]
    requires { length rest.now ≡ 264 }
    ensures { result ≡ halves_by (slice_index rest.now) 138 8 ++ halves_by (slice_index rest.now) 154 16 }
{
    let working = halves_by::<8>(rest, 138);
    let words = halves_by::<16>(rest, 154);
    appended(&working, &words)
}
