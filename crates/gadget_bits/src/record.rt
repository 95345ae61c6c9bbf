//! The state and the block of a record of a SHA block, and its rounds.

ghost use Rattle.std.specs.Prelude.{◌≡◌, ◌<◌, ◌≤◌, ◌+◌, ◌++◌, [], length, take};
ghost use Rattle.std.specs.List.{slice_index_or};
ghost use Rattle.sha_words.specs.Sha256.{rounds};
ghost use Rattle.gadget_bits.specs.Record.{olds_of, state_of, block_of};

use sha_words::{ROUND_CONSTANTS, round};
use vm_isa::StepRecord;
use vm_word::of_limbs;

/// The word before an access.
pub fn old_word(done: &StepRecord, place: u32) -> [u8; 4]
    requires { place < length done.now.accesses }
    ensures { result ≡ slice_index_or (olds_of done.now) place [] }
{
    match done.accesses.at(place) {
        Some(access) => access.access.old,
        None => unreachable!(),
    }
}

/// The words of accesses 18 to 25.
pub fn state(done: &StepRecord) -> [u32; 8]
    requires { length done.now.accesses ≡ 26 }
    ensures { result ≡ state_of done.now }
{
    let mut state = [0; 8];
    for j in 0..8 {
        state[j] = of_limbs(old_word(done, 18 + j as u32));
    }
    state
}

/// Writes bytes at a place. What stands before stays.
fn put_bytes(block: &mut [u8; 64], at: usize, bytes: &[u8; 4])
    requires { at + 4 ≤ 64 }
    ensures long { length block.new ≡ 64 }
    ensures front { take (at + 4) block.new ≡ take at block.old ++ bytes.now }
{
    block[at..at + 4].copy_from_slice(bytes);
}

/// The bytes of accesses 2 to 17.
pub fn block(done: &StepRecord) -> [u8; 64]
    requires { length done.now.accesses ≡ 26 }
    ensures { result ≡ block_of done.now }
{
    let mut block = [0; 64];
    for j in 0..16 {
        let word = old_word(done, 2 + j as u32);
        put_bytes(&mut block, 4 * j, &word);
    }
    block
}

/// The working variables behind some rounds.
pub fn rounds_to(state: [u32; 8], words: &[u32; 80], count: usize) -> [u32; 8]
    requires { count ≤ 64 }
    ensures { result ≡ rounds state words.now count }
{
    let mut working = state;
    for t in 0..count {
        let next = round(working, ROUND_CONSTANTS[t], words[t]);
        working = next;
    }
    working
}
