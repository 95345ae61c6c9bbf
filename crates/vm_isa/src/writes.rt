//! The words that the accesses of an instruction leave.

ghost use Rattle.std.specs.Prelude.{◌≡◌, ◌≤◌, ◌<◌, ◌↔◌, length, slice_index, slice_index_or, slice_get, map, List, [], Some, take, drop, IsTrue};
ghost use Rattle.std.specs.List.{concat};
ghost use Rattle.vm_word.specs.Word.{word_of_limbs};
ghost use Rattle.vm_isa.specs.Means.{HasNew, Meaning, compressed as compressed_of, in_block, means_of, new_at, next_access_of, operand, slot_at, word_at};

use crate::VmInstr;
use crate::meaning::{NextAccess, address, immediate, word_at};
use crate::opcode::*;
use crate::results::{loaded, result, stored};
use sha_words::compress;
use vm_word::{limbs, of_limbs};

/// The new word of access `number`, from the old words of all accesses. `given` is the word of the
/// host, the new word of HINT.
#[tactic(auto, using(crate::proofs::NewLaws::done_new, crate::proofs::NewLaws::slot_small))]
pub fn new_word(instr: &VmInstr, old: &[[u8; 4]], number: u32, given: [u8; 4]) -> [u8; 4]
    requires whole { next_access_of instr.now old.now ≡ NextAccess.Done }
    requires within { number < length old.now }
    ensures { (m : Meaning) × (means_of instr.now old.now given ≡ Some m) × HasNew m number result }
{
    new_at(
        instr,
        old,
        given,
        slot_of(instr, number),
        old[number as usize],
    )
}

// The slot of an access: an immediate takes no access, but leaves its slot.
#[tactic(auto, unfolding(crate::specs::Means::slot_at))]
fn slot_of(instr: &VmInstr, number: u32) -> u32
    ensures { result ≡ slot_at instr.now number }
{
    match instr.op {
        ADD..=SRA | MUL..=REMU if instr.use_imm && number == 1 => 2,
        _ => number,
    }
}

fn operand(instr: &VmInstr, second: u32) -> u32
    ensures { result ≡ operand instr.now second }
{
    if instr.use_imm {
        immediate(instr)
    } else {
        second
    }
}

// The place of the byte at A in its block.
fn in_block(instr: &VmInstr, old: &[[u8; 4]]) -> usize
    ensures { result ≡ in_block instr.now (word_at old.now 0) }
{
    (address(instr, word_at(old, 0)) % 4) as usize
}

#[tactic(auto, using(crate::proofs::NewLaws::second_moved, crate::proofs::NewLaws::second_revealed, crate::proofs::NewLaws::in_one_block, crate::proofs::NewLaws::sha_known), unfolding(crate::specs::Means::new_at))]
fn new_at(instr: &VmInstr, old: &[[u8; 4]], given: [u8; 4], slot: u32, block: [u8; 4]) -> [u8; 4]
    requires whole { next_access_of instr.now old.now ≡ NextAccess.Done }
    requires within { slot < 26 }
    ensures { result ≡ new_at instr.now old.now given slot block }
{
    let op = instr.op;
    match op {
        ADD..=SRA | MUL..=REMU if slot == 2 => limbs(result(
            op,
            word_at(old, 0),
            operand(instr, word_at(old, 1)),
        )),
        LB..=LHU if slot == 2 => limbs(loaded(op, old[1], in_block(instr, old))),
        SB..=SW if slot == 2 => stored(op, block, in_block(instr, old), old[1]),
        JAL if slot == 0 => limbs(instr.pc.wrapping_add(4)),
        LUI if slot == 0 => instr.imm,
        JALR if slot == 1 => limbs(instr.pc.wrapping_add(4)),
        AUIPC if slot == 0 => limbs(instr.pc.wrapping_add(immediate(instr))),
        HINT if slot == 1 => given,
        REVEAL if slot == 2 => old[1],
        SHA if slot >= 18 => limbs(compressed(old)[(slot - 18) as usize]),
        _ => block,
    }
}

// The state that a SHA block leaves.
#[tactic(auto, using(crate::proofs::NewLaws::state_words), unfolding(crate::specs::Means::compressed))]
fn compressed(old: &[[u8; 4]]) -> [u32; 8]
    requires { length old.now ≡ 26 }
    ensures { result ≡ compressed_of old.now }
{
    let mut state = [0; 8];
    for j in 0..8 {
        state[j] = of_limbs(old[18 + j]);
    }
    let mut block = [0; 64];
    block.copy_from_slice(old[2..18].as_flattened());
    compress(state, &block)
}
