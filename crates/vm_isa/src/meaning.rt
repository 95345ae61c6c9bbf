//! What an instruction means, from the old words of its accesses.

ghost use Rattle.std.specs.Prelude.{◌≡◌, ℕ, ◌<◌, ◌≤◌, List, [], ◌∷◌, None, length, nat_eq};
ghost use Rattle.vm_isa.specs.declared.meaning.NextAccess.TheVariants.{At};
ghost use Rattle.vm_isa.specs.Means.{Meaning, address, at_place, bars_first, block_address, imm_of, in_places, is_bad, is_high, is_refused as is_refused_of, jalr_target, means_of, memory, next_access_of, next_of, places_by, places_of, public, register, sha_places, word_at};

use crate::opcode::*;
use crate::results::{is_taken, width};
use crate::{VmInstr, space};
use vm_word::of_limbs;
use vm_word::operation::jump_target;

/// Where an access is.
#[derive(Clone, Copy, Debug, PartialEq, Eq)]
struct Place {
    slot: u32,
    space: u8,
    pointer: u32,
}

/// What follows the first accesses of an instruction.
#[derive(Clone, Copy, Debug, PartialEq, Eq)]
pub enum NextAccess {
    /// The words so far show that the instruction has no meaning.
    NoMeaning,
    /// The next access, by its slot in the step and its block.
    At { slot: u32, space: u8, pointer: u32 },
    /// The words are those of all accesses.
    Done,
}

/// What follows the first accesses of an instruction, whose old words these are, in order.
#[tactic(auto, unfolding(crate::specs::Means::next_access_of))]
pub fn next_access(instr: &VmInstr, old: &[[u8; 4]]) -> NextAccess
    ensures { result ≡ next_access_of instr.now old.now }
{
    if is_refused(instr, old) {
        NextAccess::NoMeaning
    } else {
        next_place(instr, old)
    }
}

/// The pc after an instruction, from the old words of all its accesses.
#[tactic(auto, using(crate::proofs::MeansLaws::done_means))]
pub fn next_pc(instr: &VmInstr, old: &[[u8; 4]]) -> u32
    requires { next_access_of instr.now old.now ≡ NextAccess.Done }
    ensures { (given : List ℕ) → (m : Meaning) × (means_of instr.now old.now given ≡ Some m) × (m.next ≡ result) }
{
    next_of(instr, old)
}

#[tactic(auto, unfolding(crate::specs::Means::next_of))]
fn next_of(instr: &VmInstr, old: &[[u8; 4]]) -> u32
    ensures { result ≡ next_of instr.now old.now }
{
    let after = instr.pc.wrapping_add(4);
    match instr.op {
        BEQ..=BGEU if is_taken(instr.op, word_at(old, 0), word_at(old, 1)) => instr.target,
        JAL => instr.target,
        JALR => jalr_target(instr, word_at(old, 0)),
        _ => after,
    }
}

// The word of access `number`, or 0 where it isn't known.
#[tactic(auto, unfolding(crate::specs::Means::word_at))]
pub fn word_at(old: &[[u8; 4]], number: usize) -> u32
    ensures { result ≡ word_at old.now number }
{
    match old.get(number) {
        Some(block) => of_limbs(*block),
        None => 0,
    }
}

#[tactic(auto, unfolding(crate::specs::Means::imm_of))]
pub fn immediate(instr: &VmInstr) -> u32
    ensures { result ≡ imm_of instr.now }
{
    of_limbs(instr.imm)
}

pub fn address(instr: &VmInstr, first: u32) -> u32
    ensures { result ≡ address instr.now first }
{
    first.wrapping_add(immediate(instr))
}

// The block that has the byte at A.
fn block_address(instr: &VmInstr, first: u32) -> u32
    ensures { result ≡ block_address instr.now first }
{
    let byte = address(instr, first);
    byte - byte % 4
}

fn jalr_target(instr: &VmInstr, first: u32) -> u32
    ensures { result ≡ jalr_target instr.now first }
{
    jump_target(first, immediate(instr))
}

fn is_high(pointer: u32) -> bool
    ensures { result ≡ is_high pointer }
{
    pointer >= 1 << 29
}

fn is_bad(width: u32, pointer: u32) -> bool
    requires { 0 < width }
    ensures { result ≡ is_bad width pointer }
{
    pointer % width != 0 || is_high(pointer)
}

#[tactic(auto, unfolding(crate::specs::Means::bars_first))]
fn bars_first(instr: &VmInstr, first: u32) -> bool
    ensures { result ≡ bars_first instr.now first }
{
    match instr.op {
        LB..=SW => is_bad(width(instr.op), address(instr, first)),
        JALR => is_high(jalr_target(instr, first)),
        HINT | REVEAL => is_bad(4, address(instr, first)),
        SHA => is_high(first),
        _ => false,
    }
}

#[tactic(auto, unfolding(crate::specs::Means::is_refused, crate::specs::Means::bars_second))]
fn is_refused(instr: &VmInstr, old: &[[u8; 4]]) -> bool
    ensures { result ≡ is_refused_of instr.now old.now }
{
    !has_meaning(instr.op)
        || !old.is_empty() && bars_first(instr, word_at(old, 0))
        || old.len() > 1 && instr.op == SHA && is_high(word_at(old, 1))
}

fn register(slot: u32, number: u8) -> Place
    ensures { result ≡ register slot number }
{
    Place {
        slot,
        space: space::REGISTERS,
        pointer: 4 * number as u32,
    }
}

fn memory(slot: u32, pointer: u32) -> Place
    ensures { result ≡ memory slot pointer }
{
    Place {
        slot,
        space: space::MEMORY,
        pointer,
    }
}

fn at(place: Place) -> NextAccess
    ensures { result ≡ At place.slot place.space place.pointer }
{
    NextAccess::At {
        slot: place.slot,
        space: place.space,
        pointer: place.pointer,
    }
}

// What follows so many accesses of an instruction that has `count`, at most as many.
fn past(count: usize, number: usize) -> NextAccess
    requires { count ≤ number }
    ensures { result ≡ at_place None (nat_eq number count) }
{
    if number == count {
        NextAccess::Done
    } else {
        NextAccess::NoMeaning
    }
}

// What follows two accesses or more of an instruction that has three.
fn third(first: Place, second: Place, third: Place, number: usize) -> NextAccess
    requires { 2 ≤ number }
    ensures { result ≡ in_places (first ∷ second ∷ third ∷ []) number }
{
    if number == 2 {
        at(third)
    } else {
        past(3, number)
    }
}

fn public(slot: u32, pointer: u32) -> Place
    ensures { result ≡ public slot pointer }
{
    Place {
        slot,
        space: space::PUBLIC,
        pointer,
    }
}

// The first access.
#[tactic(auto, unfolding(crate::specs::Means::places_by))]
fn first_access(instr: &VmInstr) -> NextAccess
    ensures { (b c : ℕ) → result ≡ in_places (places_by instr.now b c) 0 }
{
    match instr.op {
        ADD..=BGEU | JALR | MUL..=REMU => at(register(0, instr.rs1)),
        JAL if instr.write => at(register(0, instr.rd)),
        LUI | AUIPC | HINT | REVEAL | SHA => at(register(0, instr.rd)),
        _ => NextAccess::Done,
    }
}

// What follows the first access, of this word.
#[tactic(auto, unfolding(crate::specs::Means::places_by))]
fn second_access(instr: &VmInstr, first: u32) -> NextAccess
    ensures { (c : ℕ) → result ≡ in_places (places_by instr.now first c) 1 }
{
    match instr.op {
        ADD..=SRA | MUL..=REMU if instr.use_imm => at(register(2, instr.rd)),
        ADD..=SRA | MUL..=REMU | SB..=BGEU => at(register(1, instr.rs2)),
        LB..=LHU => at(memory(1, block_address(instr, first))),
        JAL if instr.write => NextAccess::Done,
        LUI | AUIPC => NextAccess::Done,
        JALR if instr.write => at(register(1, instr.rd)),
        JALR => NextAccess::Done,
        HINT => at(memory(1, address(instr, first))),
        REVEAL | SHA => at(register(1, instr.rs1)),
        _ => NextAccess::NoMeaning,
    }
}

// What follows two accesses or more.
#[tactic(auto, unfolding(crate::specs::Means::places_by))]
fn later_access(instr: &VmInstr, old: &[[u8; 4]]) -> NextAccess
    requires { 2 ≤ length old.now }
    ensures { result ≡ in_places (places_of instr.now old.now) (length old.now) }
{
    let number = old.len();
    let base = register(0, instr.rs1);
    let second = register(1, instr.rs2);
    let last = register(2, instr.rd);
    match instr.op {
        ADD..=SRA | MUL..=REMU if instr.use_imm => past(2, number),
        ADD..=SRA | MUL..=REMU => third(base, second, last, number),
        LB..=LHU if instr.write => {
            let block = block_address(instr, word_at(old, 0));
            third(base, memory(1, block), last, number)
        }
        SB..=SW => {
            let block = block_address(instr, word_at(old, 0));
            third(base, second, memory(2, block), number)
        }
        LB..=LHU | BEQ..=BGEU | HINT => past(2, number),
        JALR if instr.write => past(2, number),
        REVEAL => {
            let word = public(2, address(instr, word_at(old, 0)));
            third(register(0, instr.rd), register(1, instr.rs1), word, number)
        }
        SHA => later_of_sha(instr, old),
        _ => NextAccess::NoMeaning,
    }
}

fn next_place(instr: &VmInstr, old: &[[u8; 4]]) -> NextAccess
    ensures { result ≡ in_places (places_of instr.now old.now) (length old.now) }
{
    match old.len() {
        0 => first_access(instr),
        1 => second_access(instr, word_at(old, 0)),
        _ => later_access(instr, old),
    }
}

// What follows two accesses or more of a SHA block.
fn later_of_sha(instr: &VmInstr, old: &[[u8; 4]]) -> NextAccess
    requires { 2 ≤ length old.now }
    ensures { result ≡ in_places (sha_places instr.now (word_at old.now 0) (word_at old.now 1)) (length old.now) }
{
    let number = old.len();
    if number >= 26 {
        return past(26, number);
    }
    let slot = number as u32;
    let pointer = if slot < 18 {
        word_at(old, 1).wrapping_add(4 * (slot - 2))
    } else {
        word_at(old, 0).wrapping_add(4 * (slot - 18))
    };
    NextAccess::At {
        slot,
        space: space::MEMORY,
        pointer,
    }
}
