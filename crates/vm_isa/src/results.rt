//! What opcodes make of words: the operations that they stand for.

ghost use Rattle.std.specs.Prelude.{◌≡◌, ◌+◌, ◌*◌, ◌^◌, ◌<◌, ◌≤◌, IsTrue};
ghost use Rattle.vm_word.specs.Operations.{load_width};
ghost use Rattle.vm_isa.specs.Opcodes.{is_load};
ghost use Rattle.vm_isa.specs.Results.{alu_op as alu_op_of, branch_kind as branch_kind_of, extended, is_taken as is_taken_of, load_kind as load_kind_of, mul_div_op as mul_div_op_of, number_in, result as result_of, store_kind as store_kind_of, width_of, with_low};

use crate::opcode::*;
use vm_word::of_limbs;
use vm_word::operation::{AluOp, BranchKind, LoadKind, MulDivOp, StoreKind};

fn alu_op(op: u8) -> AluOp
    ensures { result ≡ alu_op_of op }
{
    match op {
        ADD => AluOp::Add,
        SUB => AluOp::Sub,
        XOR => AluOp::Xor,
        OR => AluOp::Or,
        AND => AluOp::And,
        SLT => AluOp::Slt,
        SLTU => AluOp::Sltu,
        SLL => AluOp::Sll,
        SRL => AluOp::Srl,
        _ => AluOp::Sra,
    }
}

fn mul_div_op(op: u8) -> MulDivOp
    ensures { result ≡ mul_div_op_of op }
{
    match op {
        MUL => MulDivOp::Mul,
        MULH => MulDivOp::Mulh,
        MULHSU => MulDivOp::Mulhsu,
        MULHU => MulDivOp::Mulhu,
        DIV => MulDivOp::Div,
        DIVU => MulDivOp::Divu,
        REM => MulDivOp::Rem,
        _ => MulDivOp::Remu,
    }
}

fn branch_kind(op: u8) -> BranchKind
    ensures { result ≡ branch_kind_of op }
{
    match op {
        BEQ => BranchKind::Beq,
        BNE => BranchKind::Bne,
        BLT => BranchKind::Blt,
        BLTU => BranchKind::Bltu,
        BGE => BranchKind::Bge,
        _ => BranchKind::Bgeu,
    }
}

fn load_kind(op: u8) -> LoadKind
    ensures { result ≡ load_kind_of op }
{
    match op {
        LB => LoadKind::Lb,
        LH => LoadKind::Lh,
        LW => LoadKind::Lw,
        LBU => LoadKind::Lbu,
        _ => LoadKind::Lhu,
    }
}

fn store_kind(op: u8) -> StoreKind
    ensures { result ≡ store_kind_of op }
{
    match op {
        SB => StoreKind::Sb,
        SH => StoreKind::Sh,
        _ => StoreKind::Sw,
    }
}

/// The word that an opcode of the register form makes of two.
#[tactic(auto, unfolding(crate::specs::Results::result, crate::specs::Results::alu, crate::specs::Results::mul_div))]
pub fn result(op: u8, a: u32, b: u32) -> u32
    ensures { result ≡ result_of op a b }
{
    match op {
        ADD..=SRA => alu_op(op).result(a, b),
        _ => mul_div_op(op).result(a, b),
    }
}

/// Whether a branch from BEQ to BGEU is taken.
#[tactic(auto, unfolding(crate::specs::Results::is_taken))]
pub fn is_taken(op: u8, a: u32, b: u32) -> bool
    ensures { result ≡ is_taken_of op a b }
{
    branch_kind(op).holds(a, b)
}

/// How many bytes a load or a store has.
#[tactic(auto, unfolding(crate::specs::Results::width_of))]
pub fn width(op: u8) -> u32
    ensures is { result ≡ width_of op }
    ensures some { 0 < result }
    ensures word { result ≤ 4 }
{
    match op {
        LB..=LHU => load_kind(op).width(),
        _ => store_kind(op).width(),
    }
}

#[tactic(auto, using(crate::proofs::BlockLaws::number_in_byte))]
fn byte_in(block: [u8; 4], from: usize) -> u8
    requires { from < 4 }
    ensures { result ≡ number_in block from 1 }
{
    block[from]
}

#[tactic(auto, using(crate::proofs::BlockLaws::number_in_half))]
fn half_in(block: [u8; 4], from: usize) -> u16
    requires { from < 3 }
    ensures { result ≡ number_in block from 2 }
{
    u16::from_le_bytes([block[from], block[from + 1]])
}

// The number that a load reads in a block, from this place on.
#[tactic(auto, using(crate::proofs::BlockLaws::number_in_first))]
fn read_in(kind: LoadKind, block: [u8; 4], from: usize) -> u32
    requires { from + load_width kind ≤ 4 }
    ensures is { result ≡ number_in block from (load_width kind) }
    ensures fits { result < 2 ^ (8 * load_width kind) }
{
    match kind {
        LoadKind::Lb | LoadKind::Lbu => u32::from(byte_in(block, from)),
        LoadKind::Lh | LoadKind::Lhu => u32::from(half_in(block, from)),
        LoadKind::Lw => of_limbs(block),
    }
}

/// The word that a load makes of a block, from this place in it on.
#[tactic(auto, unfolding(crate::specs::Results::extended, crate::specs::Results::width_of))]
pub fn loaded(op: u8, block: [u8; 4], from: usize) -> u32
    requires load { IsTrue (is_load op) }
    requires within { from + width_of op ≤ 4 }
    ensures { result ≡ extended op (number_in block from (width_of op)) }
{
    let kind = load_kind(op);
    kind.extend(read_in(kind, block, from))
}

/// A block with the low bytes of another, as many as a store has, put at this place.
#[tactic(auto, unfolding(crate::specs::Results::with_low))]
pub fn stored(op: u8, block: [u8; 4], from: usize, bytes: [u8; 4]) -> [u8; 4]
    requires { from + width_of op ≤ 4 }
    ensures { result ≡ with_low block from (width_of op) bytes }
{
    let mut new = block;
    let width = width(op) as usize;
    new[from..from + width].copy_from_slice(&bytes[..width]);
    new
}
