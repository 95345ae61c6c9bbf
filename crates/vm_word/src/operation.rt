//! The operations of instructions on words, and their results (RISC-V Unprivileged ISA 20191213).

ghost use Rattle.std.specs.Prelude.{◌≡◌, ◌<◌, ◌≤◌, ◌*◌, ◌^◌};
ghost use Rattle.vm_word.specs.Operations.{alu_result, branch_holds, jump_target, load_extended, load_width, mul_div_result, store_width};

use crate::arithmetic::{
    divide, divide_signed, multiply_high, multiply_high_mixed, multiply_high_signed, multiply_low,
    remainder, remainder_signed, shift_left, shift_right, shift_right_signed, sign_extend,
    signed_less,
};

/// When a branch is taken: `Bltu` and `Bgeu` compare unsigned numbers, `Blt` and `Bge` signed ones.
#[derive(Clone, Copy, Debug, PartialEq, Eq)]
pub enum BranchKind {
    Beq,
    Bne,
    Blt,
    Bge,
    Bltu,
    Bgeu,
}

/// What a load reads: a byte, a half or a word, the first two sign-extended or, with a `u`, zero-extended.
#[derive(Clone, Copy, Debug, PartialEq, Eq)]
pub enum LoadKind {
    Lb,
    Lh,
    Lw,
    Lbu,
    Lhu,
}

/// What a store writes: the low byte, the low half or the word.
#[derive(Clone, Copy, Debug, PartialEq, Eq)]
pub enum StoreKind {
    Sb,
    Sh,
    Sw,
}

/// An operation of the arithmetic unit.
#[derive(Clone, Copy, Debug, PartialEq, Eq)]
pub enum AluOp {
    Add,
    Sub,
    Sll,
    Slt,
    Sltu,
    Xor,
    Srl,
    Sra,
    Or,
    And,
}

/// A multiplication or a division.
#[derive(Clone, Copy, Debug, PartialEq, Eq)]
pub enum MulDivOp {
    Mul,
    Mulh,
    Mulhsu,
    Mulhu,
    Div,
    Divu,
    Rem,
    Remu,
}

impl AluOp {
    /// The result of the operation. A shift's amount is the low five bits of the second word.
    pub fn result(self, a: u32, b: u32) -> u32
        ensures { result ≡ alu_result self a b }
    {
        match self {
            AluOp::Add => a.wrapping_add(b),
            AluOp::Sub => a.wrapping_sub(b),
            AluOp::Sll => shift_left(a, b % 32),
            AluOp::Slt => u32::from(signed_less(a, b)),
            AluOp::Sltu => u32::from(a < b),
            AluOp::Xor => a ^ b,
            AluOp::Srl => shift_right(a, b % 32),
            AluOp::Sra => shift_right_signed(a, b % 32),
            AluOp::Or => a | b,
            AluOp::And => a & b,
        }
    }
}

impl MulDivOp {
    /// The result of the operation.
    pub fn result(self, a: u32, b: u32) -> u32
        ensures { result ≡ mul_div_result self a b }
    {
        match self {
            MulDivOp::Mul => multiply_low(a, b),
            MulDivOp::Mulh => multiply_high_signed(a, b),
            MulDivOp::Mulhsu => multiply_high_mixed(a, b),
            MulDivOp::Mulhu => multiply_high(a, b),
            MulDivOp::Div => divide_signed(a, b),
            MulDivOp::Divu => divide(a, b),
            MulDivOp::Rem => remainder_signed(a, b),
            MulDivOp::Remu => remainder(a, b),
        }
    }
}

impl BranchKind {
    /// Whether the branch is taken at these words.
    pub fn holds(self, a: u32, b: u32) -> bool
        ensures { result ≡ branch_holds self a b }
    {
        match self {
            BranchKind::Beq => a == b,
            BranchKind::Bne => a != b,
            BranchKind::Blt => signed_less(a, b),
            BranchKind::Bge => !signed_less(a, b),
            BranchKind::Bltu => a < b,
            BranchKind::Bgeu => a >= b,
        }
    }
}

impl LoadKind {
    /// How many bytes it reads.
    pub fn width(self) -> u32
        ensures is { result ≡ load_width self }
        ensures some { 0 < result }
        ensures word { result ≤ 4 }
    {
        match self {
            LoadKind::Lb | LoadKind::Lbu => 1,
            LoadKind::Lh | LoadKind::Lhu => 2,
            LoadKind::Lw => 4,
        }
    }

    /// The word that it makes of the number that was read.
    pub fn extend(self, number: u32) -> u32
        requires { number < 2 ^ (8 * load_width self) }
        ensures { result ≡ load_extended self number }
    {
        match self {
            LoadKind::Lb => sign_extend(8, number),
            LoadKind::Lh => sign_extend(16, number),
            LoadKind::Lw | LoadKind::Lbu | LoadKind::Lhu => number,
        }
    }
}

impl StoreKind {
    /// How many bytes it writes.
    pub fn width(self) -> u32
        ensures is { result ≡ store_width self }
        ensures some { 0 < result }
        ensures word { result ≤ 4 }
    {
        match self {
            StoreKind::Sb => 1,
            StoreKind::Sh => 2,
            StoreKind::Sw => 4,
        }
    }
}

/// Where JALR leads: the sum, with bit 0 cleared.
pub fn jump_target(base: u32, imm: u32) -> u32
    ensures { result ≡ jump_target base imm }
{
    let sum = base.wrapping_add(imm);
    sum - sum % 2
}
