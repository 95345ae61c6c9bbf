//! The opcodes of instructions that come in kinds.
ghost use Rattle.std.specs.Prelude.{◌≡◌};
ghost use Rattle.vm_transpile.specs.Rows.{alu_opcode, branch_opcode, load_opcode, mul_div_opcode, store_opcode};

use rv_decode::{AluOp, BranchKind, LoadKind, MulDivOp, StoreKind};
use vm_isa::opcode;

pub fn alu_op(op: AluOp) -> u8
    ensures { result ≡ alu_opcode op }
{
    match op {
        AluOp::Add => opcode::ADD,
        AluOp::Sub => opcode::SUB,
        AluOp::Xor => opcode::XOR,
        AluOp::Or => opcode::OR,
        AluOp::And => opcode::AND,
        AluOp::Slt => opcode::SLT,
        AluOp::Sltu => opcode::SLTU,
        AluOp::Sll => opcode::SLL,
        AluOp::Srl => opcode::SRL,
        AluOp::Sra => opcode::SRA,
    }
}

pub fn load_op(kind: LoadKind) -> u8
    ensures { result ≡ load_opcode kind }
{
    match kind {
        LoadKind::Lb => opcode::LB,
        LoadKind::Lh => opcode::LH,
        LoadKind::Lw => opcode::LW,
        LoadKind::Lbu => opcode::LBU,
        LoadKind::Lhu => opcode::LHU,
    }
}

pub fn store_op(kind: StoreKind) -> u8
    ensures { result ≡ store_opcode kind }
{
    match kind {
        StoreKind::Sb => opcode::SB,
        StoreKind::Sh => opcode::SH,
        StoreKind::Sw => opcode::SW,
    }
}

pub fn branch_op(kind: BranchKind) -> u8
    ensures { result ≡ branch_opcode kind }
{
    match kind {
        BranchKind::Beq => opcode::BEQ,
        BranchKind::Bne => opcode::BNE,
        BranchKind::Blt => opcode::BLT,
        BranchKind::Bltu => opcode::BLTU,
        BranchKind::Bge => opcode::BGE,
        BranchKind::Bgeu => opcode::BGEU,
    }
}

pub fn mul_div_op(op: MulDivOp) -> u8
    ensures { result ≡ mul_div_opcode op }
{
    match op {
        MulDivOp::Mul => opcode::MUL,
        MulDivOp::Mulh => opcode::MULH,
        MulDivOp::Mulhsu => opcode::MULHSU,
        MulDivOp::Mulhu => opcode::MULHU,
        MulDivOp::Div => opcode::DIV,
        MulDivOp::Divu => opcode::DIVU,
        MulDivOp::Rem => opcode::REM,
        MulDivOp::Remu => opcode::REMU,
    }
}
