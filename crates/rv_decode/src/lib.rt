//! Instruction words: which instruction a 32-bit word is, if it is one.
#![tactic(auto)]

ghost use Rattle.std.specs.Prelude.{◌≡◌, IfSome};
ghost use Rattle.rv_decode.specs.Bits.{opcode_of, rd_of, rs1_of, rs2_of, i_immediate, s_immediate, b_immediate, u_immediate, j_immediate};
ghost use Rattle.rv_decode.specs.Listing.{listed_in, decode_of, jalr_lines, branch_lines, load_lines, store_lines, op_imm_lines, op_lines, fence_lines, custom_lines};
ghost use Rattle.rv_decode.specs.Ranges.{HasFieldsInRange};
ghost use Rattle.rv_decode.specs.declared.instr.Instr.TheVariants.{Lui, Auipc, Jal, Jalr, Branch, Load, Store, AluImm, Alu, MulDiv};

mod fields;
mod instr;
pub mod laws;
#[cfg(test)]
mod tests;

use fields::{b_imm, funct3, funct7, i_imm, j_imm, opcode, rd, rs1, rs2, s_imm, u_imm};
pub use instr::Instr;
pub use vm_word::operation::{AluOp, BranchKind, LoadKind, MulDivOp, StoreKind};

// A table of instructions by the fields that tell them apart.
macro_rules! listed {
    ($fields:expr; $($fixed:pat $(if $more:expr)? => $instr:expr,)*) => {
        match $fields {
            $($fixed $(if $more)? => Some($instr),)*
            _ => None,
        }
    };
}

/// Decodes a word. `None` is for a word that the listing doesn't have.
#[tactic(auto, using(crate::proofs::ListingLemmas::by_opcode))]
pub fn decode(word: u32) -> Option<Instr>
    ensures listed { result ≡ decode_of word }
    ensures ranged { IfSome result HasFieldsInRange }
{
    match opcode(word) {
        0x37 => Some(lui(word)),
        0x17 => Some(auipc(word)),
        0x6f => Some(jal(word)),
        0x67 => decode_jalr(word),
        0x63 => decode_branch(word),
        0x03 => decode_load(word),
        0x23 => decode_store(word),
        0x13 => decode_op_imm(word),
        0x33 => decode_op(word),
        0x0f => decode_misc_mem(word),
        0x0b => decode_custom(word),
        _ => None,
    }
}

fn decode_jalr(word: u32) -> Option<Instr>
    requires { opcode_of word ≡ 0x67 }
    ensures { result ≡ listed_in jalr_lines word }
{
    listed! { funct3(word);
        0 => jalr(word),
    }
}

fn decode_branch(word: u32) -> Option<Instr>
    requires { opcode_of word ≡ 0x63 }
    ensures { result ≡ listed_in branch_lines word }
{
    listed! { funct3(word);
        0 => branch(BranchKind::Beq, word),
        1 => branch(BranchKind::Bne, word),
        4 => branch(BranchKind::Blt, word),
        5 => branch(BranchKind::Bge, word),
        6 => branch(BranchKind::Bltu, word),
        7 => branch(BranchKind::Bgeu, word),
    }
}

fn decode_load(word: u32) -> Option<Instr>
    requires { opcode_of word ≡ 0x03 }
    ensures { result ≡ listed_in load_lines word }
{
    listed! { funct3(word);
        0 => load(LoadKind::Lb, word),
        1 => load(LoadKind::Lh, word),
        2 => load(LoadKind::Lw, word),
        4 => load(LoadKind::Lbu, word),
        5 => load(LoadKind::Lhu, word),
    }
}

fn decode_store(word: u32) -> Option<Instr>
    requires { opcode_of word ≡ 0x23 }
    ensures { result ≡ listed_in store_lines word }
{
    listed! { funct3(word);
        0 => store(StoreKind::Sb, word),
        1 => store(StoreKind::Sh, word),
        2 => store(StoreKind::Sw, word),
    }
}

fn decode_op_imm(word: u32) -> Option<Instr>
    requires { opcode_of word ≡ 0x13 }
    ensures { result ≡ listed_in op_imm_lines word }
{
    listed! { (funct3(word), funct7(word));
        (0, _) => alu_imm(AluOp::Add, word),
        (2, _) => alu_imm(AluOp::Slt, word),
        (3, _) => alu_imm(AluOp::Sltu, word),
        (4, _) => alu_imm(AluOp::Xor, word),
        (6, _) => alu_imm(AluOp::Or, word),
        (7, _) => alu_imm(AluOp::And, word),
        (1, 0) => shift_imm(AluOp::Sll, word),
        (5, 0) => shift_imm(AluOp::Srl, word),
        (5, 32) => shift_imm(AluOp::Sra, word),
    }
}

fn decode_op(word: u32) -> Option<Instr>
    requires { opcode_of word ≡ 0x33 }
    ensures { result ≡ listed_in op_lines word }
{
    listed! { (funct3(word), funct7(word));
        (0, 0) => alu(AluOp::Add, word),
        (0, 32) => alu(AluOp::Sub, word),
        (1, 0) => alu(AluOp::Sll, word),
        (2, 0) => alu(AluOp::Slt, word),
        (3, 0) => alu(AluOp::Sltu, word),
        (4, 0) => alu(AluOp::Xor, word),
        (5, 0) => alu(AluOp::Srl, word),
        (5, 32) => alu(AluOp::Sra, word),
        (6, 0) => alu(AluOp::Or, word),
        (7, 0) => alu(AluOp::And, word),
        (0, 1) => mul_div(MulDivOp::Mul, word),
        (1, 1) => mul_div(MulDivOp::Mulh, word),
        (2, 1) => mul_div(MulDivOp::Mulhsu, word),
        (3, 1) => mul_div(MulDivOp::Mulhu, word),
        (4, 1) => mul_div(MulDivOp::Div, word),
        (5, 1) => mul_div(MulDivOp::Divu, word),
        (6, 1) => mul_div(MulDivOp::Rem, word),
        (7, 1) => mul_div(MulDivOp::Remu, word),
    }
}

fn decode_misc_mem(word: u32) -> Option<Instr>
    requires { opcode_of word ≡ 0x0f }
    ensures { result ≡ listed_in fence_lines word }
{
    listed! { funct3(word);
        0 => Instr::Fence,
    }
}

fn decode_custom(word: u32) -> Option<Instr>
    requires { opcode_of word ≡ 0x0b }
    ensures { result ≡ listed_in custom_lines word }
{
    let (rd, rs1, rs2, imm) = (rd(word), rs1(word), rs2(word), i_imm(word));
    listed! { (funct3(word), funct7(word));
        (0, _) if rd == 0 && rs1 == 0 && imm < 256 => Instr::Terminate { code: imm as u8 },
        (1, _) if rs1 == 0 => Instr::HintStore { base: rd, imm },
        (2, _) => Instr::Reveal { base: rd, rs1, imm },
        (4, 1) if rs2 == 0 => Instr::ShaBlock { state: rd, block: rs1 },
    }
}

fn lui(word: u32) -> Instr
    ensures { result ≡ Lui (rd_of word) (u_immediate word) }
{
    Instr::Lui {
        rd: rd(word),
        imm: u_imm(word),
    }
}

fn auipc(word: u32) -> Instr
    ensures { result ≡ Auipc (rd_of word) (u_immediate word) }
{
    Instr::Auipc {
        rd: rd(word),
        imm: u_imm(word),
    }
}

fn jal(word: u32) -> Instr
    ensures { result ≡ Jal (rd_of word) (j_immediate word) }
{
    Instr::Jal {
        rd: rd(word),
        offset: j_imm(word),
    }
}

fn jalr(word: u32) -> Instr
    ensures { result ≡ Jalr (rd_of word) (rs1_of word) (i_immediate word) }
{
    Instr::Jalr {
        rd: rd(word),
        rs1: rs1(word),
        imm: i_imm(word),
    }
}

fn branch(kind: BranchKind, word: u32) -> Instr
    ensures { result ≡ Branch kind (rs1_of word) (rs2_of word) (b_immediate word) }
{
    Instr::Branch {
        kind,
        rs1: rs1(word),
        rs2: rs2(word),
        offset: b_imm(word),
    }
}

fn load(kind: LoadKind, word: u32) -> Instr
    ensures { result ≡ Load kind (rd_of word) (rs1_of word) (i_immediate word) }
{
    Instr::Load {
        kind,
        rd: rd(word),
        rs1: rs1(word),
        imm: i_imm(word),
    }
}

fn store(kind: StoreKind, word: u32) -> Instr
    ensures { result ≡ Store kind (rs1_of word) (rs2_of word) (s_immediate word) }
{
    Instr::Store {
        kind,
        rs1: rs1(word),
        rs2: rs2(word),
        imm: s_imm(word),
    }
}

fn alu_imm(op: AluOp, word: u32) -> Instr
    ensures { result ≡ AluImm op (rd_of word) (rs1_of word) (i_immediate word) }
{
    Instr::AluImm {
        op,
        rd: rd(word),
        rs1: rs1(word),
        imm: i_imm(word),
    }
}

// The amount stands in the place of `rs2`.
fn shift_imm(op: AluOp, word: u32) -> Instr
    ensures { result ≡ AluImm op (rd_of word) (rs1_of word) (rs2_of word) }
{
    Instr::AluImm {
        op,
        rd: rd(word),
        rs1: rs1(word),
        imm: u32::from(rs2(word)),
    }
}

fn alu(op: AluOp, word: u32) -> Instr
    ensures { result ≡ Alu op (rd_of word) (rs1_of word) (rs2_of word) }
{
    Instr::Alu {
        op,
        rd: rd(word),
        rs1: rs1(word),
        rs2: rs2(word),
    }
}

fn mul_div(op: MulDivOp, word: u32) -> Instr
    ensures { result ≡ MulDiv op (rd_of word) (rs1_of word) (rs2_of word) }
{
    Instr::MulDiv {
        op,
        rd: rd(word),
        rs1: rs1(word),
        rs2: rs2(word),
    }
}
