// The words of the instructions that the sample program has, by their names in the manual.
#![tactic(auto, using(crate::proofs::InstrWords::instr_words))]

ghost use Rattle.std.specs.Prelude.{◌≡◌, ◌<◌, ◌%◌, ◌^◌, Some};
ghost use Rattle.vm_word.specs.declared.operation.AluOp.TheVariants.{Add, Xor, And, Srl, Sltu};
ghost use Rattle.vm_word.specs.declared.operation.MulDivOp.TheVariants.{Mul, Divu};
ghost use Rattle.vm_word.specs.declared.operation.LoadKind.TheVariants.{Lw};
ghost use Rattle.vm_word.specs.declared.operation.StoreKind.TheVariants.{Sw};
ghost use Rattle.vm_word.specs.declared.operation.BranchKind.TheVariants.{Bne};
ghost use Rattle.rv_decode.specs.declared.instr.Instr.TheVariants.{Lui, Branch, Load, Store, AluImm, Alu, MulDiv, Terminate, Reveal};
ghost use Rattle.rv_decode.specs.Listing.{decode_of};
ghost use Rattle.vm_vectors.specs.Makers.{IsSignExtended, IsEvenSignExtended};
ghost use Rattle.vm_vectors.specs.Words.{lui_word, addi_word, andi_word, srli_word, add_word, xor_word, sltu_word, mul_word, divu_word, lw_word, sw_word, bne_word, reveal_word, terminate_word};

use crate::{b_word, i_word, r_word, s_word, u_word};

const OP: u8 = 0x33;

const OP_IMM: u8 = 0x13;

const CUSTOM_0: u8 = 0x0b;

pub fn lui(rd: u8, imm: u32) -> u32
    requires rd { rd < 32 }
    requires imm { imm % 2 ^ 12 ≡ 0 }
    ensures word { result ≡ lui_word rd imm }
    ensures decoded { decode_of result ≡ Some (Lui rd imm) }
{
    u_word(0x37, rd, imm)
}

pub fn addi(rd: u8, rs1: u8, imm: u32) -> u32
    requires rd { rd < 32 }
    requires rs1 { rs1 < 32 }
    requires imm { IsSignExtended 12 imm }
    ensures word { result ≡ addi_word rd rs1 imm }
    ensures decoded { decode_of result ≡ Some (AluImm Add rd rs1 imm) }
{
    i_word(OP_IMM, 0, rd, rs1, imm)
}

pub fn andi(rd: u8, rs1: u8, imm: u32) -> u32
    requires rd { rd < 32 }
    requires rs1 { rs1 < 32 }
    requires imm { IsSignExtended 12 imm }
    ensures word { result ≡ andi_word rd rs1 imm }
    ensures decoded { decode_of result ≡ Some (AluImm And rd rs1 imm) }
{
    i_word(OP_IMM, 7, rd, rs1, imm)
}

pub fn srli(rd: u8, rs1: u8, amount: u8) -> u32
    requires rd { rd < 32 }
    requires rs1 { rs1 < 32 }
    requires amount { amount < 32 }
    ensures word { result ≡ srli_word rd rs1 amount }
    ensures decoded { decode_of result ≡ Some (AluImm Srl rd rs1 amount) }
{
    r_word(OP_IMM, 5, 0, rd, rs1, amount)
}

pub fn add(rd: u8, rs1: u8, rs2: u8) -> u32
    requires rd { rd < 32 }
    requires rs1 { rs1 < 32 }
    requires rs2 { rs2 < 32 }
    ensures word { result ≡ add_word rd rs1 rs2 }
    ensures decoded { decode_of result ≡ Some (Alu Add rd rs1 rs2) }
{
    r_word(OP, 0, 0, rd, rs1, rs2)
}

pub fn xor(rd: u8, rs1: u8, rs2: u8) -> u32
    requires rd { rd < 32 }
    requires rs1 { rs1 < 32 }
    requires rs2 { rs2 < 32 }
    ensures word { result ≡ xor_word rd rs1 rs2 }
    ensures decoded { decode_of result ≡ Some (Alu Xor rd rs1 rs2) }
{
    r_word(OP, 4, 0, rd, rs1, rs2)
}

pub fn sltu(rd: u8, rs1: u8, rs2: u8) -> u32
    requires rd { rd < 32 }
    requires rs1 { rs1 < 32 }
    requires rs2 { rs2 < 32 }
    ensures word { result ≡ sltu_word rd rs1 rs2 }
    ensures decoded { decode_of result ≡ Some (Alu Sltu rd rs1 rs2) }
{
    r_word(OP, 3, 0, rd, rs1, rs2)
}

pub fn mul(rd: u8, rs1: u8, rs2: u8) -> u32
    requires rd { rd < 32 }
    requires rs1 { rs1 < 32 }
    requires rs2 { rs2 < 32 }
    ensures word { result ≡ mul_word rd rs1 rs2 }
    ensures decoded { decode_of result ≡ Some (MulDiv Mul rd rs1 rs2) }
{
    r_word(OP, 0, 1, rd, rs1, rs2)
}

pub fn divu(rd: u8, rs1: u8, rs2: u8) -> u32
    requires rd { rd < 32 }
    requires rs1 { rs1 < 32 }
    requires rs2 { rs2 < 32 }
    ensures word { result ≡ divu_word rd rs1 rs2 }
    ensures decoded { decode_of result ≡ Some (MulDiv Divu rd rs1 rs2) }
{
    r_word(OP, 5, 1, rd, rs1, rs2)
}

pub fn lw(rd: u8, rs1: u8, imm: u32) -> u32
    requires rd { rd < 32 }
    requires rs1 { rs1 < 32 }
    requires imm { IsSignExtended 12 imm }
    ensures word { result ≡ lw_word rd rs1 imm }
    ensures decoded { decode_of result ≡ Some (Load Lw rd rs1 imm) }
{
    i_word(0x03, 2, rd, rs1, imm)
}

// Puts `rs2` into memory at `rs1` plus the immediate.
pub fn sw(rs1: u8, rs2: u8, imm: u32) -> u32
    requires rs1 { rs1 < 32 }
    requires rs2 { rs2 < 32 }
    requires imm { IsSignExtended 12 imm }
    ensures word { result ≡ sw_word rs1 rs2 imm }
    ensures decoded { decode_of result ≡ Some (Store Sw rs1 rs2 imm) }
{
    s_word(0x23, 2, rs1, rs2, imm)
}

pub fn bne(rs1: u8, rs2: u8, offset: u32) -> u32
    requires rs1 { rs1 < 32 }
    requires rs2 { rs2 < 32 }
    requires offset { IsEvenSignExtended 13 offset }
    ensures word { result ≡ bne_word rs1 rs2 offset }
    ensures decoded { decode_of result ≡ Some (Branch Bne rs1 rs2 offset) }
{
    b_word(0x63, 1, rs1, rs2, offset)
}

// Puts `rs1` into the public bytes from the place `base` plus the immediate.
pub fn reveal(base: u8, rs1: u8, imm: u32) -> u32
    requires base { base < 32 }
    requires rs1 { rs1 < 32 }
    requires imm { IsSignExtended 12 imm }
    ensures word { result ≡ reveal_word base rs1 imm }
    ensures decoded { decode_of result ≡ Some (Reveal base rs1 imm) }
{
    i_word(CUSTOM_0, 2, base, rs1, imm)
}

pub fn terminate(code: u8) -> u32
    ensures word { result ≡ terminate_word code }
    ensures decoded { decode_of result ≡ Some (Terminate code) }
{
    i_word(CUSTOM_0, 0, 0, 0, u32::from(code))
}
