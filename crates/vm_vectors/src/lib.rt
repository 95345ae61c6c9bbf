//! What tests and sample programs are made of: instruction words from their fields, and program files.
#![tactic(auto)]

ghost use Rattle.std.specs.Prelude.{◌≡◌, ◌-◌, ◌%◌, ◌≤◌, ◌<◌, ◌^◌};
ghost use Rattle.rv_decode.specs.Bits.{bits, opcode_of, rd_of, funct3_of, rs1_of, rs2_of, funct7_of, i_immediate, s_immediate, b_immediate, u_immediate, j_immediate};
ghost use Rattle.vm_vectors.specs.Words.{r_word_of, i_word_of, s_word_of, b_word_of, u_word_of, j_word_of};
ghost use Rattle.vm_vectors.specs.Makers.{IsSignExtended, IsEvenSignExtended, DecodesByR, DecodesByI, DecodesByS, DecodesByB, DecodesByU, DecodesByJ};

mod assembly;
mod elf;
#[cfg(test)]
mod elf_tests;
pub mod laws;
pub mod programs;
mod sample;
#[cfg(test)]
mod tests;

pub use elf::{LINKED_ELF, SHA_ELF, elf_of, text_is_words};
pub use sample::sample_words;

/// The word of the R format with these fields.
#[tactic(auto, using(crate::proofs::MakerLemmas::decodes_by_r))]
pub fn r_word(opcode: u8, funct3: u8, funct7: u8, rd: u8, rs1: u8, rs2: u8) -> u32
    requires opcode { opcode < 128 }
    requires funct3 { funct3 < 8 }
    requires funct7 { funct7 < 128 }
    requires rd { rd < 32 }
    requires rs1 { rs1 < 32 }
    requires rs2 { rs2 < 32 }

    ensures word { result ≡ r_word_of opcode funct3 funct7 rd rs1 rs2 }
    ensures opcode { opcode_of result ≡ opcode }
    ensures rd { rd_of result ≡ rd }
    ensures funct3 { funct3_of result ≡ funct3 }
    ensures rs1 { rs1_of result ≡ rs1 }
    ensures rs2 { rs2_of result ≡ rs2 }
    ensures funct7 { funct7_of result ≡ funct7 }
    ensures decoded { DecodesByR result opcode funct3 funct7 rd rs1 rs2 }
{
    u32::from(opcode)
        + (u32::from(rd) << 7)
        + (u32::from(funct3) << 12)
        + (u32::from(rs1) << 15)
        + (u32::from(rs2) << 20)
        + (u32::from(funct7) << 25)
}

/// The word of the I format with these fields.
#[tactic(auto, using(crate::proofs::MakerLemmas::decodes_by_i))]
pub fn i_word(opcode: u8, funct3: u8, rd: u8, rs1: u8, imm: u32) -> u32
    requires opcode { opcode < 128 }
    requires funct3 { funct3 < 8 }
    requires rd { rd < 32 }
    requires rs1 { rs1 < 32 }
    requires imm { IsSignExtended 12 imm }

    ensures word { result ≡ i_word_of opcode funct3 rd rs1 imm }
    ensures opcode { opcode_of result ≡ opcode }
    ensures rd { rd_of result ≡ rd }
    ensures funct3 { funct3_of result ≡ funct3 }
    ensures rs1 { rs1_of result ≡ rs1 }
    ensures imm { i_immediate result ≡ imm }
    ensures decoded { DecodesByI result opcode funct3 rd rs1 imm }
{
    u32::from(opcode)
        + (u32::from(rd) << 7)
        + (u32::from(funct3) << 12)
        + (u32::from(rs1) << 15)
        + (bits(imm, 11, 0) << 20)
}

/// The word of the S format with these fields.
#[tactic(auto, using(crate::proofs::MakerLemmas::decodes_by_s))]
pub fn s_word(opcode: u8, funct3: u8, rs1: u8, rs2: u8, imm: u32) -> u32
    requires opcode { opcode < 128 }
    requires funct3 { funct3 < 8 }
    requires rs1 { rs1 < 32 }
    requires rs2 { rs2 < 32 }
    requires imm { IsSignExtended 12 imm }

    ensures word { result ≡ s_word_of opcode funct3 rs1 rs2 imm }
    ensures opcode { opcode_of result ≡ opcode }
    ensures funct3 { funct3_of result ≡ funct3 }
    ensures rs1 { rs1_of result ≡ rs1 }
    ensures rs2 { rs2_of result ≡ rs2 }
    ensures imm { s_immediate result ≡ imm }
    ensures decoded { DecodesByS result opcode funct3 rs1 rs2 imm }
{
    u32::from(opcode)
        + (bits(imm, 4, 0) << 7)
        + (u32::from(funct3) << 12)
        + (u32::from(rs1) << 15)
        + (u32::from(rs2) << 20)
        + (bits(imm, 11, 5) << 25)
}

/// The word of the B format with these fields.
#[tactic(auto, using(crate::proofs::MakerLemmas::decodes_by_b))]
pub fn b_word(opcode: u8, funct3: u8, rs1: u8, rs2: u8, offset: u32) -> u32
    requires opcode { opcode < 128 }
    requires funct3 { funct3 < 8 }
    requires rs1 { rs1 < 32 }
    requires rs2 { rs2 < 32 }
    requires offset { IsEvenSignExtended 13 offset }

    ensures word { result ≡ b_word_of opcode funct3 rs1 rs2 offset }
    ensures opcode { opcode_of result ≡ opcode }
    ensures funct3 { funct3_of result ≡ funct3 }
    ensures rs1 { rs1_of result ≡ rs1 }
    ensures rs2 { rs2_of result ≡ rs2 }
    ensures offset { b_immediate result ≡ offset }
    ensures decoded { DecodesByB result opcode funct3 rs1 rs2 offset }
{
    u32::from(opcode)
        + (bits(offset, 11, 11) << 7)
        + (bits(offset, 4, 1) << 8)
        + (u32::from(funct3) << 12)
        + (u32::from(rs1) << 15)
        + (u32::from(rs2) << 20)
        + (bits(offset, 10, 5) << 25)
        + (bits(offset, 12, 12) << 31)
}

/// The word of the U format with these fields.
#[tactic(auto, using(crate::proofs::MakerLemmas::decodes_by_u))]
pub fn u_word(opcode: u8, rd: u8, imm: u32) -> u32
    requires opcode { opcode < 128 }
    requires rd { rd < 32 }
    requires imm { imm % 2 ^ 12 ≡ 0 }

    ensures word { result ≡ u_word_of opcode rd imm }
    ensures opcode { opcode_of result ≡ opcode }
    ensures rd { rd_of result ≡ rd }
    ensures imm { u_immediate result ≡ imm }
    ensures decoded { DecodesByU result opcode rd imm }
{
    u32::from(opcode) + (u32::from(rd) << 7) + imm
}

/// The word of the J format with these fields.
#[tactic(auto, using(crate::proofs::MakerLemmas::decodes_by_j))]
pub fn j_word(opcode: u8, rd: u8, offset: u32) -> u32
    requires opcode { opcode < 128 }
    requires rd { rd < 32 }
    requires offset { IsEvenSignExtended 21 offset }

    ensures word { result ≡ j_word_of opcode rd offset }
    ensures opcode { opcode_of result ≡ opcode }
    ensures rd { rd_of result ≡ rd }
    ensures offset { j_immediate result ≡ offset }
    ensures decoded { DecodesByJ result opcode rd offset }
{
    u32::from(opcode)
        + (u32::from(rd) << 7)
        + (bits(offset, 19, 12) << 12)
        + (bits(offset, 11, 11) << 20)
        + (bits(offset, 10, 1) << 21)
        + (bits(offset, 20, 20) << 31)
}

// Bits `high` to `low`, as a number.
fn bits(number: u32, high: u32, low: u32) -> u32
    requires ordered { low ≤ high }
    requires within { high < 32 }
    ensures { result ≡ bits high low number }
{
    ((number as u64 >> low) % (1 << (high + 1 - low))) as u32
}
