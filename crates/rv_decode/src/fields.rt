//! The fields and the immediates of an instruction word.
ghost use Rattle.std.specs.Prelude.{◌≡◌, ◌-◌, ◌≤◌, ◌<◌, ◌^◌};
ghost use Rattle.rv_decode.specs.Bits.{bits, opcode_of, rd_of, funct3_of, rs1_of, rs2_of, funct7_of, i_immediate, s_immediate, b_immediate, u_immediate, j_immediate};

use vm_word::arithmetic::sign_extend;

pub fn opcode(word: u32) -> u32
    ensures { result ≡ opcode_of word }
{
    bits(word, 6, 0)
}

pub fn rd(word: u32) -> u8
    ensures { result ≡ rd_of word }
{
    bits(word, 11, 7) as u8
}

pub fn funct3(word: u32) -> u32
    ensures { result ≡ funct3_of word }
{
    bits(word, 14, 12)
}

pub fn rs1(word: u32) -> u8
    ensures { result ≡ rs1_of word }
{
    bits(word, 19, 15) as u8
}

pub fn rs2(word: u32) -> u8
    ensures { result ≡ rs2_of word }
{
    bits(word, 24, 20) as u8
}

pub fn funct7(word: u32) -> u32
    ensures { result ≡ funct7_of word }
{
    bits(word, 31, 25)
}

pub fn i_imm(word: u32) -> u32
    ensures { result ≡ i_immediate word }
{
    sign_extend(12, bits(word, 31, 20))
}

pub fn s_imm(word: u32) -> u32
    ensures { result ≡ s_immediate word }
{
    sign_extend(12, (bits(word, 31, 25) << 5) + bits(word, 11, 7))
}

pub fn b_imm(word: u32) -> u32
    ensures { result ≡ b_immediate word }
{
    let high = (bits(word, 31, 31) << 12) + (bits(word, 7, 7) << 11);
    let low = (bits(word, 30, 25) << 5) + (bits(word, 11, 8) << 1);
    sign_extend(13, high + low)
}

pub fn u_imm(word: u32) -> u32
    ensures { result ≡ u_immediate word }
{
    bits(word, 31, 12) << 12
}

pub fn j_imm(word: u32) -> u32
    ensures { result ≡ j_immediate word }
{
    let high = (bits(word, 31, 31) << 20) + (bits(word, 19, 12) << 12);
    let low = (bits(word, 20, 20) << 11) + (bits(word, 30, 21) << 1);
    sign_extend(21, high + low)
}

// Bits `high` to `low`, as a number.
fn bits(word: u32, high: u32, low: u32) -> u32
    requires ordered { low ≤ high }
    requires within { high < 32 }
    ensures { result ≡ bits high low word }
{
    ((word as u64 >> low) % (1 << (high + 1 - low))) as u32
}
