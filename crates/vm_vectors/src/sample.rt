// The sample program.
ghost use Rattle.std.specs.Prelude.{◌≡◌, IfOk, vec_len};
ghost use Rattle.vm_vectors.specs.Sample.{AreWordsOf, sample_of, sample_text, sample_setup_text, sample_round_text, sample_end_text};

use crate::assembly::{
    add, addi, andi, bne, divu, lui, lw, mul, reveal, sltu, srli, sw, terminate, xor,
};
use std::alloc::{AllocError, Global};
use vm_word::arithmetic::sign_extend;

fn setup_words(number: u32) -> [u32; 8]
    ensures { result ≡ sample_setup_text number }
{
    let low = sign_extend(12, number % (1 << 12));
    [
        lui(5, number.wrapping_sub(low)),
        addi(5, 5, low),
        lui(6, 0x0019_6000),
        addi(6, 6, 0x60d),
        lui(7, 0x3c6e_f000),
        addi(7, 7, 0x35f),
        lui(8, 0x2000),
        addi(9, 0, 2000),
    ]
}

fn round_words() -> [u32; 13]
    ensures { result ≡ sample_round_text }
{
    [
        mul(5, 5, 6),
        add(5, 5, 7),
        andi(10, 5, 252),
        add(10, 10, 8),
        lw(11, 10, 0),
        xor(11, 11, 5),
        sw(10, 11, 0),
        srli(12, 5, 16),
        divu(13, 11, 12),
        sltu(14, 13, 12),
        add(15, 15, 14),
        addi(9, 9, 0xffff_ffff),
        bne(9, 0, 0xffff_ffd0),
    ]
}

fn end_words() -> [u32; 4]
    ensures { result ≡ sample_end_text }
{
    [
        reveal(0, 5, 0),
        reveal(0, 11, 4),
        reveal(0, 15, 8),
        terminate(0),
    ]
}

/// The 25 words of the sample program for a number: 2,000 rounds of a generator that begins with it. Its text stands at
/// 0x1000, and it takes no hints.
pub fn sample_words(alloc: Global, number: u32) -> Result<Vec<u32>, AllocError>
    ensures text { IfOk result (λ words. words.items ≡ sample_text number) }
    ensures words { IfOk result (λ words. AreWordsOf (sample_of number) words.items) }
    ensures count { IfOk result (λ words. vec_len words ≡ 25) }
{
    let mut words = Vec::with_capacity(alloc, 25)?;
    words.extend_from_slice(&setup_words(number))?;
    words.extend_from_slice(&round_words())?;
    words.extend_from_slice(&end_words())?;
    Ok(words)
}
