// Results of instructions on words. Signed words are in two's complement.
ghost use Rattle.std.specs.Prelude.{◌≡◌, ◌<◌, ◌/◌, ◌^◌};
ghost use Rattle.vm_word.specs.Arithmetic.{is_negative, signed_less, shifted_left, shifted_right, shifted_right_signed, sign_extended, sign_extended_64, low_product, high_product, high_product_signed, high_product_mixed, magnitude, negated, negated_if, quotient, quotient_signed, remainder, remainder_signed};

use crate::signed;

/// Whether the sign bit is set.
pub fn is_negative(word: u32) -> bool
    ensures { result ≡ is_negative word }
{
    word >= 1 << 31
}

/// Whether the first word is below the second, both signed.
pub fn signed_less(a: u32, b: u32) -> bool
    ensures { result ≡ signed_less a b }
{
    signed(a) < signed(b)
}

/// A word shifted left by less than 32 places.
pub fn shift_left(word: u32, by: u32) -> u32
    requires { by < 32 }
    ensures { result ≡ shifted_left word by }
{
    word << by
}

/// A word shifted right by less than 32 places; zeros come in.
pub fn shift_right(word: u32, by: u32) -> u32
    requires { by < 32 }
    ensures { result ≡ shifted_right word by }
{
    word >> by
}

/// A signed word shifted right by less than 32 places; copies of the sign bit come in.
pub fn shift_right_signed(word: u32, by: u32) -> u32
    requires { by < 32 }
    ensures { result ≡ shifted_right_signed word by }
{
    if is_negative(word) {
        (word >> by) + (u32::MAX - (u32::MAX >> by))
    } else {
        word >> by
    }
}

/// A signed number of this many bits as a word.
pub fn sign_extend(bits: u32, number: u32) -> u32
    requires some { 0 < bits }
    requires most { bits < 32 }
    requires fits { number < 2 ^ bits }
    ensures { result ≡ sign_extended bits number }
{
    if number < 1 << (bits - 1) {
        number
    } else {
        number + (u32::MAX - ((1 << bits) - 1))
    }
}

/// The low word of a product. It is the same for signed words.
pub fn multiply_low(a: u32, b: u32) -> u32
    ensures { result ≡ low_product a b }
{
    a.wrapping_mul(b)
}

/// The high word of the product of two words.
pub fn multiply_high(a: u32, b: u32) -> u32
    ensures { result ≡ high_product a b }
{
    high_word(a as u64 * b as u64)
}

/// The high word of the product of two signed words.
pub fn multiply_high_signed(a: u32, b: u32) -> u32
    ensures { result ≡ high_product_signed a b }
{
    high_word(sign_extend_64(a).wrapping_mul(sign_extend_64(b)))
}

/// The high word of the product of a signed word and a word.
pub fn multiply_high_mixed(a: u32, b: u32) -> u32
    ensures { result ≡ high_product_mixed a b }
{
    high_word(sign_extend_64(a).wrapping_mul(b as u64))
}

/// The quotient of two words; by 0, all ones.
pub fn divide(a: u32, b: u32) -> u32
    ensures { result ≡ quotient a b }
{
    if b == 0 { u32::MAX } else { a / b }
}

/// The quotient of two signed words, rounded towards 0; by 0, all ones.
pub fn divide_signed(a: u32, b: u32) -> u32
    ensures { result ≡ quotient_signed a b }
{
    let divisor = magnitude(b);
    if divisor == 0 {
        return u32::MAX;
    }
    negate_if(
        is_negative(a),
        negate_if(is_negative(b), magnitude(a) / divisor),
    )
}

/// The remainder of two words; by 0, the dividend.
pub fn remainder(a: u32, b: u32) -> u32
    ensures { result ≡ remainder a b }
{
    if b == 0 { a } else { a % b }
}

/// The remainder of two signed words, with the sign of the dividend; by 0, the dividend.
pub fn remainder_signed(a: u32, b: u32) -> u32
    ensures { result ≡ remainder_signed a b }
{
    let divisor = magnitude(b);
    if divisor == 0 {
        return a;
    }
    negate_if(is_negative(a), magnitude(a) % divisor)
}

fn high_word(product: u64) -> u32
    ensures { result ≡ product / 2 ^ 32 }
{
    (product >> 32) as u32
}

fn sign_extend_64(word: u32) -> u64
    ensures { result ≡ sign_extended_64 word }
{
    if is_negative(word) {
        word as u64 + (u64::MAX - u32::MAX as u64)
    } else {
        word as u64
    }
}

fn magnitude(word: u32) -> u32
    ensures { result ≡ magnitude word }
{
    if is_negative(word) {
        word.wrapping_neg()
    } else {
        word
    }
}

fn negate_if(negative: bool, word: u32) -> u32
    ensures { result ≡ negated_if negative word }
{
    if negative { word.wrapping_neg() } else { word }
}
