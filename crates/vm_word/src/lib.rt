//! A word of 32 bits as a machine of four byte limbs sees it: its limbs, its halves, its signed
//! value, its bits and its rotations.
#![tactic(auto)]

ghost use Rattle.std.specs.Prelude.{◌≡◌, ◌<◌};
ghost use Rattle.std.specs.Int.{rotate_right, w32};
ghost use Rattle.vm_word.specs.Word.{bits_of, halves_of, limbs_of, signed_value, word_of_limbs};

pub mod arithmetic;
pub mod laws;
pub mod operation;

/// The bytes of a word, limb 0 the lowest.
pub fn limbs(word: u32) -> [u8; 4]
    ensures { result ≡ limbs_of word }
{
    word.to_le_bytes()
}

/// The word that four limbs make, limb 0 the lowest.
pub fn of_limbs(limbs: [u8; 4]) -> u32
    ensures { result ≡ word_of_limbs limbs }
{
    u32::from_le_bytes(limbs)
}

/// The low half of a word, then the high one.
pub fn halves(word: u32) -> [u16; 2]
    ensures { result ≡ halves_of word }
{
    [(word & 0xFFFF) as u16, (word >> 16) as u16]
}

/// The value of a word in two's complement.
pub fn signed(word: u32) -> i32
    ensures { result ≡ signed_value word }
{
    word.cast_signed()
}

/// A word turned right: bit `i` goes to place `i - by`, and the lowest `by` bits to the top.
pub fn rotate_right(word: u32, by: u32) -> u32
    requires { by < 32 }
    ensures { result ≡ rotate_right w32 word by }
{
    word.rotate_right(by)
}

/// The bits of a word, lowest first.
pub fn bits(word: u32) -> [bool; 32]
    ensures { result ≡ bits_of word }
{
    let mut bits = [false; 32];
    for (place, bit) in bits.iter_mut().enumerate() {
        *bit = word >> place & 1 == 1;
    }
    bits
}

#[cfg(test)]
mod tests {
    use super::*;

    #[test]
    fn parts_of_words(rt: HostRuntime) {
        let table = [
            (0, [0, 0, 0, 0], [0, 0], 0, 0),
            (
                0x8765_4321,
                [0x21, 0x43, 0x65, 0x87],
                [0x4321, 0x8765],
                -2_023_406_815,
                0x1876_5432,
            ),
            (
                0x7FFF_FFFF,
                [255, 255, 255, 127],
                [0xFFFF, 0x7FFF],
                2_147_483_647,
                0xF7FF_FFFF,
            ),
            (
                0x8000_0000,
                [0, 0, 0, 128],
                [0, 0x8000],
                -2_147_483_648,
                0x0800_0000,
            ),
        ];
        for (word, parts, two, value, turned) in table {
            assert_eq!(rt; limbs(word), parts, "at {word}");
            assert_eq!(rt; of_limbs(parts), word, "at {word}");
            assert_eq!(rt; halves(word), two, "at {word}");
            assert_eq!(rt; signed(word), value, "at {word}");
            assert_eq!(rt; rotate_right(word, 4), turned, "at {word}");
        }
        let places = bits(0x8000_0005);
        for (place, bit) in places.iter().enumerate() {
            assert_eq!(rt; *bit, place == 0 || place == 2 || place == 31, "at {place}");
        }
    }
}
