//! The tuple of a stage: when, behind how many rounds, and its words.

ghost use Rattle.std.specs.Prelude.{◌≡◌};
ghost use Rattle.gadget_bits.specs.Stage.{stage_tuple};

use crate::halves::Halves;
use vm_field::Fe;

/// The tuple of 24 words behind `level` rounds, at a time.
pub fn stage_tuple(time: Fe, level: Fe, words: &[Halves; 24]) -> [Fe; 50]
    ensures { result ≡ stage_tuple time level words.now }
{
    let mut all = [Fe::ZERO; 50];
    all[0] = time;
    all[1] = level;
    for i in 0..24 {
        let word = words[i];
        all[2 + 2 * i] = word.lo;
        all[3 + 2 * i] = word.hi;
    }
    all
}
