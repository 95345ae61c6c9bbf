//! Words by their halves.

ghost use Rattle.std.specs.Prelude.{◌≡◌, ◌≤◌, ◌+◌, ◌*◌, ◌++◌, length, slice_index, take};
ghost use Rattle.gadget_bits.specs.Bits.{halves_at, halves_filled};
ghost use Rattle.gadget_bits.specs.Stage.{halves_cells};

use vm_field::Fe;

/// A word by its low and its high 16 bits.
#[derive(Clone, Copy, Debug)]
pub struct Halves<F = Fe> {
    pub lo: F,
    pub hi: F,
}

impl Halves<Fe> {
    pub const ZERO: Halves = Halves {
        lo: Fe::ZERO,
        hi: Fe::ZERO,
    };

    /// The two columns from a place on.
    #[tactic(auto, unfolding(crate::specs::Bits::halves_at))]
    pub fn read(row: &[Fe], at: usize) -> Halves
        requires { at + 2 ≤ length row.now }
        ensures { result ≡ halves_at (slice_index row.now) at }
    {
        Halves {
            lo: row[at],
            hi: row[at + 1],
        }
    }
}

/// The halves of a word.
#[tactic(auto, unfolding(crate::specs::Bits::halves_filled))]
pub fn halves_of(word: u32) -> Halves
    ensures { result ≡ halves_filled word }
{
    Halves {
        lo: Fe::of_u16((word % 65536) as u16),
        hi: Fe::of_u16((word / 65536) as u16),
    }
}

/// Writes the columns of words at a place. What stands before stays.
pub fn put_halves(row: &mut [Fe], at: usize, words: &[Halves])
    requires { at + 2 * length words.now ≤ length row.old }
    ensures long { length row.new ≡ length row.old }
    ensures so_far { take (at + 2 * length words.now) row.new ≡ take at row.old ++ halves_cells words.now }
{
    for i in 0..words.len() {
        let word = words[i];
        row[at + 2 * i] = word.lo;
        row[at + 2 * i + 1] = word.hi;
    }
}
