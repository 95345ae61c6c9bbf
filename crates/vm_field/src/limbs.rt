//! Words of a row.

ghost use Rattle.std.specs.Prelude.{◌≡◌, ◌+◌, ◌≤◌, length};
ghost use Rattle.vm_field.specs.Limbs.{limbs_at, list_of, limbs_from};

use crate::Fe;

/// The four limbs of a word as columns, lowest first. Where the word is one of 32 bits, each is a byte.
#[derive(Clone, Copy, Debug)]
pub struct Limbs<F = Fe> {
    pub x0: F,
    pub x1: F,
    pub x2: F,
    pub x3: F,
}

impl Limbs<Fe> {
    pub const ZERO: Limbs = Limbs {
        x0: Fe::ZERO,
        x1: Fe::ZERO,
        x2: Fe::ZERO,
        x3: Fe::ZERO,
    };

    /// The four columns from a place on.
    #[tactic(auto, unfolding(crate::specs::Limbs::limbs_at))]
    pub fn read(row: &[Fe], at: usize) -> Limbs
        requires { at + 4 ≤ length row.now }
        ensures { result ≡ limbs_at row.now at }
    {
        Limbs {
            x0: row[at],
            x1: row[at + 1],
            x2: row[at + 2],
            x3: row[at + 3],
        }
    }

    /// Lowest first.
    #[tactic(auto, unfolding(crate::specs::Limbs::list_of))]
    pub fn array(&self) -> [Fe; 4]
        ensures { result ≡ list_of self.now }
    {
        [self.x0, self.x1, self.x2, self.x3]
    }

    /// The limbs of a word of 32 bits by its bytes, lowest first.
    #[tactic(auto, unfolding(crate::specs::Limbs::limbs_from))]
    pub fn of_bytes(bytes: &[u8; 4]) -> Limbs
        ensures { result ≡ limbs_from bytes.now }
    {
        Limbs {
            x0: Fe::of_u16(bytes[0] as u16),
            x1: Fe::of_u16(bytes[1] as u16),
            x2: Fe::of_u16(bytes[2] as u16),
            x3: Fe::of_u16(bytes[3] as u16),
        }
    }
}
