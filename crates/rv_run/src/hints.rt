// The bytes that hint stores take, in order.
ghost use Rattle.std.specs.Prelude.{◌≡◌, ◌<◌, ◌≤◌, length, take, drop, IfSome, IfNone, MatchOption};

use std::marker::Model;

/// Hint bytes, seen as those that are left.
#[derive(Drop)]
pub struct Hints {
    bytes: Vec<u8>,
    taken: usize,
}

impl Model for Hints {
    ghost use Rattle.std.specs.Prelude.{◌≤◌, ℕ, List, length};

    ghost Value = { List ℕ };

    ghost use Rattle.rv_run.specs.Hints.{bytes_left};

    ghost view = { bytes_left };

    ghost invariant = { λ hints. hints.taken ≤ length hints.bytes.items };
}

impl Hints {
    pub fn new(bytes: Vec<u8>) -> Self
        ensures { result ≡ bytes.items }
    {
        Hints { bytes, taken: 0 }
    }

    /// The bytes that are left.
    pub fn left(&self) -> &[u8]
        ensures { result.now ≡ self.now }
    {
        &self.bytes[self.taken..]
    }

    /// Takes the first bytes that are left.
    pub fn advance(&mut self, count: usize)
        requires { count ≤ length self.old }
        ensures { self.new ≡ drop count self.old }
    {
        self.taken += count;
    }
}
