// The hint bytes of an accepted file.
ghost use Rattle.std.specs.Prelude.{◌≡◌};

use std::marker::Model;

/// Hint bytes, seen as their list.
#[derive(Debug, Drop)]
pub struct HintBytes {
    bytes: Vec<u8>,
}

impl Model for HintBytes {
    ghost use Rattle.std.specs.Prelude.{ℕ, List};

    ghost Value = { List ℕ };

    ghost view = { λ hints. hints.bytes.items };
}

impl HintBytes {
    pub fn of(bytes: Vec<u8>) -> HintBytes
        ensures { result ≡ bytes.items }
    {
        HintBytes { bytes }
    }

    pub fn as_slice(&self) -> &[u8]
        ensures { result.now ≡ self.now }
    {
        &self.bytes
    }
}
