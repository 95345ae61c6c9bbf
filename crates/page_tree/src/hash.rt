// Digests of nodes.
ghost use Rattle.std.specs.Prelude.{◌≡◌, ◌++◌};
ghost use Rattle.sha2.specs.Sha256.{sha256};

use sha2::{Digest as Hash, Sha256};
use vm_trace::Digest;

/// The digest of a leaf.
pub fn leaf_digest(leaf: &[u8; 64]) -> Digest
    ensures { result ≡ sha256 leaf.now }
{
    Sha256::digest(leaf.as_slice())
}

/// The digest of the node above two nodes with these digests.
pub fn pair_digest(left: &Digest, right: &Digest) -> Digest
    ensures { result ≡ sha256 (left.now ++ right.now) }
{
    let mut hasher = Sha256::new();
    hasher.update(left.as_slice());
    hasher.update(right.as_slice());
    hasher.finalize()
}
