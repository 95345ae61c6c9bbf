// The path from one page to the root.
ghost use Rattle.std.specs.Prelude.{◌≡◌};
ghost use Rattle.page_tree.specs.Path.{climb};

use crate::Digest;
use crate::hash::{leaf_digest, pair_digest};
use vm_trace::PUBLIC_LABEL;

/// The root to which a path leads from the page of public bytes: of each level from 0 up, the path has
/// the digest beside the way.
pub fn path_root(public: &[u8; 64], path: &[Digest; 25]) -> Digest
    ensures { result ≡ climb PUBLIC_LABEL public.now path.now }
{
    let mut index = PUBLIC_LABEL;
    let mut digest = leaf_digest(public);
    for beside in path {
        digest = if index % 2 == 0 {
            pair_digest(&digest, beside)
        } else {
            pair_digest(beside, &digest)
        };
        index /= 2;
    }
    digest
}
