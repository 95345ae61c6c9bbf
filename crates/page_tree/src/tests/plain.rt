//! Roots and openings as they are defined, with all leaves below the lowest levels.

ghost use Rattle.std.specs.Prelude.{◌≡◌, ◌<◌, ◌≤◌, ◌^◌, IfOk, length};
ghost use Rattle.std.specs.List.Sorted.{IsStrictlyIncreasing};
ghost use Rattle.page_tree.specs.Opening.{AreLabels};
ghost use Rattle.page_tree.specs.Parts.{labels_of};

use super::{page, tree_of};
use crate::{Digest, OpeningError, OutOfMemory, Touched, roots_of};
use sha2::{Digest as Hash, Sha256};
use std::alloc::Global;
use std::test::Fail;

/// The bytes at a label.
fn labelled_bytes(leaves: &[(u32, u8)], label: u32) -> [u8; 64] {
    for (kept, first) in leaves {
        if *kept == label {
            return page(*first);
        }
    }
    [0; 64]
}

/// The digest of the node over two digests.
fn plain_pair(left: &Digest, right: &Digest) -> Digest {
    let mut node = [0; 64];
    node[..32].copy_from_slice(left);
    node[32..].copy_from_slice(right);
    Sha256::digest(node.as_slice())
}

/// The digest of a node of zeros.
fn zero_digest(level: u32) -> Digest {
    let mut digest = Sha256::digest([0; 64].as_slice());
    for _ in 0..level {
        digest = plain_pair(&digest, &digest);
    }
    digest
}

/// The digest of a node: up to level `height` by all leaves below it, and above by those nodes below
/// which a leaf is kept.
fn plain_digest(height: u32, leaves: &[(u32, u8)], level: u32, index: u32) -> Digest
    requires { level ≤ 25 }
{
    if level > height && !leaves.iter().any(|(kept, _)| *kept >> level == index) {
        return zero_digest(level);
    }
    if level == 0 {
        return Sha256::digest(labelled_bytes(leaves, index).as_slice());
    }
    let first = index.wrapping_mul(2);
    plain_pair(
        &plain_digest(height, leaves, level - 1, first),
        &plain_digest(height, leaves, level - 1, first.wrapping_add(1)),
    )
}

/// Appends the siblings of a walk below a node.
fn add_plain(
    height: u32,
    leaves: &[(u32, u8)],
    labels: &[u32],
    level: u32,
    index: u32,
    siblings: &mut Vec<Digest>,
) -> Result<(), OutOfMemory>
    requires { level ≤ 25 }
{
    if !labels.iter().any(|label| *label >> level == index) {
        siblings.push(plain_digest(height, leaves, level, index))?;
        return Ok(());
    }
    if level > 0 {
        let first = index.wrapping_mul(2);
        add_plain(height, leaves, labels, level - 1, first, siblings)?;
        let second = first.wrapping_add(1);
        add_plain(height, leaves, labels, level - 1, second, siblings)?;
    }
    Ok(())
}

const LEAVES: [(u32, u8); 4] = [
    (8_388_609, 9),
    (25_165_824, 7),
    (25_165_829, 1),
    (25_165_839, 3),
];

/// The page of a label: its old bytes are those of the leaves, its new ones count up from 100.
fn touched(label: u32) -> Touched
    ensures { result.label ≡ label }
{
    Touched {
        label,
        old: labelled_bytes(&LEAVES, label),
        new: page(100),
        times: [0; 16],
    }
}

fn pages_of(alloc: Global, labels: &[u32]) -> Result<Vec<Touched>, OutOfMemory>
    ensures { IfOk result (λ pages. labels_of pages.items ≡ labels.now) }
{
    let mut pages = Vec::new(alloc);
    for label in labels {
        pages.push(touched(*label))?;
    }
    Ok(pages)
}

/// The leaves with the new bytes at these labels.
fn new_leaves(alloc: Global, labels: &[u32]) -> Result<Vec<(u32, u8)>, OutOfMemory> {
    let mut leaves = Vec::new(alloc);
    for label in labels {
        leaves.push((*label, 100))?;
    }
    for leaf in LEAVES {
        leaves.push(leaf)?;
    }
    Ok(leaves)
}

/// Whether the opening is refused, for it needs `needed` siblings and has those that are given.
fn is_refused(pages: &[Touched], siblings: &[Digest], needed: u32) -> bool
    requires rising { IsStrictlyIncreasing (labels_of pages.now) }
    requires in_tree { AreLabels (labels_of pages.now) }
{
    if siblings.len() >= 1 << 32 {
        return false;
    }
    let given = siblings.len() as u32;
    roots_of(pages, siblings).err() == Some(OpeningError::SiblingsWrong { needed, given })
}

/// Whether the opening of these labels and its two roots are the plain ones, and one sibling fewer or
/// more is refused.
fn opens_plainly(alloc: Global, height: u32, labels: &[u32]) -> Result<bool, Fail>
    requires rising { IsStrictlyIncreasing labels.now }
    requires in_tree { AreLabels labels.now }
{
    let mut siblings = tree_of(alloc, &LEAVES)?.make_opening(alloc, labels)?;
    let mut plain = Vec::new(alloc);
    add_plain(height, &LEAVES, labels, 25, 0, &mut plain)?;
    if siblings.as_slice() != plain.as_slice() || siblings.len() >= 1 << 32 {
        return Ok(false);
    }
    let pages = pages_of(alloc, labels)?;
    let (old, new) = roots_of(&pages, &siblings).ok().ok_or("siblings")?;
    let leaves = new_leaves(alloc, labels)?;
    let opens = old == plain_digest(height, &LEAVES, 25, 0)
        && new == plain_digest(height, &leaves, 25, 0);
    let needed = siblings.len() as u32;
    let fewer = siblings.get(1..).unwrap_or(&[]);
    let fewer_refused = is_refused(&pages, fewer, needed);
    siblings.push([0; 32])?;
    Ok(opens && fewer_refused && is_refused(&pages, &siblings, needed))
}

#[test]
fn openings_are_the_plain_ones(rt: HostRuntime) -> Result<(), Fail> {
    let alloc = rt.alloc();
    for height in [1, 4] {
        assert!(rt; opens_plainly(alloc, height, &[])?);
        assert!(rt; opens_plainly(alloc, height, &[25_165_824])?);
        assert!(rt; opens_plainly(alloc, height, &[25_165_826])?);
        assert!(rt; opens_plainly(alloc, height, &[8_388_609, 25_165_829])?);
        assert!(rt; opens_plainly(alloc, height, &[25_165_825, 25_165_826, 25_165_839])?);
    }
    Ok(())
}
