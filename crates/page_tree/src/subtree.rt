// What a tree keeps below a node: its leaves, and the digest of each node that isn't of zeros.
ghost use Rattle.std.specs.Prelude.{◌≡◌, ℕ, ◌+◌, ◌-◌, ◌*◌, ◌^◌, ◌<◌, ◌≤◌, ◌++◌, OnOk, OnErr, IfOk, length};
ghost use Rattle.std.specs.List.Sorted.{IsStrictlyIncreasing};
ghost use Rattle.sha2.specs.Sha256.{sha256};
ghost use Rattle.page_tree.specs.Tree.{node, IsBelow};
ghost use Rattle.page_tree.specs.Opening.{siblings_below};
ghost use Rattle.page_tree.specs.Parts.{IsSpan};
ghost use Rattle.page_tree.specs.Kept.{AreZeroDigests, IsKept, digest_of, either_half, put_at, shown};

use crate::hash::{leaf_digest, pair_digest};
use crate::node::{Node, Places};
use crate::opening::parting;
use crate::{Digest, OutOfMemory};
use std::alloc::Global;

/// A leaf, with its digest.
#[derive(Drop)]
pub struct Leaf {
    pub bytes: [u8; 64],
    pub digest: Digest,
}

/// The two subtrees below a node, with the node's digest.
#[cycle(subtree)]
#[derive(Drop)]
pub struct Pair {
    pub digest: Digest,
    pub left: Subtree,
    pub right: Subtree,
}

/// What is kept below a node: nothing where all leaves are zeros.
#[cycle(subtree)]
#[derive(Drop)]
pub enum Subtree {
    Zeros,
    Leaf(Box<Leaf>),
    Pair(Box<Pair>),
}

impl Subtree {
    /// The digest of its highest node, which is of this level.
    pub fn digest(&self, zeros: &[Digest; 26], level: u32) -> Digest
        requires zeros { AreZeroDigests zeros.now }
        requires small { level ≤ 25 }
        ensures { result ≡ digest_of level self.now }
    {
        match self {
            Subtree::Zeros => zeros[level as usize],
            Subtree::Leaf(leaf) => leaf.digest,
            Subtree::Pair(pair) => pair.digest,
        }
    }

    /// The bytes at a label.
    pub fn bytes(&self, top: Node, label: u32) -> [u8; 64]
        requires kept { IsKept top.level self.now }
        requires in_tree { (top.index + 1) * 2 ^ top.level ≤ 2 ^ 25 }
        requires small { top.level ≤ 25 }
        ensures { result ≡ shown top.level top.index self.now label }
    {
        match self {
            Subtree::Zeros => [0; 64],
            Subtree::Leaf(leaf) => {
                if top.index == label {
                    leaf.bytes
                } else {
                    [0; 64]
                }
            }
            Subtree::Pair(pair) => {
                if label < top.middle() {
                    pair.left.bytes(top.left(), label)
                } else {
                    pair.right.bytes(top.right(), label)
                }
            }
        }
    }

    /// Sets the 64 bytes at a label, and the digests on the way to it.
    pub fn put(
        &mut self,
        alloc: Global,
        zeros: &[Digest; 26],
        top: Node,
        label: u32,
        page: &[u8; 64],
    ) -> Result<(), OutOfMemory>
        requires zeros { AreZeroDigests zeros.now }
        requires kept { IsKept top.level self.old }
        requires in_tree { (top.index + 1) * 2 ^ top.level ≤ 2 ^ 25 }
        requires small { top.level ≤ 25 }
        requires below { IsBelow top.level top.index label }
        ensures kept { OnOk result (IsKept top.level self.new) }
        ensures ok { OnOk result ((j : ℕ) → shown top.level top.index self.new j ≡ put_at (shown top.level top.index self.old) label page.now j) }
        ensures err { OnErr result (self.new ≡ self.old) }
    {
        match self {
            Subtree::Zeros => *self = way(alloc, zeros, top, label, page)?,
            Subtree::Leaf(leaf) => {
                **leaf = Leaf {
                    bytes: *page,
                    digest: leaf_digest(page),
                };
            }
            Subtree::Pair(pair) => {
                if label < top.middle() {
                    pair.left.put(alloc, zeros, top.left(), label, page)?;
                } else {
                    pair.right.put(alloc, zeros, top.right(), label, page)?;
                }
                let level = top.level - 1;
                let left = pair.left.digest(zeros, level);
                let right = pair.right.digest(zeros, level);
                pair.digest = pair_digest(&left, &right);
            }
        }
        Ok(())
    }

    /// The digest of a node, which is the highest one or lies below it.
    pub fn digest_at(&self, zeros: &[Digest; 26], top: Node, at: Node) -> Digest
        requires zeros { AreZeroDigests zeros.now }
        requires kept { IsKept top.level self.now }
        requires in_tree { (top.index + 1) * 2 ^ top.level ≤ 2 ^ 25 }
        requires small { top.level ≤ 25 }
        requires lower { at.level ≤ top.level }
        requires from { top.index * 2 ^ top.level ≤ at.index * 2 ^ at.level }
        requires to { (at.index + 1) * 2 ^ at.level ≤ (top.index + 1) * 2 ^ top.level }
        ensures { result ≡ sha256 (node (shown top.level top.index self.now) at.level at.index) }
    {
        if at.level == top.level {
            return self.digest(zeros, at.level);
        }
        match self {
            Subtree::Pair(pair) => {
                if at.index * 2u32.pow(at.level) < top.middle() {
                    pair.left.digest_at(zeros, top.left(), at)
                } else {
                    pair.right.digest_at(zeros, top.right(), at)
                }
            }
            Subtree::Zeros | Subtree::Leaf(_) => zeros[at.level as usize],
        }
    }

    // The subtrees below its highest node.
    fn halves(&self, top: Node) -> (&Subtree, &Subtree)
        requires kept { IsKept top.level self.now }
        requires above { 0 < top.level }
        ensures left { IsKept (top.level - 1) result.0.now }
        ensures right { IsKept (top.level - 1) result.1.now }
        ensures shown { (j : ℕ) → shown top.level top.index self.now j ≡ either_half (top.level - 1) top.index (shown (top.level - 1) (2 * top.index) result.0.now) (shown (top.level - 1) (2 * top.index + 1) result.1.now) j }
    {
        match self {
            Subtree::Pair(pair) => (&pair.left, &pair.right),
            Subtree::Zeros | Subtree::Leaf(_) => (self, self),
        }
    }

    /// Appends the digests beside the labels: those of the nodes below which no label lies.
    pub fn add_siblings(
        &self,
        zeros: &[Digest; 26],
        top: Node,
        labels: &[u32],
        places: Places,
        siblings: &mut Vec<Digest>,
    ) -> Result<(), OutOfMemory>
        requires zeros { AreZeroDigests zeros.now }
        requires kept { IsKept top.level self.now }
        requires in_tree { (top.index + 1) * 2 ^ top.level ≤ 2 ^ 25 }
        requires small { top.level ≤ 25 }
        requires rising { IsStrictlyIncreasing labels.now }
        requires span { IsSpan labels.now top.level top.index places.from places.to }
        ensures { OnOk result (siblings.new.items ≡ siblings.old.items ++ siblings_below (shown top.level top.index self.now) labels.now top.level top.index) }
    {
        if places.from == places.to {
            siblings.push(self.digest(zeros, top.level))?;
            return Ok(());
        }
        if top.level == 0 {
            return Ok(());
        }
        let at = parting(labels, places, top.middle());
        let (first, second) = (places.up_to(at), places.starting(at));
        let (left, right) = self.halves(top);
        left.add_siblings(zeros, top.left(), labels, first, siblings)?;
        right.add_siblings(zeros, top.right(), labels, second, siblings)
    }
}

// The subtree of two subtrees of a level.
fn joined(
    alloc: Global,
    zeros: &[Digest; 26],
    level: u32,
    left: Subtree,
    right: Subtree,
) -> Result<Subtree, OutOfMemory>
    requires zeros { AreZeroDigests zeros.now }
    requires small { level ≤ 25 }
    requires left { IsKept level left }
    requires right { IsKept level right }
    ensures kept { IfOk result (IsKept (level + 1)) }
    ensures shown { IfOk result (λ pair. (i j : ℕ) → shown (level + 1) i pair j ≡ either_half level i (shown level (2 * i) left) (shown level (2 * i + 1) right) j) }
{
    let digest = pair_digest(&left.digest(zeros, level), &right.digest(zeros, level));
    let pair = Pair {
        digest,
        left,
        right,
    };
    Ok(Subtree::Pair(Box::new(alloc, pair)?))
}

// The subtree in which all leaves but one are zeros.
fn way(
    alloc: Global,
    zeros: &[Digest; 26],
    top: Node,
    label: u32,
    page: &[u8; 64],
) -> Result<Subtree, OutOfMemory>
    requires zeros { AreZeroDigests zeros.now }
    requires in_tree { (top.index + 1) * 2 ^ top.level ≤ 2 ^ 25 }
    requires small { top.level ≤ 25 }
    requires below { IsBelow top.level top.index label }
    ensures kept { IfOk result (IsKept top.level) }
    ensures ok { IfOk result (λ kept. (j : ℕ) → shown top.level top.index kept j ≡ put_at (shown top.level top.index Subtree.Zeros) label page.now j) }
{
    if top.level == 0 {
        let leaf = Leaf {
            bytes: *page,
            digest: leaf_digest(page),
        };
        return Ok(Subtree::Leaf(Box::new(alloc, leaf)?));
    }
    let level = top.level - 1;
    if label < top.middle() {
        let left = way(alloc, zeros, top.left(), label, page)?;
        joined(alloc, zeros, level, left, Subtree::Zeros)
    } else {
        let right = way(alloc, zeros, top.right(), label, page)?;
        joined(alloc, zeros, level, Subtree::Zeros, right)
    }
}
