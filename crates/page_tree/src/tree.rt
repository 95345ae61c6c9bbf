// The tree, over what is kept below its highest node.
ghost use Rattle.std.specs.Prelude.{◌≡◌, ℕ, ◌<◌, ◌^◌, replicate, OnOk, OnErr, IfOk};
ghost use Rattle.std.specs.List.Sorted.{IsStrictlyIncreasing};
ghost use Rattle.page_tree.specs.Tree.{root};
ghost use Rattle.page_tree.specs.Opening.{AreLabels, siblings_of};
ghost use Rattle.page_tree.specs.Path.{beside, path_of};
ghost use Rattle.page_tree.specs.Kept.{leaves_of, put_at, shown, AreZeroDigests, HasShape};

use crate::hash::{leaf_digest, pair_digest};
use crate::node::{HIGHEST, Node, Places};
use crate::subtree::Subtree;
use crate::{Digest, OutOfMemory, PUBLIC_LABEL};
use std::alloc::Global;
use std::marker::Model;

// The digests of the nodes, level after level, of the tree whose leaves are all zeros.
fn zero_digests() -> [Digest; 26]
    ensures { AreZeroDigests result }
{
    let mut digests = [[0u8; 32]; 26];
    let mut digest = leaf_digest(&[0; 64]);
    for level in 0..26 {
        digests[level] = digest;
        digest = pair_digest(&digest, &digest);
    }
    digests
}

// The index of the node beside a node.
fn beside(index: u32) -> u32
    requires { index < 2 ^ 25 }
    ensures { result ≡ beside index }
{
    if index % 2 == 0 { index + 1 } else { index - 1 }
}

/// A Merkle tree with 2^25 leaves of 64 bytes, of which those that were not put are zeros. It keeps the
/// digest of each node, but of those below which all leaves are zeros.
#[derive(Drop)]
pub struct Tree {
    alloc: Global,
    zeros: [Digest; 26],
    top: Subtree,
}

impl Model for Tree {
    ghost use Rattle.page_tree.specs.declared.subtree.Subtree.{Subtree};
    ghost use Rattle.page_tree.specs.contracts.subtree.Subtree as subtree;
    ghost use Rattle.std.specs.Coded.{codes};

    ghost Value = { Subtree };

    ghost coded = { Prim.hlevel (codes, subtree.the_row.coded) };

    ghost use Rattle.page_tree.specs.Kept.{AreZeroDigests, IsKept};

    ghost view = { λ t. t.top };

    ghost invariant = { λ t. AreZeroDigests t.zeros × IsKept 25 t.top };
}

impl Tree {
    /// The tree whose leaves are all zeros. It takes no memory yet.
    pub fn new(alloc: Global) -> Tree
        ensures { (j : ℕ) → leaves_of result j ≡ replicate 64 0 }
    {
        Tree {
            alloc,
            zeros: zero_digests(),
            top: Subtree::Zeros,
        }
    }

    // The tree of leaves whose digests are still to be made.
    pub(crate) fn hashed(alloc: Global, mut top: Subtree) -> Tree
        requires { HasShape 25 top }
        ensures { (j : ℕ) → leaves_of result j ≡ shown 25 0 top j }
    {
        let zeros = zero_digests();
        top.hash(&zeros, 25);
        Tree { alloc, zeros, top }
    }

    /// The 64 bytes at a label: zeros where none were put.
    pub fn leaf(&self, label: u32) -> [u8; 64]
        ensures { result ≡ leaves_of self.now label }
    {
        self.top.bytes(HIGHEST, label)
    }

    /// The digest of the highest node.
    pub fn root(&self) -> Digest
        ensures { result ≡ root (leaves_of self.now) }
    {
        self.top.digest(&self.zeros, 25)
    }

    /// Sets the 64 bytes at a label. It fails only where memory is out.
    pub fn put(&mut self, label: u32, page: [u8; 64]) -> Result<(), OutOfMemory>
        requires { label < 2 ^ 25 }
        ensures ok { OnOk result ((j : ℕ) → leaves_of self.new j ≡ put_at (leaves_of self.old) label page j) }
        ensures err { OnErr result (self.new ≡ self.old) }
    {
        self.top.put(self.alloc, &self.zeros, HIGHEST, label, &page)
    }

    /// The siblings that open these labels, in the order in which `roots_of` takes them. It fails only
    /// where memory is out.
    pub fn make_opening(&self, alloc: Global, labels: &[u32]) -> Result<Vec<Digest>, OutOfMemory>
        requires rising { IsStrictlyIncreasing labels.now }
        requires in_tree { AreLabels labels.now }
        ensures { IfOk result (λ siblings. siblings.items ≡ siblings_of (leaves_of self.now) labels.now) }
    {
        let mut siblings = Vec::new(alloc);
        let count = labels.len();
        let places = Places { from: 0, to: count };
        self.top
            .add_siblings(&self.zeros, HIGHEST, labels, places, &mut siblings)?;
        Ok(siblings)
    }

    /// The digests beside the way from the page of public bytes to the root.
    pub fn public_path(&self) -> [Digest; 25]
        ensures { result ≡ path_of (leaves_of self.now) PUBLIC_LABEL }
    {
        let top = &self.top;
        let zeros = &self.zeros;
        let mut path = [[0u8; 32]; 25];
        let mut index = PUBLIC_LABEL;
        for level in 0..25 {
            let beside = beside(index);
            let at = Node {
                level,
                index: beside,
            };
            path[level as usize] = top.digest_at(zeros, HIGHEST, at);
            index /= 2;
        }
        path
    }
}
