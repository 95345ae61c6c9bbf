// The tree at the start of a run.
ghost use Rattle.std.specs.Prelude.{◌≡◌, ◌≢◌, ◌⊎◌, ℕ, ◌+◌, ◌-◌, ◌*◌, ◌/◌, ◌^◌, ◌<◌, ◌≤◌, length, IfOk, OnOk, ◌∷◌};
ghost use Rattle.sha2.specs.Sha256.{sha256};
ghost use Rattle.page_tree.specs.Kept.{AreZeroDigests, HasShape, IsKept, leaves_of, shown};
ghost use Rattle.page_tree.specs.Loading.{LaysOver, laid_over};
ghost use Rattle.page_tree.specs.Start.{start_map};

use crate::hash::{leaf_digest, pair_digest};
use crate::node::{HIGHEST, Node};
use crate::subtree::{Leaf, Pair, Subtree};
use crate::{Digest, OutOfMemory, Tree};
use elf_image::{Image, LoadPart};
use std::alloc::Global;
use vm_trace::{MEMORY_LABEL, PUBLIC_LABEL, SPACE_PAGES};

// Copies what a load gives of the 64 bytes from an address on.
fn lay_over(bytes: &mut [u8; 64], start: usize, load: &LoadPart<'_>)
    requires { start ≤ 2 ^ 29 }
    ensures { bytes.new ≡ laid_over load.now.address load.now.bytes.now start bytes.old }
{
    load.copy_over(bytes, start);
}

impl Subtree {
    // Lays a load over the leaves below a node. Those of which it gives a byte have labels from one on
    // and before another.
    fn lay(
        &mut self,
        alloc: Global,
        load: &LoadPart<'_>,
        from: u32,
        to: u32,
        top: Node,
    ) -> Result<(), OutOfMemory>
        requires shape { HasShape top.level self.old }
        requires in_tree { (top.index + 1) * 2 ^ top.level ≤ 2 ^ 25 }
        requires small { top.level ≤ 25 }
        requires memory { MEMORY_LABEL ≤ from }
        requires space { to ≤ PUBLIC_LABEL }
        requires first { from ≤ MEMORY_LABEL + load.now.address / 64 }
        requires last { (to ≡ PUBLIC_LABEL) ⊎ (load.now.address + length load.now.bytes.now ≤ 64 * (to - MEMORY_LABEL)) }
        ensures shape { OnOk result (HasShape top.level self.new) }
        ensures laid { OnOk result (LaysOver load.now.address load.now.bytes.now top.level top.index (shown top.level top.index self.old) (shown top.level top.index self.new)) }
    {
        let width = 2u32.pow(top.level);
        let start = top.index * width;
        if to <= start || start + width <= from {
            return Ok(());
        }
        if top.level == 0 {
            return self.lay_leaf(alloc, load, top.index);
        }
        self.split(alloc, top.level)?;
        if let Subtree::Pair(pair) = self {
            pair.left.lay(alloc, load, from, to, top.left())?;
            pair.right.lay(alloc, load, from, to, top.right())?;
        }
        Ok(())
    }

    // Where nothing is kept, makes a pair that keeps nothing.
    fn split(&mut self, alloc: Global, level: u32) -> Result<(), OutOfMemory>
        requires shape { HasShape level self.old }
        requires above { 0 < level }
        ensures shape { OnOk result (HasShape level self.new) }
        ensures some { OnOk result (self.new ≢ Subtree.Zeros) }
        ensures same { OnOk result ((i j : ℕ) → shown level i self.new j ≡ shown level i self.old j) }
    {
        if let Subtree::Zeros = self {
            let pair = Pair {
                digest: [0; 32],
                left: Subtree::Zeros,
                right: Subtree::Zeros,
            };
            *self = Subtree::Pair(Box::new(alloc, pair)?);
        }
        Ok(())
    }

    // Lays a load over the leaf of memory that is all there is.
    fn lay_leaf(
        &mut self,
        alloc: Global,
        load: &LoadPart<'_>,
        label: u32,
    ) -> Result<(), OutOfMemory>
        requires shape { HasShape 0 self.old }
        requires low { MEMORY_LABEL ≤ label }
        requires high { label < PUBLIC_LABEL }
        ensures shape { OnOk result (HasShape 0 self.new) }
        ensures laid { OnOk result (LaysOver load.now.address load.now.bytes.now 0 label (shown 0 label self.old) (shown 0 label self.new)) }
    {
        let start = 64 * (label - MEMORY_LABEL) as usize;
        match self {
            Subtree::Zeros => {
                let mut bytes = [0; 64];
                lay_over(&mut bytes, start, load);
                let leaf = Leaf {
                    bytes,
                    digest: [0; 32],
                };
                *self = Subtree::Leaf(Box::new(alloc, leaf)?);
            }
            Subtree::Leaf(leaf) => lay_over(&mut leaf.bytes, start, load),
            Subtree::Pair(_) => {}
        }
        Ok(())
    }

    // Lays a load over all leaves.
    fn lay_load(&mut self, alloc: Global, load: &LoadPart<'_>) -> Result<(), OutOfMemory>
        requires { HasShape 25 self.old }
        ensures shape { OnOk result (HasShape 25 self.new) }
        ensures laid { OnOk result (LaysOver load.now.address load.now.bytes.now 25 0 (shown 25 0 self.old) (shown 25 0 self.new)) }
    {
        let end = load.address as u64 + load.bytes.len() as u64;
        let from = MEMORY_LABEL + (load.address / 64).min(SPACE_PAGES);
        let to = MEMORY_LABEL + end.div_ceil(64).min(SPACE_PAGES as u64) as u32;
        self.lay(alloc, load, from, to, HIGHEST)
    }

    // Makes each digest that is kept.
    pub fn hash(&mut self, zeros: &[Digest; 26], level: u32)
        requires zeros { AreZeroDigests zeros.now }
        requires shape { HasShape level self.old }
        requires small { level ≤ 25 }
        ensures kept { IsKept level self.new }
        ensures same { (i j : ℕ) → shown level i self.new j ≡ shown level i self.old j }
    {
        match self {
            Subtree::Zeros => {}
            Subtree::Leaf(leaf) => {
                let digest = leaf_digest(&leaf.bytes);
                leaf.digest = digest;
            }
            Subtree::Pair(pair) => {
                let below = level - 1;
                pair.left.hash(zeros, below);
                pair.right.hash(zeros, below);
                let left = pair.left.digest(zeros, below);
                let right = pair.right.digest(zeros, below);
                pair.digest = pair_digest(&left, &right);
            }
        }
    }
}

impl Tree {
    /// The tree of the leaves at the start: the image's bytes in space 2, and zeros elsewhere. Leaves of
    /// zeros are not kept.
    pub fn of_image(alloc: Global, image: &Image) -> Result<Tree, OutOfMemory>
        ensures { IfOk result (λ tree. (label : ℕ) → leaves_of tree label ≡ start_map image.now label) }
    {
        let mut top = Subtree::Zeros;
        let mut left = image.loads_len();
        while left > 0 {
            left -= 1;
            if let Some(load) = image.load(left) {
                top.lay_load(alloc, &load)?;
            }
        }
        Ok(Tree::hashed(alloc, top))
    }
}
