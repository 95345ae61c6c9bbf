//! The pages of a segment, opened and put into the tree.
ghost use Rattle.std.specs.Prelude.{◌≡◌, IfOk, OnOk};
ghost use Rattle.std.specs.List.Sorted.{IsStrictlyIncreasing};
ghost use Rattle.page_tree.specs.Kept.{leaves_of};
ghost use Rattle.page_tree.specs.Opening.{AreLabels, siblings_of};
ghost use Rattle.page_tree.specs.Parts.{labels_of, with_pages};
ghost use Rattle.page_tree.specs.Tree.{root};

use crate::OutOfMemory;
use page_tree::{Digest, Tree};
use std::alloc::Global;
use vm_trace::Touched;

/// What opens pages between two roots.
#[derive(Debug, Drop)]
pub struct Opening {
    /// The root before.
    pub start: Digest,
    /// The root after.
    pub end: Digest,
    pub siblings: Vec<Digest>,
}

#[tactic(auto, unfolding(page_tree::specs::Parts::labels_of))]
fn labels_of(alloc: Global, pages: &[Touched]) -> Result<Vec<u32>, OutOfMemory>
    ensures { IfOk result (λ labels. labels.items ≡ labels_of pages.now) }
{
    pages.iter().map(|page| page.label).collect(alloc)
}

fn put_pages(tree: &mut Tree, pages: &[Touched]) -> Result<(), OutOfMemory>
    requires rising { IsStrictlyIncreasing (labels_of pages.now) }
    requires in_tree { AreLabels (labels_of pages.now) }
    ensures { OnOk result (leaves_of tree.new ≡ with_pages (leaves_of tree.old) pages.now) }
{
    for page in pages {
        tree.put(page.label, page.new)?;
    }
    Ok(())
}

/// Opens the pages in the tree, and puts their new bytes.
pub fn open_pages(alloc: Global, tree: &mut Tree, pages: &[Touched]) -> Result<Opening, OutOfMemory>
    requires rising { IsStrictlyIncreasing (labels_of pages.now) }
    requires in_tree { AreLabels (labels_of pages.now) }
    ensures start { IfOk result (λ opening. opening.start ≡ root (leaves_of tree.old)) }
    ensures siblings { IfOk result (λ opening. opening.siblings.items ≡ siblings_of (leaves_of tree.old) (labels_of pages.now)) }
    ensures end { IfOk result (λ opening. opening.end ≡ root (with_pages (leaves_of tree.old) pages.now)) }
    ensures leaves { OnOk result (leaves_of tree.new ≡ with_pages (leaves_of tree.old) pages.now) }
{
    let labels = labels_of(alloc, pages)?;
    let start = tree.root();
    let siblings = tree.make_opening(alloc, &labels)?;
    put_pages(tree, pages)?;
    let end = tree.root();
    Ok(Opening {
        start,
        end,
        siblings,
    })
}
