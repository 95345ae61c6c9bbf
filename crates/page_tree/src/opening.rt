// The opening of pages: the roots over their old and over their new bytes.
ghost use Rattle.std.specs.Prelude.{◌≡◌, ◌≢◌, ℕ, ◌+◌, ◌*◌, ◌^◌, ◌<◌, ◌≤◌, length, drop, slice_index, slice_index_or, replicate, IfOk, IfErr, IsOk, OnErr};
ghost use Rattle.std.specs.List.Sorted.{IsStrictlyIncreasing};
ghost use Rattle.page_tree.specs.Tree.{Leaves, root};
ghost use Rattle.page_tree.specs.Opening.{AreLabels, needed, siblings_needed, walk};
ghost use Rattle.page_tree.specs.Parts.{labels_of, old_bytes_at, new_bytes_at, IsSpan, IsParting, AreRoots, AreTreeRoots, IsOpenedBy, PagesOpenOrCollide};

use crate::hash::{leaf_digest, pair_digest};
use crate::node::{HIGHEST, Node, Places};
use crate::{Digest, Touched};
use thiserror::Error;

/// Why siblings do not open a tree.
#[derive(Clone, Copy, Debug, PartialEq, Eq, Error)]
pub enum OpeningError {
    /// There are not as many siblings as the opening needs.
    #[error("the opening needs {needed} siblings and has {given}")]
    SiblingsWrong { needed: u32, given: u32 },
}

// The first of the places whose label is `middle` or more, or their end.
pub fn parting(labels: &[u32], places: Places, middle: u32) -> usize
    requires rising { IsStrictlyIncreasing labels.now }
    requires ordered { places.from ≤ places.to }
    requires in_list { places.to ≤ length labels.now }
    ensures { IsParting labels.now places.from places.to middle result }
{
    places.from + labels[places.from..places.to].partition_point(|label| *label < middle)
}

// The number of siblings that an opening needs below a node.
fn needed_below(labels: &[u32], top: Node, places: Places) -> u32
    requires rising { IsStrictlyIncreasing labels.now }
    requires in_tree { (top.index + 1) * 2 ^ top.level ≤ 2 ^ 25 }
    requires small { top.level ≤ 25 }
    requires part { IsSpan labels.now top.level top.index places.from places.to }
    ensures { result ≡ needed labels.now top.level top.index }
{
    if places.from == places.to {
        return 1;
    }
    if top.level == 0 {
        return 0;
    }
    let at = parting(labels, places, top.middle());
    let left = needed_below(labels, top.left(), places.up_to(at));
    let right = needed_below(labels, top.right(), places.starting(at));
    left + right
}

/// How many siblings an opening of these labels needs.
pub fn sibling_count(labels: &[u32]) -> u32
    requires rising { IsStrictlyIncreasing labels.now }
    requires in_tree { AreLabels labels.now }
    ensures { result ≡ siblings_needed labels.now }
{
    let count = labels.len();
    let all = Places { from: 0, to: count };
    needed_below(labels, HIGHEST, all)
}

// The same as `parting`, at the labels of pages.
fn page_parting(pages: &[Touched], places: Places, middle: u32) -> usize
    requires rising { IsStrictlyIncreasing (labels_of pages.now) }
    requires ordered { places.from ≤ places.to }
    requires in_list { places.to ≤ length pages.now }
    ensures { IsParting (labels_of pages.now) places.from places.to middle result }
{
    places.from + pages[places.from..places.to].partition_point(|page| page.label < middle)
}

// The digests of a node over old and over new bytes, and how many siblings have been taken.
#[derive(Drop)]
struct Roots {
    old: Digest,
    new: Digest,
    taken: usize,
}

// The next sibling, or zeros where there is none.
fn sibling_at(siblings: &[Digest], taken: usize) -> Digest
    ensures { result ≡ slice_index_or siblings.now taken (replicate 32 0) }
{
    if taken < siblings.len() {
        siblings[taken]
    } else {
        [0; 32]
    }
}

impl Roots {
    // Those of a node that is the next sibling, over old and new bytes alike.
    fn of_sibling(siblings: &[Digest], taken: usize) -> Roots
        requires { taken ≤ 2 ^ 25 }
        ensures taken { result.taken ≡ taken + 1 }
        ensures old { result.old ≡ slice_index_or siblings.now taken (replicate 32 0) }
        ensures new { result.new ≡ slice_index_or siblings.now taken (replicate 32 0) }
    {
        let digest = sibling_at(siblings, taken);
        Roots {
            old: digest,
            new: digest,
            taken: taken + 1,
        }
    }
}

// The walk below a node, over old and over new bytes at once.
fn roots_below(
    pages: &[Touched],
    siblings: &[Digest],
    top: Node,
    places: Places,
    taken: usize,
) -> Roots
    requires rising { IsStrictlyIncreasing (labels_of pages.now) }
    requires in_tree { (top.index + 1) * 2 ^ top.level ≤ 2 ^ 25 }
    requires small { top.level ≤ 25 }
    requires in_list { places.to ≤ length pages.now }
    requires part { IsSpan (labels_of pages.now) top.level top.index places.from places.to }
    requires few { taken ≤ top.index * 2 ^ top.level }
    ensures taken { result.taken ≡ taken + needed (labels_of pages.now) top.level top.index }
    ensures old { result.old ≡ (walk (labels_of pages.now) (old_bytes_at pages.now) top.level top.index (drop taken siblings.now)).digest }
    ensures new { result.new ≡ (walk (labels_of pages.now) (new_bytes_at pages.now) top.level top.index (drop taken siblings.now)).digest }
{
    if places.from == places.to {
        return Roots::of_sibling(siblings, taken);
    }
    if top.level == 0 {
        let page = &pages[places.from];
        return Roots {
            old: leaf_digest(&page.old),
            new: leaf_digest(&page.new),
            taken,
        };
    }
    let at = page_parting(pages, places, top.middle());
    let (first, second) = (places.up_to(at), places.starting(at));
    let left = roots_below(pages, siblings, top.left(), first, taken);
    let right = roots_below(pages, siblings, top.right(), second, left.taken);
    Roots {
        old: pair_digest(&left.old, &right.old),
        new: pair_digest(&left.new, &right.new),
        taken: right.taken,
    }
}

/// The root over the pages' old bytes and the root over their new bytes, where the siblings open both.
pub fn roots_of(pages: &[Touched], siblings: &[Digest]) -> Result<(Digest, Digest), OpeningError>
    requires rising { IsStrictlyIncreasing (labels_of pages.now) }
    requires in_tree { AreLabels (labels_of pages.now) }
    requires few { length siblings.now < 2 ^ 32 }
    ensures roots { IfOk result (λ roots. AreRoots pages.now siblings.now roots.0 roots.1) }
    ensures wrong { IfErr result (λ e. e ≡ OpeningError.SiblingsWrong (siblings_needed (labels_of pages.now)) (length siblings.now)) }
    ensures number { OnErr result (length siblings.now ≢ siblings_needed (labels_of pages.now)) }

    // The theorem: where the first root is that of a tree, its leaves are the pages' old bytes, and the
    // second root is that of the tree with the new bytes; or two different nodes have one digest.
    ensures opens { IfOk result (λ roots. (m : Leaves) → roots.0 ≡ root m → PagesOpenOrCollide m pages.now siblings.now roots.1) }

    // And the other way: a tree's own siblings open it, and give its root and the root of the tree with the
    // new bytes.
    ensures complete { (m : Leaves) → IsOpenedBy m pages.now siblings.now → IsOk result }
    ensures of_tree { IfOk result (λ roots. (m : Leaves) → IsOpenedBy m pages.now siblings.now → AreTreeRoots m pages.now roots.0 roots.1) }
{
    let count = pages.len();
    let all = Places { from: 0, to: count };
    let roots = roots_below(pages, siblings, HIGHEST, all, 0);
    if roots.taken != siblings.len() {
        return Err(OpeningError::SiblingsWrong {
            needed: roots.taken as u32,
            given: siblings.len() as u32,
        });
    }
    let Roots { old, new, .. } = roots;
    Ok((old, new))
}
