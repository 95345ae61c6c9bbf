//! Trees after many puts.

use super::images::first_image;
use crate::Tree;
use std::alloc::Global;
use std::test::Fail;

const PUTS: u32 = 40_000;

/// The page of a label counted from the first of memory: 64 bytes alike.
fn page_of(place: u32) -> [u8; 64] {
    [(place % 251) as u8; 64]
}

/// The tree of the first image after the puts, lowest label first, with the root after each of them.
fn rising(alloc: Global) -> Result<(Tree, usize), Fail> {
    let mut tree = Tree::of_image(alloc, &first_image(alloc)?)?;
    let mut changes = 0usize;
    let mut root = tree.root();
    for place in 0..PUTS {
        tree.put(16_777_216 + place, page_of(place))?;
        let next = tree.root();
        if next != root {
            changes = changes.wrapping_add(1);
        }
        root = next;
    }
    Ok((tree, changes))
}

/// The same, highest label first.
fn falling(alloc: Global) -> Result<Tree, Fail> {
    let mut tree = Tree::of_image(alloc, &first_image(alloc)?)?;
    for place in (0..PUTS).rev() {
        tree.put(16_777_216 + place, page_of(place))?;
    }
    Ok(tree)
}

#[test]
fn puts_in_both_orders(rt: HostRuntime) -> Result<(), Fail> {
    let alloc = rt.alloc();
    let (tree, changes) = rising(alloc)?;
    // 160 of the pages are zeros, where zeros stood
    assert_eq!(rt; changes, 39_840);
    assert!(rt; tree.root() == falling(alloc)?.root());
    Ok(())
}

#[test]
fn a_put_and_its_opposite(rt: HostRuntime) -> Result<(), Fail> {
    let alloc = rt.alloc();
    let mut tree = Tree::of_image(alloc, &first_image(alloc)?)?;
    let root = tree.root();
    tree.put(16_777_300, [1; 64])?;
    assert!(rt; tree.root() != root);
    tree.put(16_777_300, [0; 64])?;
    assert!(rt; tree.root() == root);
    let opening = tree.make_opening(alloc, &[])?;
    assert!(rt; opening.as_slice() == [root].as_slice());
    Ok(())
}
