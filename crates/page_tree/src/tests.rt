//! Roots, openings and paths against digests that Python's hashlib gave, and against the definitions
//! computed plainly.

mod images;
mod kept;
mod plain;

use super::*;
use std::alloc::Global;
use std::test::Fail;

/// Leaves by their label and their first byte; each next byte is one more.
type Kept = &'static [(u32, u8)];

struct Map {
    leaves: Kept,
    root: &'static str,
    /// The root where the page at label 16777300 counts up from 77.
    changed: &'static str,
}

const MAPS: [Map; 4] = [
    Map {
        leaves: &[],
        root: "619e312724bb6d7c3153ed9de791d764a366b389af13c58bf8a8d90481a46765",
        changed: "c2a95c6fda90a7e0617d04dd9e981ce73eeb32f50581da53123ae4bff41c79e7",
    },
    Map {
        leaves: &[(16777300, 1)],
        root: "0e4d04ecf2c6d475dec9752d955821cd91219401430ed5cefb0c311513c01883",
        changed: "c2a95c6fda90a7e0617d04dd9e981ce73eeb32f50581da53123ae4bff41c79e7",
    },
    Map {
        leaves: &[(25165824, 7), (16777300, 1)],
        root: "af64d8d988b5a21075e6f831733d5b48afe616b48693b164a3a4a1c3652c0a3d",
        changed: "6ee048da05e22d1ba9d657a24168ff3fb893d8b831725fe33c6716cd1bd041ea",
    },
    Map {
        leaves: &[(33554431, 9), (8388609, 0), (0, 3), (8388608, 200)],
        root: "b639db8ec7b30711c557a8920edbedeca21957c571415ce797412962ee3cc3a3",
        changed: "66fa4e6a9373864351044b60ea92af4b8d4be31af88d055486114e8e5639c71d",
    },
];

/// A page whose bytes count up from one.
fn page(first: u8) -> [u8; 64] {
    let mut bytes = [first; 64];
    let mut next = first;
    for byte in bytes.iter_mut() {
        *byte = next;
        next = next.wrapping_add(1);
    }
    bytes
}

fn tree_of(alloc: Global, leaves: &[(u32, u8)]) -> Result<Tree, OutOfMemory> {
    let mut tree = Tree::new(alloc);
    for (label, first) in leaves {
        // the labels of these tests are all in the tree
        if *label < 1 << 25 {
            tree.put(*label, page(*first))?;
        }
    }
    Ok(tree)
}

/// Whether these digits spell the digest.
fn is_digest(digest: &Digest, digits: &str) -> bool {
    let digits = digits.as_bytes();
    let names = b"0123456789abcdef";
    for (place, byte) in digest.iter().enumerate() {
        let high = names.get((*byte / 16) as usize);
        let low = names.get((*byte % 16) as usize);
        if digits.get(place.wrapping_mul(2)) != high {
            return false;
        }
        if digits.get(place.wrapping_mul(2).wrapping_add(1)) != low {
            return false;
        }
    }
    digits.len() == 64
}

#[test]
fn roots_of_small_maps(rt: HostRuntime) -> Result<(), Fail> {
    for (i, map) in MAPS.iter().enumerate() {
        let mut tree = tree_of(rt.alloc(), map.leaves)?;
        assert!(rt; is_digest(&tree.root(), map.root), "map {i}");
        let public = tree.leaf(PUBLIC_LABEL);
        let path = tree.public_path();
        assert!(rt; is_digest(&path_root(&public, &path), map.root), "map {i}");
        // a put, and then what stood there again
        let old = tree.leaf(16_777_300);
        tree.put(16_777_300, page(77))?;
        assert!(rt; is_digest(&tree.root(), map.changed), "map {i}");
        tree.put(16_777_300, old)?;
        assert!(rt; is_digest(&tree.root(), map.root), "map {i}");
    }
    Ok(())
}

#[test]
fn siblings_needed(rt: HostRuntime) {
    assert_eq!(rt; sibling_count(&[]), 1);
    assert_eq!(rt; sibling_count(&[0]), 25);
    assert_eq!(rt; sibling_count(&[33554431]), 25);
    assert_eq!(rt; sibling_count(&[8388608, 8388609]), 24);
    assert_eq!(rt; sibling_count(&[16777300, 25165824]), 47);
    assert_eq!(rt; sibling_count(&[0, 1, 2, 3, 33554431]), 46);
}
