//! The trees of two program files.

use super::is_digest;
use crate::{Digest, Tree};
use elf_image::{Image, read_image};
use std::alloc::Global;
use std::test::Fail;

/// The words 00700293, 0002A00B, 0000000B.
const WORDS: [u8; 12] = [
    0x93, 0x02, 0x70, 0x00, 0x0b, 0xa0, 0x02, 0x00, 0x0b, 0x00, 0x00, 0x00,
];

/// A load: its address, its offset and its size in the file, and its size in memory.
type Load = (u32, u32, u32, u32);

/// An ELF file whose entry is 0x1000, with two loads and these bytes from offset 116 on.
fn file_of(
    alloc: Global,
    loads: &[Load; 2],
    bytes: &[u8],
) -> Result<Vec<u8>, std::alloc::AllocError> {
    let mut file = Vec::new(alloc);
    file.extend_from_slice(&[0x7f, b'E', b'L', b'F', 1, 1, 1, 0, 0, 0, 0, 0, 0, 0, 0, 0])?;
    file.extend_from_slice(&[2, 0, 243, 0, 1, 0, 0, 0, 0, 0x10, 0, 0, 52, 0, 0, 0])?;
    file.extend_from_slice(&[0, 0, 0, 0, 0, 0, 0, 0, 52, 0, 32, 0, 2, 0, 0, 0])?;
    file.extend_from_slice(&[0, 0, 0, 0])?;
    for (address, offset, size, memory) in loads {
        for field in [1, *offset, *address, *address, *size, *memory, 5, 4] {
            file.extend_from_slice(&field.to_le_bytes())?;
        }
    }
    file.extend_from_slice(bytes)?;
    Ok(file)
}

fn image_of(alloc: Global, loads: &[Load; 2], bytes: &[u8]) -> Result<Option<Image>, Fail> {
    let file = file_of(alloc, loads, bytes)?;
    Ok(read_image(alloc, &file).ok())
}

/// Three words, and a load of which the file gives nothing.
pub fn first_image(alloc: Global) -> Result<Image, Fail> {
    let loads = [(0x1000, 116, 12, 12), (0x2000, 116, 0, 0x1000)];
    Ok(image_of(alloc, &loads, &WORDS)?.ok_or("the first file is refused")?)
}

// A leaf of zeros, and the node over two of them.
const ZERO_LEAF: &str = "f5a5fd42d16a20302798ef6ed309979b43003d2320d9f0e8ea9831a92759fb4b";

const ZERO_PAIR: &str = "db56114e00fdd4c1f85c892bf35ac9a89289aaecb1ebd0a96cde606a748b5d71";

#[test]
fn trees_of_images(rt: HostRuntime) -> Result<(), Fail> {
    let alloc = rt.alloc();
    let tree = Tree::of_image(alloc, &first_image(alloc)?)?;
    let root = "a39f03217b103601f86f79a97f7175e72d7534818748d0140a22936573798f5f";
    assert!(rt; is_digest(&tree.root(), root));
    let path: [Digest; 25] = tree.public_path();
    assert!(rt; is_digest(&path[0], ZERO_LEAF));
    assert!(rt; is_digest(&path[1], ZERO_PAIR));
    // two loads that meet in one leaf, the first over three leaves
    let mut bytes = Vec::new(alloc);
    for byte in 1..101 {
        bytes.push(byte)?;
    }
    bytes.extend_from_slice(&WORDS)?;
    let image = image_of(
        alloc,
        &[(0x1054, 216, 12, 12), (0xff0, 116, 100, 100)],
        &bytes,
    )?
    .ok_or("the second file is refused")?;
    let tree = Tree::of_image(alloc, &image)?;
    let root = "d7a5e8a1dc9189721fe05fbf17f034d0bed55ab0bb0ff53029183f909c54e1ce";
    assert!(rt; is_digest(&tree.root(), root));
    Ok(())
}
