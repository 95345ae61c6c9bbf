mod forms;
mod plain;

use crate::{ImageError, read_image};
use std::alloc::{AllocError, Global};
use std::test::Fail;

const PT_LOAD: u32 = 1;

// A program header: type, offset, address, file size, memory size, flags.
type Header = [u32; 6];

fn put(bytes: &mut [u8], offset: usize, values: &[u8]) {
    for (place, value) in values.iter().enumerate() {
        if let Some(byte) = bytes.get_mut(offset.wrapping_add(place)) {
            *byte = *value;
        }
    }
}

// A file with these program headers behind its header. Each byte that is in none of them is the lowest byte of its
// offset.
fn file_of(
    alloc: Global,
    entry: u32,
    headers: &[Header],
    length: usize,
) -> Result<Vec<u8>, AllocError> {
    let mut bytes = vec![in alloc; 0u8; length]?;
    for (offset, byte) in bytes.iter_mut().enumerate() {
        *byte = (offset % 256) as u8;
    }
    put(
        &mut bytes,
        0,
        &[0x7f, b'E', b'L', b'F', 1, 1, 1, 0, 0, 0, 0, 0, 0, 0, 0, 0],
    );
    put(&mut bytes, 16, &[2, 0, 243, 0, 1, 0, 0, 0]);
    put(&mut bytes, 24, &entry.to_le_bytes());
    put(
        &mut bytes,
        28,
        &[52, 0, 0, 0, 0, 0, 0, 0, 0, 0, 0, 0, 52, 0, 32, 0],
    );
    put(
        &mut bytes,
        44,
        &[
            (headers.len() % 256) as u8,
            (headers.len() / 256 % 256) as u8,
            0,
            0,
            0,
            0,
            0,
            0,
        ],
    );
    for (place, header) in headers.iter().enumerate() {
        let offset = place.wrapping_mul(32).wrapping_add(52);
        let [kind, start, address, file_size, size, flags] = *header;
        let fields = [kind, start, address, !address, file_size, size, flags, 4];
        for (field, value) in fields.iter().enumerate() {
            put(
                &mut bytes,
                offset.wrapping_add(field.wrapping_mul(4)),
                &value.to_le_bytes(),
            );
        }
    }
    Ok(bytes)
}

// The refusal, if there is one.
fn refusal(alloc: Global, bytes: &[u8]) -> Option<ImageError> {
    match read_image(alloc, bytes) {
        Ok(_) => None,
        Err(error) => Some(error),
    }
}

// 256 loads over the same 0x4000 bytes, which are 2^20 text words.
fn full_file(alloc: Global) -> Result<Vec<u8>, AllocError> {
    let mut headers = Vec::new(alloc);
    for place in 0..256u32 {
        headers.push([PT_LOAD, 0, 0x10_0000 + 0x8000 * place, 0x4000, 0x5000, 5])?;
    }
    file_of(alloc, 0x10_0000, &headers, 0x4004)
}

// Each refusal but the first, in order, with a byte that is its cause in the file of 256 loads.
fn causes() -> [(ImageError, usize, u8); 14] {
    [
        (ImageError::Magic, 3, b'G'),
        (ImageError::Class, 4, 2),
        (ImageError::Order, 5, 2),
        (ImageError::FileType, 16, 3),
        (ImageError::Machine, 18, 183),
        (ImageError::Compressed, 36, 1),
        (ImageError::HeaderSize, 42, 40),
        // 257 headers
        (ImageError::HeaderTable, 44, 1),
        // the second load's memory size is 0x3f00
        (ImageError::SegmentSize, 105, 0x3f),
        // the second load's last byte is at 0x4004
        (ImageError::Truncated, 88, 5),
        // the last load's address is 0x208f8000
        (ImageError::Range, 8223, 0x20),
        // the first load's memory size is 0x8100
        (ImageError::Overlap, 73, 0x81),
        // the third load has a word more
        (ImageError::TextSize, 132, 4),
        // the entry is behind the first load's last word
        (ImageError::Entry, 25, 0x40),
    ]
}

#[test]
fn each_refusal_in_its_place(rt: HostRuntime) -> Result<(), Fail> {
    let alloc = rt.alloc();
    let file = full_file(alloc)?;
    assert_eq!(rt; refusal(alloc, &file), None);
    let causes = causes();
    let mut worst = file.clone()?;
    let mut last = None;
    for (error, offset, byte) in causes.iter().rev() {
        let mut bytes = file.clone()?;
        put(&mut bytes, *offset, &[*byte]);
        assert_eq!(rt; refusal(alloc, &bytes), Some(*error), "alone");
        // with the cause that comes next, and with all that come later
        if let Some((_, offset, byte)) = last {
            put(&mut bytes, offset, &[byte]);
            assert_eq!(rt; refusal(alloc, &bytes), Some(*error), "with its neighbour");
        }
        put(&mut worst, *offset, &[*byte]);
        assert_eq!(rt;
            refusal(alloc, &worst),
            Some(*error),
            "with all that come later"
        );
        last = Some((*error, *offset, *byte));
    }
    if let (Some(bad), Some(good)) = (worst.get(..51), file.get(..51)) {
        assert_eq!(rt; refusal(alloc, bad), Some(ImageError::Short));
        assert_eq!(rt; refusal(alloc, good), Some(ImageError::Short));
    }
    // a table that ends past 2^32
    let mut bytes = file.clone()?;
    put(&mut bytes, 28, &[0xe0, 0xff, 0xff, 0xff]);
    assert_eq!(rt; refusal(alloc, &bytes), Some(ImageError::HeaderTable));
    assert_eq!(rt; refusal(alloc, &[]), Some(ImageError::Short));
    Ok(())
}
