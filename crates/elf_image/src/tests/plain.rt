// A plain program that goes by the definition: it scans all headers for each address.
use crate::tests::file_of;
use crate::{Image, ImageError, read_image};
use std::alloc::{AllocError, Global};
use std::test::Fail;

// A load's type, offset, address, file size, memory size and flags.
type Load = [u64; 6];

// The bytes from an offset on, the lowest first.
fn number(bytes: &[u8], offset: u64, count: u64) -> u64 {
    let mut number = 0u64;
    for place in 0..count {
        let byte = bytes
            .get(offset.wrapping_add(place) as usize)
            .copied()
            .unwrap_or(0);
        number |= u64::from(byte).wrapping_shl((place % 8 * 8) as u32);
    }
    number
}

fn loads_of(alloc: Global, bytes: &[u8]) -> Result<Vec<Load>, AllocError> {
    let mut loads = Vec::new(alloc);
    for place in 0..number(bytes, 44, 2) {
        let start = number(bytes, 28, 4).wrapping_add(place.wrapping_mul(32));
        let mut load = [0u64; 6];
        for (field, offset) in load.iter_mut().zip([0u64, 4, 8, 16, 20, 24]) {
            *field = number(bytes, start.wrapping_add(offset), 4);
        }
        if load[0] == 1 {
            loads.push(load)?;
        }
    }
    Ok(loads)
}

fn covers(load: &Load, address: u64) -> bool {
    load[2] <= address && address < load[2].wrapping_add(load[4])
}

fn byte(bytes: &[u8], loads: &[Load], address: u64) -> u8 {
    for load in loads {
        if load[2] <= address && address < load[2].wrapping_add(load[3]) {
            let offset = load[1].wrapping_add(address.wrapping_sub(load[2]));
            return bytes.get(offset as usize).copied().unwrap_or(0);
        }
    }
    0
}

fn word(bytes: &[u8], loads: &[Load], pc: u64) -> Option<u32> {
    for load in loads {
        let inside = load[2] <= pc && pc.wrapping_add(4) <= load[2].wrapping_add(load[3]);
        if pc % 4 == 0 && load[5] % 2 == 1 && inside {
            return Some(
                (number(bytes, load[1].wrapping_add(pc.wrapping_sub(load[2])), 4)
                    % (1 << 32)) as u32,
            );
        }
    }
    None
}

// The refusal that the file's header is the cause of.
fn header_refusal(bytes: &[u8]) -> Option<ImageError> {
    let size = bytes.len() as u64;
    let table = number(bytes, 28, 4).wrapping_add(number(bytes, 44, 2).wrapping_mul(32));
    let causes = [
        (size < 52, ImageError::Short),
        (number(bytes, 0, 4) != 0x464c_457f, ImageError::Magic),
        (number(bytes, 4, 1) != 1, ImageError::Class),
        (number(bytes, 5, 1) != 1, ImageError::Order),
        (number(bytes, 16, 2) != 2, ImageError::FileType),
        (number(bytes, 18, 2) != 243, ImageError::Machine),
        (number(bytes, 36, 4) % 2 == 1, ImageError::Compressed),
        (number(bytes, 42, 2) != 32, ImageError::HeaderSize),
        (
            number(bytes, 44, 2) > 256 || table > size,
            ImageError::HeaderTable,
        ),
    ];
    causes.iter().find(|cause| cause.0).map(|cause| cause.1)
}

// The refusal that the loads are the cause of. No file here has more than 2^20 text words.
fn load_refusal(bytes: &[u8], loads: &[Load]) -> Option<ImageError> {
    let size = bytes.len() as u64;
    let causes = [
        (
            loads.iter().any(|load| load[3] > load[4]),
            ImageError::SegmentSize,
        ),
        (
            loads
                .iter()
                .any(|load| load[1].wrapping_add(load[3]) > size),
            ImageError::Truncated,
        ),
        (
            loads
                .iter()
                .any(|load| load[2].wrapping_add(load[4]) > 1 << 29),
            ImageError::Range,
        ),
        // two share an address where one has the other's first
        (
            loads.iter().any(|load| loads.iter().filter(|other| covers(other, load[2])).count()
                > 1),
            ImageError::Overlap,
        ),
        (
            word(bytes, loads, number(bytes, 24, 4)).is_none(),
            ImageError::Entry,
        ),
    ];
    causes.iter().find(|cause| cause.0).map(|cause| cause.1)
}

// Whether the image has the bytes and the words of these loads, there and four bytes around them, and no other words.
fn agrees(image: &Image, bytes: &[u8], loads: &[Load]) -> bool {
    let mut words = 0usize;
    for load in loads {
        for address in load[2].saturating_sub(4)..load[2].wrapping_add(load[3]).wrapping_add(4) {
            let want = word(bytes, loads, address);
            let place = (address % (1 << 32)) as u32;
            if image.word_at(place) != want || image.byte(place) != byte(bytes, loads, address) {
                return false;
            }
            if want.is_some() && load[2] <= address && address < load[2].wrapping_add(load[3]) {
                words = words.wrapping_add(1);
            }
        }
    }
    words == image.text_len() && u64::from(image.entry()) == number(bytes, 24, 4)
}

// A file that is accepted, with each of its bytes changed in twenty ways.
#[test]
fn agrees_with_the_plain_program(rt: HostRuntime) -> Result<(), Fail> {
    let alloc = rt.alloc();
    let headers = [
        [1, 0xa4, 0x2008, 12, 12, 5],
        [4, 9, 9, 9, 0, 5],
        [1, 0x94, 0x1fff, 9, 9, 7],
    ];
    let file = file_of(alloc, 0x2008, &headers, 180)?;
    let values = [
        0u8, 1, 2, 3, 4, 5, 6, 7, 8, 9, 10, 16, 31, 32, 33, 52, 128, 180, 243, 255,
    ];
    for offset in 0..180usize {
        for value in values {
            let mut bytes = file.clone()?;
            if let Some(byte) = bytes.get_mut(offset) {
                *byte = value;
            }
            let loads = loads_of(alloc, &bytes)?;
            let refusal = header_refusal(&bytes).or(load_refusal(&bytes, &loads));
            match read_image(alloc, &bytes) {
                Err(error) => assert_eq!(rt; Some(error), refusal, "{offset} {value}"),
                Ok(image) => {
                    assert_eq!(rt; None, refusal, "{offset} {value}");
                    assert!(rt; agrees(&image, &bytes, &loads), "{offset} {value}");
                }
            }
        }
    }
    Ok(())
}
