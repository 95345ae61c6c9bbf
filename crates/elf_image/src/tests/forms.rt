// The forms of files that linkers write.
use crate::tests::{Header, file_of};
use crate::{Image, ImageError, read_image};
use std::alloc::{AllocError, Global};
use std::test::Fail;

// A file of 256 bytes with these headers, and what is to be read of it: its loads by address, file size and memory
// size, and its text; or why it is refused.
#[derive(Clone, Copy)]
struct Case {
    name: &'static str,
    entry: u32,
    headers: &'static [Header],
    loads: &'static [(u32, usize, u32)],
    text: &'static [(u32, u32)],
    refusal: Option<ImageError>,
}

fn cases() -> [Case; 13] {
    [
        Case {
            name: "headers that are no loads",
            entry: 0x1000,
            headers: &[
                [0x7000_0003, 0, 0, 0x30, 0, 4],
                [1, 0xe0, 0x1000, 4, 4, 5],
                [0x6474_e551, 0, 0, 9, 0, 6],
            ],
            loads: &[(0x1000, 4, 4)],
            text: &[(0x1000, 0xe3e2_e1e0)],
            refusal: None,
        },
        Case {
            name: "a load of size 0 in another",
            entry: 0x1000,
            headers: &[[1, 0xe0, 0x1000, 4, 8, 5], [1, 0xf0, 0x1002, 0, 0, 4]],
            loads: &[(0x1000, 4, 8)],
            text: &[(0x1000, 0xe3e2_e1e0)],
            refusal: None,
        },
        Case {
            name: "a load of size 0 at the file's end",
            entry: 0x1000,
            headers: &[[1, 0x100, 0x1000, 0, 0, 5], [1, 0xe0, 0x1000, 4, 4, 5]],
            loads: &[(0x1000, 4, 4)],
            text: &[(0x1000, 0xe3e2_e1e0)],
            refusal: None,
        },
        Case {
            name: "a load of size 0 past the file's end",
            entry: 0x1000,
            headers: &[[1, 0xe0, 0x1000, 4, 4, 5], [1, 0x101, 0, 0, 0, 4]],
            loads: &[],
            text: &[],
            refusal: Some(ImageError::Truncated),
        },
        Case {
            name: "bss before data, in a page with it",
            entry: 0x1000,
            headers: &[
                [1, 0xe0, 0x1000, 8, 8, 5],
                [1, 0xf0, 0x2020, 0, 0x20, 6],
                [1, 0xe8, 0x2000, 8, 0x20, 6],
            ],
            loads: &[(0x1000, 8, 8), (0x2000, 8, 0x20), (0x2020, 0, 0x20)],
            text: &[(0x1000, 0xe3e2_e1e0), (0x1004, 0xe7e6_e5e4)],
            refusal: None,
        },
        Case {
            name: "the header in a load, which is unaligned and may be written and executed",
            entry: 0x1_0004,
            headers: &[[1, 1, 0x1_0001, 11, 20, 7]],
            loads: &[(0x1_0001, 11, 20)],
            text: &[(0x1_0004, 0x0001_0101), (0x1_0008, 0)],
            refusal: None,
        },
        Case {
            name: "strings behind the text, and an entry that is the last word",
            entry: 0x100c,
            headers: &[[1, 0xe1, 0x1000, 18, 18, 5]],
            loads: &[(0x1000, 18, 18)],
            text: &[
                (0x1000, 0xe4e3_e2e1),
                (0x1004, 0xe8e7_e6e5),
                (0x1008, 0xeceb_eae9),
                (0x100c, 0xf0ef_eeed),
            ],
            refusal: None,
        },
        Case {
            name: "text from the first address to the last",
            entry: 0,
            headers: &[[1, 0xf8, 0x1fff_fff8, 8, 8, 1], [1, 0xe0, 0, 4, 4, 5]],
            loads: &[(0, 4, 4), (0x1fff_fff8, 8, 8)],
            text: &[
                (0, 0xe3e2_e1e0),
                (0x1fff_fff8, 0xfbfa_f9f8),
                (0x1fff_fffc, 0xfffe_fdfc),
            ],
            refusal: None,
        },
        Case {
            name: "a word across two loads",
            entry: 0x1008,
            headers: &[[1, 0xe6, 0x1006, 6, 6, 5], [1, 0xe0, 0x1000, 6, 6, 5]],
            loads: &[(0x1000, 6, 6), (0x1006, 6, 6)],
            text: &[(0x1000, 0xe3e2_e1e0), (0x1008, 0xebea_e9e8)],
            refusal: None,
        },
        Case {
            name: "an entry in a word across two loads",
            entry: 0x1004,
            headers: &[[1, 0xe6, 0x1006, 6, 6, 5], [1, 0xe0, 0x1000, 6, 6, 5]],
            loads: &[],
            text: &[],
            refusal: Some(ImageError::Entry),
        },
        Case {
            name: "an overlap of the first and the last",
            entry: 0x1000,
            headers: &[
                [1, 0xe0, 0x1000, 4, 8, 5],
                [1, 0xe0, 0x3000, 4, 4, 4],
                [1, 0xe0, 0x1007, 0, 1, 4],
            ],
            loads: &[],
            text: &[],
            refusal: Some(ImageError::Overlap),
        },
        Case {
            name: "sums past 2^32",
            entry: 0x1000,
            headers: &[
                [1, 0xe0, 0x1000, 4, 4, 5],
                [1, 0xffff_ffff, 0x2000, 1, 1, 4],
                [1, 0, 0xffff_ffff, 1, 1, 4],
            ],
            loads: &[],
            text: &[],
            refusal: Some(ImageError::Truncated),
        },
        Case {
            name: "an address past 2^32",
            entry: 0x1000,
            headers: &[[1, 0xe0, 0x1000, 4, 4, 5], [1, 0, 0xffff_ffff, 1, 1, 4]],
            loads: &[],
            text: &[],
            refusal: Some(ImageError::Range),
        },
    ]
}

fn has_loads(image: &Image, loads: &[(u32, usize, u32)]) -> bool {
    for (place, want) in loads.iter().enumerate() {
        match image.load(place) {
            Some(load) if (load.address, load.bytes.len(), load.size) == *want => {}
            _ => return false,
        }
    }
    image.loads_len() == loads.len() && image.load(loads.len()).is_none()
}

fn has_text(image: &Image, text: &[(u32, u32)]) -> bool {
    for (place, want) in text.iter().enumerate() {
        match image.text(place) {
            Some(word) if (word.pc, word.word) == *want => {}
            _ => return false,
        }
    }
    image.text_len() == text.len() && image.text(text.len()).is_none()
}

fn is_as_expected(alloc: Global, case: &Case) -> Result<bool, AllocError> {
    let bytes = file_of(alloc, case.entry, case.headers, 256)?;
    Ok(match read_image(alloc, &bytes) {
        Err(error) => case.refusal == Some(error),
        Ok(image) => {
            case.refusal.is_none()
                && image.entry() == case.entry
                && has_loads(&image, case.loads)
                && has_text(&image, case.text)
        }
    })
}

#[test]
fn forms_of_real_files(rt: HostRuntime) -> Result<(), Fail> {
    for case in cases() {
        assert!(rt; is_as_expected(rt.alloc(), &case)?, "{}", case.name);
    }
    Ok(())
}
