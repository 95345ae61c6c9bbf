use crate::{LINKED_ELF, SHA_ELF, elf_of};
use elf_image::read_image;
use std::test::Fail;

// A file of two words, byte by byte.
#[rattlefmt::skip]
const TWO_WORDS: [u8; 92] = [
    0x7f, 0x45, 0x4c, 0x46, 1, 1, 1, 0, 0, 0, 0, 0, 0, 0, 0, 0,
    2, 0, 0xf3, 0, 1, 0, 0, 0, 0x00, 0x20, 0x01, 0x00, 52, 0, 0, 0,
    0, 0, 0, 0, 0, 0, 0, 0, 52, 0, 32, 0, 1, 0, 0, 0, 0, 0, 0, 0,
    1, 0, 0, 0, 84, 0, 0, 0, 0x00, 0x20, 0x01, 0x00, 0x00, 0x20, 0x01, 0x00,
    8, 0, 0, 0, 8, 0, 0, 0, 5, 0, 0, 0, 4, 0, 0, 0,
    0xb7, 0x22, 0x00, 0x00, 0x0b, 0x00, 0x00, 0x80,
];

#[test]
fn writes_the_layout(rt: HostRuntime) -> Result<(), Fail> {
    let alloc = rt.alloc();
    let file = elf_of(alloc, 0x12000, &[0x0000_22b7, 0x8000_000b])?;
    assert_eq!(rt; file.as_slice(), TWO_WORDS.as_slice());
    let image = read_image(alloc, &file)?;
    assert_eq!(rt; image.word_at(0x12004), Some(0x8000_000b));
    Ok(())
}

#[test]
fn reads_the_sha_program(rt: HostRuntime) -> Result<(), Fail> {
    let alloc = rt.alloc();
    let image = read_image(alloc, &SHA_ELF)?;
    assert_eq!(rt; image.entry(), 0x1000);
    assert_eq!(rt; (image.text_len(), image.loads_len()), (20, 2));
    // LUI x5, 2; the block compression; LW x7, 4(x5); REVEAL x7 at 28(x0); terminate
    let words = [
        (0x1000, 0x0000_22b7),
        (0x1008, 0x0203_428b),
        (0x1014, 0x0042_a383),
        (0x1048, 0x01c3_a00b),
        (0x104c, 11),
    ];
    for (pc, word) in words {
        assert_eq!(rt; image.word_at(pc), Some(word), "{pc}");
    }
    let bytes = [
        (0x2000, 0x67),
        (0x201f, 0x5b),
        (0x2020, b'a'),
        (0x2023, 0x80),
        (0x205e, 0),
        (0x205f, 24),
        (0x2060, 0),
    ];
    for (address, byte) in bytes {
        assert_eq!(rt; image.byte(address), byte, "{address}");
    }
    Ok(())
}

#[test]
fn reads_the_linked_program(rt: HostRuntime) -> Result<(), Fail> {
    let alloc = rt.alloc();
    let image = read_image(alloc, &LINKED_ELF)?;
    assert_eq!(rt; image.entry(), 0x11134);
    assert_eq!(rt; (image.text_len(), image.loads_len()), (10, 3));
    let words = [
        (0x11134, Some(0x0020_0137)),
        (0x11158, Some(11)),
        (0x1115c, None),
        (0x10000, None),
        (0x12160, None),
    ];
    for (pc, word) in words {
        assert_eq!(rt; image.word_at(pc), word, "{pc}");
    }
    let bytes = [
        (0x10001, b'E'),
        (0x10133, 0),
        (0x12160, 42),
        (0x12161, 0),
        (0x112_15f, 0),
    ];
    for (address, byte) in bytes {
        assert_eq!(rt; image.byte(address), byte, "{address}");
    }
    Ok(())
}
