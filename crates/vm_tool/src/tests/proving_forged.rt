// Files that `prove` wrote, with some numbers changed, and `prove` on hosts that fail.
use super::proving::written;
use super::table_files::{accepts, changed, push_numbers, rejects};
use super::{PUBLIC_SEVEN, elf_of, host_of, words_of};
use crate::answer::Status;
use crate::tool::openvm;
use std::alloc::{AllocError, Global};
use std::process::Abort;
use std::test::Fail;

// ADDI x5, x0, 255; ADDI x5, x5, 1; ADDI x5, x0, 7; terminate 0
const THREE_SUMS: [u32; 4] = [0x0FF0_0293, 0x0012_8293, 0x0070_0293, 0x0000_000B];

/// A place in the file, the numbers that stand there, and those that are put there.
type Edit = (usize, &'static [u32], &'static [u32]);

// Limbs of 256 and of zeros for the word 256. A xor of its second limb is used no more.
const LIMB_OF_256: [Edit; 4] = [
    // in the list of xors, the entry of (1,1,0), and how many there are
    (787, &[257, 1], &[]),
    (775, &[4], &[3]),
    // the word that the third row finds, and the one that the second writes
    (519, &[0, 1, 0, 0], &[256, 0, 0, 0]),
    (375, &[0, 1, 0, 0], &[256, 0, 0, 0]),
];

// An access that follows itself: the time between is -1. The next access of its block follows the page.
const FOLLOWS_ITSELF: [Edit; 3] = [
    // in the list of ranges, the entries of 16 bits
    (
        463,
        &[65_535, 1, 65_536, 1, 65_537, 2, 65_540, 1],
        &[65_536, 1, 65_537, 1, 65_538, 1, 65_540, 1],
    ),
    // the time before and the time between of the reveal's first access, and of the sum's
    (359, &[1, 2], &[0, 3]),
    (231, &[0, 0], &[1, 2_013_265_920]),
];

const ANOTHER_SUM: [Edit; 1] = [(215, &[7], &[8])];

// a program, edits of its file of one segment, from its end to its start, and the reason
const FORGED: [(&[u32], &[Edit], &str); 3] = [
    (&THREE_SUMS, &LIMB_OF_256, "unbalanced 0 3 (256,256,0) 1 0"),
    (
        &PUBLIC_SEVEN,
        &FOLLOWS_ITSELF,
        "unbalanced 0 4 (2013265920,16) 1 0",
    ),
    (&PUBLIC_SEVEN, &ANOTHER_SUM, "row 0 0 0 10"),
];

fn bytes_of(alloc: Global, numbers: &[u32]) -> Result<Vec<u8>, AllocError> {
    let mut bytes = Vec::new(alloc);
    push_numbers(&mut bytes, numbers)?;
    Ok(bytes)
}

// The bytes from a place on, so many.
fn part(alloc: Global, file: &[u8], at: usize, count: usize) -> Result<Vec<u8>, AllocError> {
    file.iter().skip(at).take(count).copied().collect(alloc)
}

#[test]
fn forged_numbers(rt: HostRuntime) -> Result<(), Fail> {
    let alloc = rt.alloc();
    for (words, edits, reason) in FORGED {
        let mut file = written(&rt, words, &[], 16_384)?;
        for (at, old, new) in edits {
            let old = bytes_of(alloc, old)?;
            assert_eq!(rt;
                part(alloc, &file, *at, old.len())?,
                old,
                "{reason} at {at}"
            );
            file = changed(alloc, &file, *at, old.len(), &bytes_of(alloc, new)?)?;
        }
        rejects(&rt, words, &file, reason)?;
    }
    Ok(())
}

// Two parts of a file, of which the second begins where the first ends, are exchanged.
fn exchanged(
    alloc: Global,
    file: &[u8],
    first: usize,
    second: usize,
    end: usize,
) -> Result<Vec<u8>, AllocError> {
    let mut bytes = part(alloc, file, 0, first)?;
    bytes.extend_from_slice(&part(alloc, file, second, end.saturating_sub(second))?)?;
    bytes.extend_from_slice(&part(alloc, file, first, second.saturating_sub(first))?)?;
    bytes.extend_from_slice(&part(alloc, file, end, file.len())?)?;
    Ok(bytes)
}

#[test]
fn exchanged_parts(rt: HostRuntime) -> Result<(), Fail> {
    let alloc = rt.alloc();
    // rows of a table stand in any order
    let sums = written(&rt, &THREE_SUMS, &[], 16_384)?;
    accepts(&rt, &THREE_SUMS, &sums, 0)?;
    let rows = exchanged(alloc, &sums, 107, 267, 427)?;
    assert!(rt; rows != sums);
    accepts(&rt, &THREE_SUMS, &rows, 0)?;
    // segments stand in the order of the run
    let seven = written(&rt, &PUBLIC_SEVEN, &[], 1)?;
    let end = seven.len().saturating_sub(866);
    let segments = exchanged(alloc, &seven, 12, 1335, end)?;
    rejects(&rt, &PUBLIC_SEVEN, &segments, "root-start 0")?;
    // the first of them says that it is the last
    let early = changed(alloc, &seven, 25, 1, &[1])?;
    rejects(&rt, &PUBLIC_SEVEN, &early, "not-terminate 0")
}

// Each call of the host fails in turn. Five open and read the two files. Then the output is created, the head, two
// segments and the claim are written, it is finished, and the line is said.
#[test]
fn each_call_of_prove_fails(rt: HostRuntime) -> Result<(), Fail> {
    let alloc = rt.alloc();
    let whole = written(&rt, &PUBLIC_SEVEN, &[], 1)?;
    let elf = elf_of(alloc, &PUBLIC_SEVEN)?;
    let words = words_of(alloc, "prove elf second out 1")?;
    for number in 0..13 {
        let mut host = host_of(alloc, &elf, &[], &[number])?;
        let status = openvm(alloc, &words, &mut host);
        let last = number > 11;
        assert_eq!(rt; status == Status::Done, last, "{number}");
        assert_eq!(rt; status == Status::HostFault, !last, "{number}");
        assert_eq!(rt; host.said().is_empty(), !last, "{number}");
        let bytes = host.into_written();
        assert!(rt; whole.starts_with(&bytes), "{number}");
        assert_eq!(rt; bytes.is_empty(), number < 7, "{number}");
        assert_eq!(rt; bytes.len() == whole.len(), number > 9, "{number}");
    }
    Ok(())
}
