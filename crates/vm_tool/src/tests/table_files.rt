// Table files that `check` accepts and rejects, each with the line that is said.
use super::{elf_of, host_of, words_of};
use crate::answer::Status;
use crate::tool::openvm;
use elf_image::read_image;
use page_tree::{Digest, Tree};
use std::alloc::{AllocError, Global};
use std::process::Abort;
use std::test::Fail;
use vm_host::MemoryHost;
use vm_trace::REGISTER_LABEL;

// terminate 7, which ends at once
const EXIT_SEVEN: [u32; 1] = [0x0070_000B];

// ADDI x5, x0, 7; terminate 0
const SUM: [u32; 2] = [0x0070_0293, 0x0000_000B];

// the row of the sum: its pc, its time and its flag; its registers and its immediate's use; the immediate, the words that
// are read and written, and the times of its accesses
const SUM_ROW: [u32; 40] = [
    4096, 1, 1, 0, 0, 0, 0, 5, 0, 0, 1, 7, 0, 0, 0, 0, 0, 0, 0, 7, 0, 0, 0, 0, 0, 0, 0, 7, 0, 0, 0,
    0, 0, 0, 0, 0, 0, 0, 2, 0,
];

// its counts: of the program, of two xors, of three ranges, and none of SHA's constants
const SUM_COUNTS: [u32; 16] = [1, 0, 1, 2, 0, 3, 1799, 1, 3, 255, 2, 65535, 1, 65537, 1, 0];

// the final times of the blocks of registers
const SUM_TIMES: [u32; 16] = [1, 0, 0, 0, 0, 3, 0, 0, 0, 0, 0, 0, 0, 0, 0, 0];

pub(super) fn push_numbers(bytes: &mut Vec<u8>, numbers: &[u32]) -> Result<(), AllocError> {
    for number in numbers {
        bytes.extend_from_slice(&number.to_le_bytes())?;
    }
    Ok(())
}

fn push_digests(bytes: &mut Vec<u8>, digests: &[Digest]) -> Result<(), AllocError> {
    for digest in digests {
        bytes.extend_from_slice(digest)?;
    }
    Ok(())
}

fn tree_of(alloc: Global, words: &[u32]) -> Result<Tree, Fail> {
    let image = read_image(alloc, &elf_of(alloc, words)?)?;
    Ok(Tree::of_image(alloc, &image)?)
}

// The head, and what stands first in a segment that ends.
fn push_front(
    bytes: &mut Vec<u8>,
    connector: [u32; 3],
    roots: [Digest; 2],
) -> Result<(), AllocError> {
    bytes.extend_from_slice(b"RVTABLES")?;
    push_numbers(bytes, &[1])?;
    bytes.push(1)?;
    push_numbers(bytes, &connector)?;
    bytes.push(1)?;
    push_digests(bytes, &roots)
}

// The mark that no segment follows, and the claim.
fn push_end(bytes: &mut Vec<u8>, code: u8, tree: &Tree) -> Result<(), AllocError> {
    bytes.extend_from_slice(&[0, code])?;
    bytes.extend_from_slice(&[0; 64])?;
    push_digests(bytes, &tree.public_path())
}

// The file of no steps, which ends at the program's first word with a code.
fn resting_file(alloc: Global, words: &[u32], code: u8) -> Result<Vec<u8>, Fail> {
    let tree = tree_of(alloc, words)?;
    let root = tree.root();
    let mut bytes = Vec::new(alloc);
    push_front(&mut bytes, [4096, 4096, 1], [root, root])?;
    bytes.extend_from_slice(&[0; 17])?;
    // four lists of no entries, no page, and one sibling
    push_numbers(&mut bytes, &[0, 0, 0, 0, 0, 1])?;
    push_digests(&mut bytes, &[root])?;
    push_end(&mut bytes, code, &tree)?;
    Ok(bytes)
}

// The file of the sum: one row of the ALU over the page of registers, with these final times and this row.
fn sum_file(alloc: Global, row: &[u32; 40], times: &[u32; 16]) -> Result<Vec<u8>, Fail> {
    let mut tree = tree_of(alloc, &SUM)?;
    let start = tree.root();
    let siblings = tree.make_opening(alloc, &[REGISTER_LABEL])?;
    let mut page = [0; 64];
    page[20] = 7;
    tree.put(REGISTER_LABEL, page)?;
    let mut bytes = Vec::new(alloc);
    push_front(&mut bytes, [4096, 4100, 4], [start, tree.root()])?;
    bytes.push(1)?;
    bytes.extend_from_slice(&[0; 16])?;
    push_numbers(&mut bytes, row)?;
    push_numbers(&mut bytes, &SUM_COUNTS)?;
    push_numbers(&mut bytes, &[1, REGISTER_LABEL])?;
    bytes.extend_from_slice(&[0; 64])?;
    bytes.extend_from_slice(&page)?;
    push_numbers(&mut bytes, times)?;
    push_numbers(&mut bytes, &[25])?;
    push_digests(&mut bytes, &siblings)?;
    push_end(&mut bytes, 0, &tree)?;
    Ok(bytes)
}

fn checked<R: Abort + AllocGlobal>(
    rt: &R,
    words: &[u32],
    tables: &[u8],
    failing: &[u64],
) -> Result<(Status, MemoryHost), Fail> {
    let alloc = rt.alloc();
    let mut host = host_of(alloc, &elf_of(alloc, words)?, tables, failing)?;
    let status = openvm(alloc, &words_of(alloc, "check elf second")?, &mut host);
    Ok((status, host))
}

// The file is accepted, with this exit code and this number of segments.
pub(super) fn accepts<R: Abort + AllocGlobal>(
    rt: &R,
    words: &[u32],
    tables: &[u8],
    code: u8,
) -> Result<(), Fail> {
    let none = "";
    let line = format!(in rt.alloc();
        "accepted exit {code} public {none:0<128} segments 1 hint-bytes 0\n"
    )?;
    let (status, host) = checked(rt, words, tables, &[])?;
    assert_eq!(rt; status, Status::Done, "{line}");
    assert_eq!(rt; host.said(), line.as_bytes(), "{line}");
    Ok(())
}

// The file is rejected for this reason.
pub(super) fn rejects<R: Abort + AllocGlobal>(
    rt: &R,
    words: &[u32],
    tables: &[u8],
    reason: &str,
) -> Result<(), Fail> {
    let line = format!(in rt.alloc(); "rejected {reason}\n")?;
    let (status, host) = checked(rt, words, tables, &[])?;
    assert_eq!(rt; status, Status::Rejected, "{reason}");
    assert_eq!(rt; host.said(), line.as_bytes(), "{reason}");
    Ok(())
}

// The bytes with others put at a place, where some stood before.
pub(super) fn changed(
    alloc: Global,
    bytes: &[u8],
    at: usize,
    old: usize,
    new: &[u8],
) -> Result<Vec<u8>, AllocError> {
    let front = bytes.iter().take(at);
    let behind = bytes.iter().skip(at).skip(old);
    front.chain(new).chain(behind).copied().collect(alloc)
}

// a place, how many bytes are taken out there, those that are put there, and the reason
const FORGED: [(usize, usize, &[u8], &str); 19] = [
    (1028, 1, &[], "cut 1028"),
    (1029, 0, &[0], "trailing 1029"),
    (0, 1029, &[], "cut 0"),
    (0, 1, b"r", "magic"),
    (8, 1, &[9], "version 9"),
    // files of the first form
    (8, 1, &[0], "version 0"),
    (12, 1, &[2], "marker 12"),
    // the prime
    (13, 4, &[1, 0, 0, 0x78], "not-canonical 13"),
    // both pcs behind the entry
    (13, 8, &[4, 16, 0, 0, 4, 16, 0, 0], "pc-chain 0"),
    (21, 1, &[2], "unbalanced 0 0 (4096,1) 1 0"),
    (25, 1, &[0], "no-end"),
    (25, 1, &[2], "marker 25"),
    (26, 1, &[0], "root-start 0"),
    (58, 1, &[0], "root-end 0"),
    (90, 1, &[22], "height 0 0"),
    (90, 17, &[21; 17], "slot-sum 0"),
    // an entry of place 0 and count 0
    (
        107,
        4,
        &[1, 0, 0, 0, 0, 0, 0, 0, 0, 0, 0, 0],
        "count-entry 111",
    ),
    (127, 1, &[2], "siblings 0 1 2"),
    (164, 2, &[8, 1], "exit-code 8 7"),
];

#[test]
fn a_file_of_no_steps(rt: HostRuntime) -> Result<(), Fail> {
    let alloc = rt.alloc();
    let file = resting_file(alloc, &EXIT_SEVEN, 7)?;
    assert_eq!(rt; file.len(), 1029);
    accepts(&rt, &EXIT_SEVEN, &file, 7)?;
    for (at, old, new, reason) in FORGED {
        let forged = changed(alloc, &file, at, old, new)?;
        rejects(&rt, &EXIT_SEVEN, &forged, reason)?;
    }
    let public = changed(alloc, &file, 165, 1, &[1])?;
    rejects(&rt, &EXIT_SEVEN, &public, "public")?;
    // a word that is no terminate at the end
    let early = resting_file(alloc, &SUM, 0)?;
    rejects(&rt, &SUM, &early, "not-terminate 0")
}

// One page of zeros with this label.
fn push_page(bytes: &mut Vec<u8>, label: u32) -> Result<(), AllocError> {
    push_numbers(bytes, &[label])?;
    bytes.extend_from_slice(&[0; 192])
}

#[test]
fn pages_and_segments(rt: HostRuntime) -> Result<(), Fail> {
    let alloc = rt.alloc();
    let file = resting_file(alloc, &EXIT_SEVEN, 7)?;
    // a label behind the last, and one twice
    let mut pages = Vec::new(alloc);
    push_numbers(&mut pages, &[1])?;
    push_page(&mut pages, 25_165_825)?;
    let no_space = changed(alloc, &file, 123, 4, &pages)?;
    rejects(&rt, &EXIT_SEVEN, &no_space, "page-space 0 0")?;
    let mut pages = Vec::new(alloc);
    push_numbers(&mut pages, &[2])?;
    push_page(&mut pages, 16_777_216)?;
    push_page(&mut pages, 16_777_216)?;
    let twice = changed(alloc, &file, 123, 4, &pages)?;
    rejects(&rt, &EXIT_SEVEN, &twice, "page-order 0 1")?;
    // a segment behind the last, and too many
    let segment: Vec<u8> = file.iter().skip(12).take(151).copied().collect(alloc)?;
    let behind = changed(alloc, &file, 12, 0, &segment)?;
    rejects(&rt, &EXIT_SEVEN, &behind, "early-end 0")?;
    let open = changed(alloc, &segment, 13, 1, &[0])?;
    let mut many: Vec<u8> = file.iter().take(12).copied().collect(alloc)?;
    for _ in 0..4097 {
        many.extend_from_slice(&open)?;
    }
    rejects(&rt, &EXIT_SEVEN, &many, "too-many-segments")
}

#[test]
fn a_file_of_one_step(rt: HostRuntime) -> Result<(), Fail> {
    let alloc = rt.alloc();
    let file = sum_file(alloc, &SUM_ROW, &SUM_TIMES)?;
    assert_eq!(rt; file.len(), 2201);
    accepts(&rt, &SUM, &file, 0)?;
    // the word is written at time 3 and not at 2
    let mut times = SUM_TIMES;
    times[5] = 2;
    let early = sum_file(alloc, &SUM_ROW, &times)?;
    let reason = "unbalanced 0 2 (1,20,7,0,0,0,2) 0 1";
    rejects(&rt, &SUM, &early, reason)?;
    // a sum that is none
    let mut row = SUM_ROW;
    row[27] = 8;
    let wrong = sum_file(alloc, &row, &SUM_TIMES)?;
    rejects(&rt, &SUM, &wrong, "row 0 0 0 10")?;
    // of another program
    rejects(
        &rt,
        &EXIT_SEVEN,
        &file,
        "unbalanced 0 1 (4096,1,5,0,0,1,1,7,0,0,0,0) 1 0",
    )
}

// Each call of the host fails in turn. There are nine: each file is opened, the ELF file is read and its end found, the
// head is read in two parts, the rest and its end are read, and the line is said.
#[test]
fn each_call_of_a_check_fails(rt: HostRuntime) -> Result<(), Fail> {
    let file = resting_file(rt.alloc(), &EXIT_SEVEN, 7)?;
    for number in 0..10 {
        let (status, host) = checked(&rt, &EXIT_SEVEN, &file, &[number])?;
        let last = number > 8;
        assert_eq!(rt; status == Status::Done, last, "{number}");
        assert_eq!(rt; status == Status::HostFault, !last, "{number}");
        assert_eq!(rt; host.said().is_empty(), !last, "{number}");
    }
    Ok(())
}
