mod instructions;
mod proving;
mod proving_forged;
mod proving_programs;
mod proving_sample;
mod table_files;

use crate::answer::Status;
use crate::tool::openvm;
use elf_image::{ImageError, read_image};
use rv_decode::{AluOp, Instr};
use rv_run::{Cause, RunEnd, State, Stepped, Trap, run};
use std::alloc::{AllocError, Global};
use std::process::Abort;
use std::test::Fail;
use vm_host::{MemoryHost, NamedFile, NoFaultHost};
use vm_vectors::{LINKED_ELF, SHA_ELF};

// ADDI x5, x0, 7; reveal x5 at 0(x0); terminate 0
const PUBLIC_SEVEN: [u32; 3] = [0x0070_0293, 0x0002_A00B, 0x0000_000B];

// The file whose one load is these words at address 0x1000, and no file for no words.
fn elf_of(alloc: Global, words: &[u32]) -> Result<Vec<u8>, AllocError> {
    if words.is_empty() || words.len() > 1 << 20 {
        return Ok(Vec::new(alloc));
    }
    vm_vectors::elf_of(alloc, 0x1000, words)
}

fn named(alloc: Global, name: &str, bytes: Vec<u8>) -> Result<NamedFile, AllocError> {
    Ok(NamedFile::of(String::from_str(alloc, name)?, bytes))
}

// A host with this ELF file, an empty hint file and one of twelve bytes, and calls that fail.
fn host(alloc: Global, elf: Vec<u8>, failing: &[u64]) -> Result<MemoryHost, AllocError> {
    let twelve = [1, 2, 3, 4, 5, 6, 7, 8, 9, 10, 11, 12];
    let mut files = Vec::new(alloc);
    files.push(named(alloc, "elf", elf)?)?;
    files.push(named(alloc, "hints", Vec::new(alloc))?)?;
    files.push(named(alloc, "four", twelve[..4].to_vec(alloc)?)?)?;
    files.push(named(alloc, "twelve", twelve.to_vec(alloc)?)?)?;
    Ok(MemoryHost::new(alloc, files, failing.to_vec(alloc)?))
}

// A host with this ELF file and this second file, and calls that fail.
fn host_of(
    alloc: Global,
    elf: &[u8],
    second: &[u8],
    failing: &[u64],
) -> Result<MemoryHost, AllocError> {
    let mut files = Vec::new(alloc);
    files.push(named(alloc, "elf", elf.to_vec(alloc)?)?)?;
    files.push(named(alloc, "second", second.to_vec(alloc)?)?)?;
    Ok(MemoryHost::new(alloc, files, failing.to_vec(alloc)?))
}

fn words_of(alloc: Global, line: &str) -> Result<Vec<String>, AllocError> {
    let mut words = Vec::new(alloc);
    for word in line.split(' ') {
        words.push(String::from_str(alloc, word)?)?;
    }
    Ok(words)
}

fn says<R: Abort + AllocGlobal>(
    rt: &R,
    elf: Vec<u8>,
    line: &str,
    status: Status,
    text: &str,
) -> Result<(), Fail> {
    let alloc = rt.alloc();
    let mut host = host(alloc, elf, &[])?;
    let answered = openvm(alloc, &words_of(alloc, line)?, &mut host);
    assert_eq!(rt; answered, status, "{line}");
    assert_eq!(rt; host.said(), text.as_bytes(), "{line}");
    Ok(())
}

// The line of a run that ends, whose public bytes are these digits and then zeros.
fn exit_line(alloc: Global, code: u8, digits: &str, steps: u64) -> Result<String, AllocError> {
    format!(in alloc; "exit {code} public {digits:0<128} steps {steps}\n")
}

// words; hint file and limit; exit code, public digits before zeros, steps
const RUNS_THAT_END: [(&[u32], &str, u8, &str, u64); 15] = [
    (&PUBLIC_SEVEN, "hints 10", 0, "07", 2),
    (&PUBLIC_SEVEN, "hints 2", 0, "07", 2),
    // terminate 7, and 255
    (&[0x0070_000B], "hints 0", 7, "", 0),
    (&[0x0FF0_000B], "hints 1000000000", 255, "", 0),
    // LUI x5, 0x80000; ADDI x5, x5, -1; reveal x5 at 4(x0)
    (
        &[0x8000_02B7, 0xFFF2_8293, 0x0042_A00B, 0x0000_000B],
        "hints 3",
        0,
        "00000000ffffff7f",
        3,
    ),
    // ADDI x0, x0, 5; ADDI x31, x0, -1; reveal x0 at 0(x0); reveal x31 at 12(x0)
    (
        &[
            0x0050_0013,
            0xFFF0_0F93,
            0x0000_200B,
            0x00CF_A00B,
            0x0000_000B,
        ],
        "hints 4",
        0,
        "000000000000000000000000ffffffff",
        4,
    ),
    // ADDI x5, x0, 64; ADDI x6, x0, 9; reveal x6 at -64(x5), twice
    (
        &[
            0x0400_0293,
            0x0090_0313,
            0xFC03_228B,
            0xFC03_228B,
            0x0010_000B,
        ],
        "hints 99",
        1,
        "09",
        4,
    ),
    // DIV and REM of 80000000 by FFFFFFFF, then by 0
    (
        &[
            0x8000_02B7,
            0xFFF0_0313,
            0x0262_C3B3,
            0x0262_E433,
            0x0202_C4B3,
            0x0202_E533,
            0x0003_A00B,
            0x0044_200B,
            0x0084_A00B,
            0x00C5_200B,
            0x0000_000B,
        ],
        "hints 100",
        0,
        "0000008000000000ffffffff00000080",
        10,
    ),
    // MULH, MULHSU and MULHU of FFFFFFFF by itself
    (
        &[
            0xFFF0_0293,
            0x0252_9333,
            0x0252_A3B3,
            0x0252_B433,
            0x0003_200B,
            0x0043_A00B,
            0x0084_200B,
            0x0000_000B,
        ],
        "hints 100",
        0,
        "00000000fffffffffeffffff",
        7,
    ),
    // SRA by 31, SLL by 32
    (
        &[
            0x8000_02B7,
            0x01F0_0313,
            0x4062_D3B3,
            0x0200_0313,
            0x0062_9433,
            0x0003_A00B,
            0x0044_200B,
            0x0000_000B,
        ],
        "hints 100",
        0,
        "ffffffff00000080",
        7,
    ),
    // LB at 1FFFFFFF; LW x0 at 0
    (
        &[0x2000_02B7, 0xFFF2_8303, 0x0000_000B],
        "hints 9",
        0,
        "",
        2,
    ),
    (&[0x0000_2003, 0x0000_000B], "hints 100", 0, "", 1),
    // a store of 0 over the third word: the old instruction runs, and the load reads 0
    (
        &[
            0x0000_12B7,
            0x0002_A423,
            0x0090_0313,
            0x0082_A383,
            0x0003_200B,
            0x0043_A00B,
            0x0000_000B,
        ],
        "hints 100",
        0,
        "09",
        6,
    ),
    // two hint stores
    (
        &[0x0000_22B7, 0x0000_128B, 0x0040_128B, 0x0000_000B],
        "twelve 100",
        0,
        "",
        3,
    ),
    // a hint store, and the word that it stored
    (
        &[
            0x0000_22B7,
            0x0000_128B,
            0x0002_A303,
            0x0003_200B,
            0x0000_000B,
        ],
        "four 100",
        0,
        "01020304",
        4,
    ),
];

#[test]
fn runs_that_end(rt: HostRuntime) -> Result<(), Fail> {
    let alloc = rt.alloc();
    for (words, rest, code, digits, steps) in RUNS_THAT_END {
        let line = format!(in alloc; "run elf {rest}")?;
        let text = exit_line(alloc, code, digits, steps)?;
        says(&rt, elf_of(alloc, words)?, &line, Status::Done, &text)?;
    }
    Ok(())
}

const RUNS_THAT_STOP: [(&[u32], &str, Status, &str); 26] = [
    (&PUBLIC_SEVEN, "hints 1", Status::Limit, "limit steps 1"),
    (&PUBLIC_SEVEN, "hints 0", Status::Limit, "limit steps 0"),
    // a jump to itself
    (
        &[0x0000_006F],
        "hints 100",
        Status::Limit,
        "limit steps 100",
    ),
    (
        &[0xFFFF_FFFF],
        "hints 1",
        Status::Trapped,
        "trap undecoded at 00001000",
    ),
    (
        &[0xFFFF_FFFF],
        "hints 0",
        Status::Trapped,
        "trap undecoded at 00001000",
    ),
    // a word that compilers write for a trap
    (
        &[0xC000_1073],
        "hints 9",
        Status::Trapped,
        "trap undecoded at 00001000",
    ),
    // a step beyond the text, and a jump
    (
        &[0x0070_0293],
        "hints 9",
        Status::Trapped,
        "trap not-text at 00001004",
    ),
    (
        &[0x0080_006F, 0x0000_000B],
        "hints 9",
        Status::Trapped,
        "trap not-text at 00001008",
    ),
    // JALR to 1002, JAL by 2, and a branch by 2 that is taken
    (
        &[0x0000_12B7, 0x0022_8067],
        "hints 9",
        Status::Trapped,
        "trap misaligned-target at 00001004",
    ),
    (
        &[0x0020_006F],
        "hints 9",
        Status::Trapped,
        "trap misaligned-target at 00001000",
    ),
    (
        &[0x0000_0163],
        "hints 9",
        Status::Trapped,
        "trap misaligned-target at 00001000",
    ),
    // LW at 1, LH at 1FFFFFFF, LW and SW at 20000000
    (
        &[0x0010_2003, 0x0000_000B],
        "hints 9",
        Status::Trapped,
        "trap misaligned at 00001000",
    ),
    (
        &[0x2000_02B7, 0xFFF2_9303],
        "hints 9",
        Status::Trapped,
        "trap misaligned at 00001004",
    ),
    (
        &[0x2000_02B7, 0x0002_A303],
        "hints 9",
        Status::Trapped,
        "trap out-of-range at 00001004",
    ),
    (
        &[0x2000_02B7, 0x0002_A023],
        "hints 9",
        Status::Trapped,
        "trap out-of-range at 00001004",
    ),
    // LW at 20000001, which is both
    (
        &[0x2000_02B7, 0x0012_A303],
        "hints 9",
        Status::Trapped,
        "trap misaligned at 00001004",
    ),
    // the second of two hint stores with four bytes
    (
        &[0x0000_22B7, 0x0000_128B, 0x0040_128B, 0x0000_000B],
        "four 9",
        Status::Trapped,
        "trap hints-end at 00001008",
    ),
    // a hint store without hints at 1, and at 20000000
    (
        &[0x0010_100B],
        "hints 9",
        Status::Trapped,
        "trap misaligned at 00001000",
    ),
    (
        &[0x2000_02B7, 0x0000_128B],
        "hints 9",
        Status::Trapped,
        "trap out-of-range at 00001004",
    ),
    // reveals of x5 at 64(x0), at 2(x0) and at -4(x0)
    (
        &[0x0402_A00B],
        "hints 9",
        Status::Trapped,
        "trap public-index at 00001000",
    ),
    (
        &[0x0022_A00B],
        "hints 9",
        Status::Trapped,
        "trap public-index at 00001000",
    ),
    (
        &[0xFFC2_A00B],
        "hints 9",
        Status::Trapped,
        "trap public-index at 00001000",
    ),
    // ADDI x5, x0, 2 and a SHA block: a state at 2; a block at 2 with a state at 20000000
    (
        &[0x0020_0293, 0x0200_428B],
        "hints 9",
        Status::Trapped,
        "trap misaligned at 00001004",
    ),
    (
        &[0x0020_0293, 0x2000_0337, 0x0202_C30B],
        "hints 9",
        Status::Trapped,
        "trap misaligned at 00001008",
    ),
    // a state at 1FFFFFE4, and a block at 1FFFFFC4
    (
        &[0x2000_02B7, 0xFE42_8293, 0x0200_428B],
        "hints 9",
        Status::Trapped,
        "trap out-of-range at 00001008",
    ),
    (
        &[0x2000_02B7, 0xFC42_8293, 0x0202_C00B],
        "hints 9",
        Status::Trapped,
        "trap out-of-range at 00001008",
    ),
];

#[test]
fn runs_that_stop(rt: HostRuntime) -> Result<(), Fail> {
    let alloc = rt.alloc();
    for (words, rest, status, text) in RUNS_THAT_STOP {
        let line = format!(in alloc; "run elf {rest}")?;
        let text = format!(in alloc; "{text}\n")?;
        says(&rt, elf_of(alloc, words)?, &line, status, &text)?;
    }
    Ok(())
}

#[test]
fn refused_words(rt: HostRuntime) -> Result<(), Fail> {
    let alloc = rt.alloc();
    let rows = [
        "run a b 01",
        "run a b +1",
        "run a b ",
        "run a b 1000000001",
        "run a b 18446744073709551616",
        "run a b 1 2",
        "run a b",
        "run",
        "",
        "Run a b 1",
        "check a",
        "check a b c",
        "check",
        "Check a b",
        "transpile",
        "transpile a b",
        "Transpile a",
    ];
    for line in rows {
        says(
            &rt,
            elf_of(alloc, &PUBLIC_SEVEN)?,
            line,
            Status::Words,
            "words\n",
        )?;
    }
    Ok(())
}

// The file of PUBLIC_SEVEN with one byte changed.
fn changed(alloc: Global, place: usize, byte: u8) -> Result<Vec<u8>, AllocError> {
    let mut file = elf_of(alloc, &PUBLIC_SEVEN)?;
    if place < file.len() {
        file[place] = byte;
    }
    Ok(file)
}

// a byte of the file, what it becomes, and the refusal
const REFUSED_BYTES: [(usize, u8, &str); 12] = [
    (0, 0, "magic"),
    (4, 2, "class"),
    (5, 2, "order"),
    (16, 3, "file-type"),
    (18, 62, "machine"),
    (36, 1, "compressed"),
    (42, 31, "header-size"),
    // 257 headers
    (45, 1, "header-table"),
    // 13 bytes in the file, 12 in memory
    (68, 13, "segment-size"),
    // one byte further on
    (56, 85, "truncated"),
    // at 0xFF001000
    (63, 0xFF, "range"),
    // at 100C, behind the text
    (24, 0x0C, "entry"),
];

#[test]
fn refused_files(rt: HostRuntime) -> Result<(), Fail> {
    let alloc = rt.alloc();
    let line = "run elf hints 10";
    for (place, byte, refusal) in REFUSED_BYTES {
        let text = format!(in alloc; "elf {refusal}\n")?;
        says(
            &rt,
            changed(alloc, place, byte)?,
            line,
            Status::ElfRefused,
            &text,
        )?;
    }
    let mut short = elf_of(alloc, &PUBLIC_SEVEN)?;
    short.truncate(51);
    says(&rt, short, line, Status::ElfRefused, "elf short\n")?;
    let mut cut = elf_of(alloc, &PUBLIC_SEVEN)?;
    cut.pop();
    says(&rt, cut, line, Status::ElfRefused, "elf truncated\n")?;

    for line in [
        "run missing hints 10",
        "run elf missing 10",
        "check elf missing",
    ] {
        let elf = elf_of(alloc, &PUBLIC_SEVEN)?;
        says(&rt, elf, line, Status::HostFault, "")?;
    }
    // the ELF file is refused before the second file is opened
    for line in ["run elf missing 10", "check elf missing"] {
        let refused = changed(alloc, 0, 0)?;
        says(&rt, refused, line, Status::ElfRefused, "elf magic\n")?;
    }
    Ok(())
}

#[test]
fn linked_programs(rt: HostRuntime) -> Result<(), Fail> {
    let alloc = rt.alloc();
    // SHA-256 of "abc" (FIPS 180-4's first example), each word with its lowest byte first
    let digest = "bf1678baeacf018fde4041412322ae5da36103b09c7a179661ff10b4ad1500f2";
    let text = exit_line(alloc, 0, digest, 19)?;
    says(
        &rt,
        SHA_ELF.to_vec(alloc)?,
        "run elf hints 100",
        Status::Done,
        &text,
    )?;
    let text = exit_line(alloc, 0, "2a", 8)?;
    says(
        &rt,
        LINKED_ELF.to_vec(alloc)?,
        "run elf hints 100",
        Status::Done,
        &text,
    )?;
    // a byte behind the text is no part of the program
    let mut longer = elf_of(alloc, &PUBLIC_SEVEN)?;
    longer.push(0)?;
    let text = exit_line(alloc, 0, "07", 2)?;
    says(&rt, longer, "run elf hints 2", Status::Done, &text)
}

#[test]
fn listed_programs(rt: HostRuntime) -> Result<(), Fail> {
    let alloc = rt.alloc();
    let rows: [(&[u32], &str); 4] = [
        (
            &PUBLIC_SEVEN,
            "00001000 1 5 0 0 1 1 7 0 0 0 0\n\
             00001004 38 0 5 0 0 0 0 0 0 0 0\n\
             00001008 41 0 0 0 0 0 0 0 0 0 0\n",
        ),
        // LW x0 at 1, and at 0
        (
            &[0x0010_2003, 0x0000_2003],
            "00001000 13 0 0 0 0 0 1 0 0 0 0\n\
             00001004 13 0 0 0 0 0 0 0 0 0 0\n",
        ),
        // ADDI x0, x0, 5; no instruction; JAL x1 to the word before it
        (
            &[0x0050_0013, 0xFFFF_FFFF, 0xFFDF_F0EF],
            "00001000 39 0 0 0 0 0 0 0 0 0 0\n\
             00001008 25 1 0 0 1 0 0 0 0 0 4100\n",
        ),
        (&[0xFFFF_FFFF], ""),
    ];
    for (words, text) in rows {
        let elf = elf_of(alloc, words)?;
        says(&rt, elf, "transpile elf", Status::Done, text)?;
    }
    let refused = changed(alloc, 0, 0)?;
    says(
        &rt,
        refused,
        "transpile elf",
        Status::ElfRefused,
        "elf magic\n",
    )?;
    let elf = elf_of(alloc, &PUBLIC_SEVEN)?;
    says(&rt, elf, "transpile missing", Status::HostFault, "")
}

// Each call of the host fails in turn. There are six before the line is said: to open each file, to
// read it, and to find its end.
#[test]
fn each_call_fails(rt: HostRuntime) -> Result<(), Fail> {
    let alloc = rt.alloc();
    let words = words_of(alloc, "run elf hints 10")?;
    for number in 0..8 {
        let mut host = host(alloc, elf_of(alloc, &PUBLIC_SEVEN)?, &[number])?;
        let status = openvm(alloc, &words, &mut host);
        let last = number > 5;
        assert_eq!(rt; status == Status::Done, last, "{number}");
        assert_eq!(rt; status == Status::HostFault, !last, "{number}");
        assert_eq!(rt; host.said().is_empty(), !last, "{number}");
    }
    Ok(())
}

#[test]
fn too_long_files(rt: HostRuntime) -> Result<(), Fail> {
    let alloc = rt.alloc();
    let words = words_of(alloc, "run any other 10")?;
    // bytes of zeros behind the ELF file's 96, and in the hint file
    let rows: [(usize, usize, Status, &str); 4] = [
        (67_108_768, 0, Status::Done, "exit"),
        (67_108_769, 0, Status::ElfRefused, "elf too-long\n"),
        (0, 67_108_864, Status::Done, "exit"),
        (0, 67_108_865, Status::Limit, "limit hints 67108864\n"),
    ];
    for (behind, hints, status, text) in rows {
        let mut elf = elf_of(alloc, &PUBLIC_SEVEN)?;
        elf.extend_from_slice(&vec![in alloc; 0; behind]?)?;
        let mut host = NoFaultHost::new(alloc, elf, vec![in alloc; 0; hints]?);
        assert_eq!(rt; openvm(alloc, &words, &mut host), status);
        assert!(rt; host.said().starts_with(text.as_bytes()), "{text}");
    }
    Ok(())
}

#[test]
fn machine_by_steps(rt: HostRuntime) -> Result<(), Fail> {
    let alloc = rt.alloc();
    let file = elf_of(alloc, &PUBLIC_SEVEN)?;
    let image = read_image(alloc, &file)?;
    assert_eq!(rt; image.entry(), 0x1000);
    assert_eq!(rt; image.word_at(0x1004), Some(0x0002_A00B));
    assert_eq!(rt; image.word_at(0x1005), None);
    assert_eq!(rt; image.word_at(0x0FFC), None);
    assert_eq!(rt; image.word_at(0x100C), None);
    assert_eq!(rt;
        [image.byte(0x0FFF), image.byte(0x1000), image.byte(0x100B)],
        [0, 0x93, 0]
    );

    let mut state = State::load(alloc, &image, [5, 6].to_vec(alloc)?)?;
    let addi = Instr::AluImm {
        op: AluOp::Add,
        rd: 5,
        rs1: 0,
        imm: 7,
    };
    assert_eq!(rt; state.next_instr(), Some(addi));
    assert_eq!(rt; state.step()?, Stepped::Went);
    assert_eq!(rt; [state.pc(), state.register(5)], [0x1004, 7]);
    assert_eq!(rt; state.step()?, Stepped::Went);
    assert_eq!(rt; state.step()?, Stepped::Ended(0));
    assert_eq!(rt; state.pc(), 0x1008);
    assert_eq!(rt; state.byte(0x1000), 0x93);
    assert_eq!(rt; state.public()[0], 7);
    assert_eq!(rt; state.hints_left(), [5, 6].as_slice());
    Ok(())
}

#[test]
fn broken_programs(rt: HostRuntime) -> Result<(), Fail> {
    let alloc = rt.alloc();
    let trap = Trap {
        cause: Cause::Undecoded,
        pc: 0x1000,
    };
    let broken = read_image(alloc, &elf_of(alloc, &[0])?)?;
    let end = run(alloc, &broken, Vec::new(alloc), 0)?;
    assert_eq!(rt; end, RunEnd::Trapped { steps: 0, trap });
    assert!(rt; read_image(alloc, b"").err() == Some(ImageError::Short));
    Ok(())
}
