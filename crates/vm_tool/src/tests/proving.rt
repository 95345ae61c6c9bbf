// Runs that `prove` writes the tables of, and what `check` says of them.
use super::{PUBLIC_SEVEN, elf_of, host, host_of, says, words_of};
use crate::answer::{Answer, Status};
use crate::check_command::find_check;
use crate::tool::openvm;
use std::alloc::{AllocError, Global};
use std::process::Abort;
use std::test::Fail;
use vm_vectors::programs::EACH_INSTRUCTION;
use vm_vectors::{LINKED_ELF, SHA_ELF};

// LUI x5, 2; hint store at 0(x5) and at 4(x5); terminate 0
const TWO_HINTS: [u32; 4] = [0x0000_22B7, 0x0000_128B, 0x0040_128B, 0x0000_000B];

const TWELVE: [u8; 12] = [1, 2, 3, 4, 5, 6, 7, 8, 9, 10, 11, 12];

// The digest of "abc", as words of which the lowest byte stands first.
const SHA_OF_ABC: &str = "bf1678baeacf018fde4041412322ae5da36103b09c7a179661ff10b4ad1500f2";

/// What a file states: exit code, public digits before zeros, segments, steps, hint bytes.
pub(super) type Stated<'a> = (u8, &'a str, u32, u64, usize);

fn digits_of(alloc: Global, digits: &str) -> Result<String, AllocError> {
    format!(in alloc; "{digits:0<128}")
}

fn proved_line(alloc: Global, stated: Stated<'_>) -> Result<String, AllocError> {
    let (code, digits, segments, steps, _) = stated;
    let public = digits_of(alloc, digits)?;
    let mut line = format!(in alloc; "proved exit {code} public {public}")?;
    line.push_str(&format!(in alloc; " segments {segments} steps {steps}\n")?)?;
    Ok(line)
}

fn accepted_line(alloc: Global, stated: Stated<'_>) -> Result<String, AllocError> {
    let (code, digits, segments, _, hints) = stated;
    let public = digits_of(alloc, digits)?;
    let mut line = format!(in alloc; "accepted exit {code} public {public}")?;
    line.push_str(&format!(in alloc; " segments {segments} hint-bytes {hints}\n")?)?;
    Ok(line)
}

// Proves the run on these hints, and checks the file on another host. Gives the file's length.
pub(super) fn proves<R: Abort + AllocGlobal>(
    rt: &R,
    elf: &[u8],
    hints: &[u8],
    per_segment: u32,
    stated: Stated<'_>,
) -> Result<usize, Fail> {
    let alloc = rt.alloc();
    let words = format!(in alloc; "prove elf second out {per_segment}")?;
    let mut first = host_of(alloc, elf, hints, &[])?;
    let answered = openvm(alloc, &words_of(alloc, &words)?, &mut first);
    let line = proved_line(alloc, stated)?;
    assert_eq!(rt; first.said(), line.as_bytes(), "{line}");
    assert_eq!(rt; answered, Status::Done, "{line}");
    let tables = first.into_written();
    let mut second = host_of(alloc, elf, &tables, &[])?;
    let answered = openvm(alloc, &words_of(alloc, "check elf second")?, &mut second);
    let line = accepted_line(alloc, stated)?;
    assert_eq!(rt; second.said(), line.as_bytes(), "{line}");
    assert_eq!(rt; answered, Status::Done, "{line}");
    Ok(tables.len())
}

// The file that `prove` writes of a program on these hints.
pub(super) fn written<R: Abort + AllocGlobal>(
    rt: &R,
    words: &[u32],
    hints: &[u8],
    per_segment: u32,
) -> Result<Vec<u8>, Fail> {
    let alloc = rt.alloc();
    let mut host = host_of(alloc, &elf_of(alloc, words)?, hints, &[])?;
    let line = format!(in alloc; "prove elf second out {per_segment}")?;
    let answered = openvm(alloc, &words_of(alloc, &line)?, &mut host);
    assert_eq!(rt; answered, Status::Done);
    Ok(host.into_written())
}

#[test]
fn runs_are_proved(rt: HostRuntime) -> Result<(), Fail> {
    let alloc = rt.alloc();
    let none = elf_of(alloc, &[0x0070_000B])?;
    let length = proves(&rt, &none, &[], 16_384, (7, "", 1, 0, 0))?;
    assert_eq!(rt; length, 1029);
    let seven = elf_of(alloc, &PUBLIC_SEVEN)?;
    proves(&rt, &seven, &[], 16_384, (0, "07", 1, 2, 0))?;
    proves(&rt, &seven, &[], 1, (0, "07", 2, 2, 0))?;
    let hints = elf_of(alloc, &TWO_HINTS)?;
    proves(&rt, &hints, &TWELVE, 16_384, (0, "", 1, 3, 8))?;
    proves(&rt, &SHA_ELF, &[], 5, (0, SHA_OF_ABC, 4, 19, 0))?;
    proves(&rt, &LINKED_ELF, &[], 16_384, (0, "2a", 1, 8, 0))?;
    Ok(())
}

#[test]
fn hints_are_spelled(rt: HostRuntime) -> Result<(), Fail> {
    let alloc = rt.alloc();
    let tables = written(&rt, &TWO_HINTS, &TWELVE, 1)?;
    let elf = elf_of(alloc, &TWO_HINTS)?;
    let mut host = host_of(alloc, &elf, &tables, &[])?;
    let Ok(Answer::Accepted(accepted)) = find_check(alloc, "elf", "second", &mut host) else {
        return Err(Fail::new("not accepted"));
    };
    assert_eq!(rt; accepted.segments, 3);
    assert_eq!(rt;
        accepted.hints.as_slice(),
        [1, 2, 3, 4, 5, 6, 7, 8].as_slice()
    );
    Ok(())
}

#[test]
fn runs_that_are_not_proved(rt: HostRuntime) -> Result<(), Fail> {
    let alloc = rt.alloc();
    let hints = elf_of(alloc, &TWO_HINTS)?;
    let trap = "trap hints-end at 00001008\n";
    says(&rt, hints, "prove elf four out 2", Status::Trapped, trap)?;
    // a jump to itself
    let jump = elf_of(alloc, &[0x0000_006F])?;
    let limit = "limit segments 4096\n";
    says(&rt, jump, "prove elf hints out 1", Status::Limit, limit)?;
    for words in [
        "prove elf hints out 0",
        "prove elf hints out 16385",
        "sample 4294967296 out",
    ] {
        says(
            &rt,
            elf_of(alloc, &PUBLIC_SEVEN)?,
            words,
            Status::Words,
            "words\n",
        )?;
    }
    Ok(())
}

// The columns of each table.
const WIDTHS: [usize; 17] = [
    40, 41, 55, 46, 38, 26, 31, 22, 23, 31, 3, 40, 65, 28, 32, 267, 299,
];

// Where the codes of heights stand in a file of one segment, one byte for each table, and the rows behind them.
const CODES: usize = 90;

fn check_status<R: Abort + AllocGlobal>(rt: &R, elf: &[u8], tables: &[u8]) -> Result<Status, Fail> {
    let alloc = rt.alloc();
    let mut host = host_of(alloc, elf, tables, &[])?;
    Ok(openvm(alloc, &words_of(alloc, "check elf second")?, &mut host))
}

#[test]
fn a_row_of_each_table(rt: HostRuntime) -> Result<(), Fail> {
    let alloc = rt.alloc();
    let elf = elf_of(alloc, &EACH_INSTRUCTION)?;
    let mut host = host(alloc, elf.to_vec(alloc)?, &[])?;
    let words = words_of(alloc, "prove elf twelve out 16384")?;
    assert_eq!(rt; openvm(alloc, &words, &mut host), Status::Done);
    let mut tables = host.into_written();
    assert_eq!(rt; check_status(&rt, &elf, &tables)?, Status::Done);
    let mut place = CODES + WIDTHS.len();
    for (table, width) in WIDTHS.into_iter().enumerate() {
        assert!(rt; table < 17 && 0 < width && width < 300);
        assert!(rt; CODES + table < tables.len());
        let code = tables[CODES + table];
        assert!(rt; 0 < code && code < 22, "table {table}");
        // the lowest byte of the last number of its first row
        assert!(rt; place < tables.len());
        let cell = place + 4 * (width - 1);
        assert!(rt; cell < tables.len());
        tables[cell] ^= 1;
        let status = check_status(&rt, &elf, &tables)?;
        assert_eq!(rt; status, Status::Rejected, "table {table}");
        assert!(rt; cell < tables.len());
        tables[cell] ^= 1;
        place = place.saturating_add(4 * width << (code - 1));
    }
    Ok(())
}
