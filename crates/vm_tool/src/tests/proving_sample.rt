// The sample of a number, proved and checked.
use super::{host_of, words_of};
use crate::answer::Status;
use crate::tool::openvm;
use std::process::Abort;
use std::test::Fail;
use vm_host::{MemoryHost, NoFaultHost};
use vm_vectors::{elf_of, sample_words};

// What the program for 7 makes public, by a program outside that interprets it.
const PUBLIC: &str = "d729a6afd4c6a56d6a02";

// The table file of the sample for 7, which is written with this line.
fn sampled<R: Abort + AllocGlobal>(rt: &R, line: &str) -> Result<Vec<u8>, Fail> {
    let alloc = rt.alloc();
    let words = words_of(alloc, "sample 7 out")?;
    let mut host = MemoryHost::new(alloc, Vec::new(alloc), Vec::new(alloc));
    assert_eq!(rt; openvm(alloc, &words, &mut host), Status::Done);
    assert_eq!(rt; host.said(), line.as_bytes());
    Ok(host.into_written())
}

#[test]
fn a_sample_is_accepted(rt: HostRuntime) -> Result<(), Fail> {
    let alloc = rt.alloc();
    let public = format!(in alloc; "{PUBLIC:0<128}")?;
    let line = format!(in alloc; "sample 7 steps 26011 exit 0 public {public} segments 7\n")?;
    let tables = sampled(&rt, &line)?;
    assert!(rt; sampled(&rt, &line)? == tables);
    // over a host on which nothing fails
    let words = words_of(alloc, "sample 7 out")?;
    let mut host = NoFaultHost::new(alloc, Vec::new(alloc), Vec::new(alloc));
    assert_eq!(rt; openvm(alloc, &words, &mut host), Status::Done);
    assert_eq!(rt; host.said(), line.as_bytes());
    assert!(rt; host.into_written() == tables);

    let elf = elf_of(alloc, 0x1000, &sample_words(alloc, 7)?)?;
    let mut host = host_of(alloc, &elf, &tables, &[])?;
    let words = words_of(alloc, "check elf second")?;
    assert_eq!(rt; openvm(alloc, &words, &mut host), Status::Done);
    let line = format!(in alloc; "accepted exit 0 public {public} segments 7 hint-bytes 0\n")?;
    assert_eq!(rt; host.said(), line.as_bytes());
    Ok(())
}
