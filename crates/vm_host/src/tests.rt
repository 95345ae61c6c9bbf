use crate::{
    Host, HostError, MemoryHost, NamedFile, NoFaultHost, ReadError, RealHost, Slot, read_up_to,
};
use std::alloc::{AllocError, Global};
use std::test::Fail;
use std::{env, fs};

fn named(alloc: Global, name: &str, bytes: &[u8]) -> Result<NamedFile, AllocError> {
    let name = String::from_str(alloc, name)?;
    Ok(NamedFile::of(name, bytes.to_vec(alloc)?))
}

// Two files, and a third that no call sees, since its name has come before.
fn files(alloc: Global) -> Result<Vec<NamedFile>, AllocError> {
    Ok(vec![in alloc;
        named(alloc, "program", b"abcde")?,
        named(alloc, "hints", b"xyz")?,
        named(alloc, "program", b"other")?,
    ]?)
}

// Each call of a host, in ten calls: copies the first input and a part of the second.
fn copy<H: Host>(alloc: Global, host: &mut H) -> Result<(), ReadError> {
    host.open_input(Slot::Elf, "program")?;
    let elf = read_up_to(alloc, host, Slot::Elf, 5)?;
    host.open_input(Slot::Second, "hints")?;
    let mut piece = [0u8; 2];
    let count = host.read(Slot::Second, &mut piece)?;
    host.create("out")?;
    host.write(&elf)?;
    host.write(&piece[..count])?;
    host.finish()?;
    host.say(b"done")?;
    Ok(())
}

#[test]
fn each_call_fails_in_turn(rt: HostRuntime) -> Result<(), Fail> {
    let alloc = rt.alloc();
    let copied = [
        "", "", "", "", "", "", "", "abcde", "abcdexy", "abcdexy", "abcdexy",
    ];
    for (call, want) in copied.iter().enumerate() {
        let failing = vec![in alloc; call as u64]?;
        let mut host = MemoryHost::new(alloc, files(alloc)?, failing);
        let result = copy(alloc, &mut host);
        let done = call == 10;
        let expected = if done {
            Ok(())
        } else {
            Err(ReadError::Host(HostError::Failed))
        };
        assert_eq!(rt; result, expected, "call {call}");
        let said = if done { "done" } else { "" };
        assert_eq!(rt; host.said(), said.as_bytes(), "call {call}");
        let written = host.into_written();
        assert_eq!(rt; written.as_slice(), want.as_bytes(), "call {call}");
    }
    Ok(())
}

#[test]
fn no_fault_host_ignores_names(rt: HostRuntime) -> Result<(), Fail> {
    let alloc = rt.alloc();
    let mut host = NoFaultHost::new(alloc, b"abcde".to_vec(alloc)?, b"xyz".to_vec(alloc)?);
    assert_eq!(rt; copy(alloc, &mut host), Ok(()));
    assert_eq!(rt; host.open_input(Slot::Second, ""), Ok(()));
    let again = read_up_to(alloc, &mut host, Slot::Second, 100)?;
    assert_eq!(rt; again.as_slice(), b"xyz".as_slice());
    assert_eq!(rt; host.said(), b"done".as_slice());
    let written = host.into_written();
    assert_eq!(rt; written.as_slice(), b"abcdexy".as_slice());
    Ok(())
}

#[test]
fn reads_up_to_the_limit(rt: HostRuntime) -> Result<(), Fail> {
    let alloc = rt.alloc();
    let cases = [
        (0, 0, true),
        (1, 0, false),
        (3, 3, true),
        (3, 2, false),
        (65536, 65536, true),
        (65536, 65535, false),
        (150_000, 150_000, true),
        (150_000, 149_999, false),
        (150_000, 1 << 30, true),
    ];
    for (length, limit, fits) in cases {
        let bytes = vec![in alloc; 7u8; length]?;
        let mut host = NoFaultHost::new(alloc, bytes, Vec::new(alloc));
        host.open_input(Slot::Elf, "")?;
        let expected = if fits {
            Ok(length)
        } else {
            Err(ReadError::TooLong)
        };
        let result = read_up_to(alloc, &mut host, Slot::Elf, limit).map(|bytes| bytes.len());
        assert_eq!(rt; result, expected, "{length} bytes, at most {limit}");
        let left = read_up_to(alloc, &mut host, Slot::Elf, length)?;
        let want = if fits { 0 } else { length - limit - 1 };
        assert_eq!(rt; left.len(), want, "{length} bytes, at most {limit}");
    }
    Ok(())
}

#[test]
fn a_name_that_is_missing(rt: HostRuntime) -> Result<(), Fail> {
    let alloc = rt.alloc();
    let mut host = MemoryHost::new(alloc, files(alloc)?, Vec::new(alloc));
    assert_eq!(rt; host.open_input(Slot::Elf, "out"), Err(HostError::Failed));
    assert_eq!(rt; host.open_input(Slot::Second, "program"), Ok(()));
    Ok(())
}

// A file is created, written and finished, and then read; a name in no folder and a full device fail.
#[test]
fn real_files(rt: HostRuntime) -> Result<(), Fail> {
    let alloc = rt.alloc();
    let path = env::temp_dir(&rt)?.join(alloc, "vm_host_real_files")?;
    let name = path.as_str();
    let mut host = RealHost::new(&rt);
    for text in ["the first and longer one", "", "second"] {
        assert_eq!(rt; host.create(name), Ok(()));
        let (first, rest) = text.as_bytes().split_at(text.len() / 2);
        assert_eq!(rt; host.write(first), Ok(()));
        assert_eq!(rt; host.write(rest), Ok(()));
        assert_eq!(rt; host.finish(), Ok(()));
        assert_eq!(rt; host.open_input(Slot::Second, name), Ok(()));
        let bytes = read_up_to(alloc, &mut host, Slot::Second, 100)?;
        assert_eq!(rt; bytes.as_slice(), text.as_bytes());
    }
    fs::remove_file(&rt, name)?;
    assert_eq!(rt; host.open_input(Slot::Elf, name), Err(HostError::Failed));
    assert_eq!(rt; host.create("/no/such/folder"), Err(HostError::Failed));
    assert_eq!(rt; host.create("/dev/full"), Ok(()));
    assert_eq!(rt; host.write(b"a"), Err(HostError::Failed));
    assert_eq!(rt; host.create("/dev/null"), Ok(()));
    assert_eq!(rt; host.finish(), Ok(()));
    Ok(())
}
