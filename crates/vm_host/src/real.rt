// The trusted edge: files and standard output. Nothing proves that they hold what was written.
ghost use Rattle.std.specs.Prelude.{◌≡◌, ◌<◌, ◌≤◌, ◌^◌, length, OnOk, OnErr, IfErr, IfOk, IsErrOf, is_some, true, None};
ghost use Rattle.std.specs.Io.{ReadsAtMost, WritesAtMost};
ghost use Rattle.std.specs.Io.KnownBytes.{Appends, ReadConsumes, WriteAppends};
ghost use Rattle.vm_host.specs.Calls.{Reads, Writes};
ghost use Rattle.vm_host.specs.Memory.{by_slot};
ghost use Rattle.vm_host.specs.Real.{told_of_open, untold_state};
ghost use Rattle.vm_host.specs.lemmas.HostBytes.{untold_bytes};

use crate::faults::Faults;
use crate::{Host, HostError, Slot};
use std::fs::OpenFile;
use std::io::{ErrorKind, Read, Write};
use std::rt::Files;
use std::{fs, io};

/// The host over files and standard output. It tells no contents and no names, so a contract says
/// of it only what the calls do to its counts and to what stands open.
///
/// Each error of the file system or of standard output is counted as a fault, and so is a write
/// that takes nothing. A call that a signal interrupts is tried again. Once the count stands at
/// its type's last value, all further calls are refused.
#[derive(Drop)]
pub struct RealHost<'a, R: Files + Print> {
    rt: &'a R,
    elf: Option<R::File>,
    second: Option<R::File>,
    out: Option<R::File>,
    faults: Faults,
}

// Reads once, and again where a signal interrupted it.
fn read_some<F: Read>(file: &mut F, into: &mut [u8]) -> io::Result<usize>
    ensures bound { ReadsAtMost result into.new }
    ensures bytes { ReadConsumes (F.remaining file.old) (F.remaining file.new) result into.new }
{
    for _ in 0..u64::MAX {
        match file.read(into) {
            Err(e) if e.kind() == ErrorKind::Interrupted => {}
            done => return done,
        }
    }
    Err(io::Error::from(ErrorKind::TimedOut))
}

// Reads from the file that stands open.
fn read_open<F: Read>(file: &mut Option<F>, into: &mut [u8]) -> io::Result<usize>
    requires { is_some file.old ≡ true }
    ensures bound { ReadsAtMost result into.new }
    ensures same { is_some file.new ≡ is_some file.old }
    ensures bytes { ReadConsumes (told_of_open F.remaining file.old) (told_of_open F.remaining file.new) result into.new }
{
    match file {
        Some(file) => read_some(file, into),
        None => unreachable!(),
    }
}

// Writes once, and again where a signal interrupted it.
fn write_some<W: Write>(writer: &mut W, piece: &[u8]) -> io::Result<usize>
    ensures bound { WritesAtMost result piece.now }
    ensures bytes { WriteAppends (W.contents writer.old) (W.contents writer.new) result piece.now }
{
    for _ in 0..u64::MAX {
        match writer.write(piece) {
            Err(e) if e.kind() == ErrorKind::Interrupted => {}
            done => return done,
        }
    }
    Err(io::Error::from(ErrorKind::TimedOut))
}

// Brings to the disk what was written, so that an error that a close would hide is told. A pipe or a
// terminal has nothing to bring there, and says that the call is invalid.
fn sync<F: OpenFile>(file: &F) -> io::Result<()> {
    match file.sync_all() {
        Err(e) if e.kind() == ErrorKind::InvalidInput => Ok(()),
        done => done,
    }
}

// Writes all of a piece. A write that takes nothing is an error. An impl of `Write` may have a
// `write_all` of its own, so this is a loop over `write`.
fn write_whole<W: Write>(writer: &mut W, piece: &[u8]) -> io::Result<()>
    ensures { OnOk result (Appends (W.contents writer.old) (W.contents writer.new) piece.now) }
{
    let mut done = 0;
    'pieces: while done < piece.len() {
        let count = write_some(writer, &piece[done..])?;
        if count == 0 {
            return Err(io::Error::from(ErrorKind::WriteZero));
        }
        done += count;
    }
    Ok(())
}

impl<'a, R: Files + Print> RealHost<'a, R> {
    /// A host with nothing open and no faults.
    pub fn new(rt: &'a R) -> Self
        ensures { ⟦<RealHost<'a, R> as Host>⟧.state result ≡ untold_state {F = Unit} 0 None None None }
    {
        RealHost {
            rt,
            elf: None,
            second: None,
            out: None,
            faults: Faults::new(),
        }
    }
}

impl<'a, R: Files + Print> Host for RealHost<'a, R> {
    ghost state = { λ h. untold_state h.faults.count h.elf h.second h.out };

    ghost bytes = { λ h. untold_bytes h.faults.count h.elf h.second h.out };

    fn open_input(&mut self, slot: Slot, name: &str) -> Result<(), HostError> {
        self.faults.refuse_at_last()?;
        match fs::open(self.rt, name) {
            Ok(file) => {
                match slot {
                    Slot::Elf => self.elf = Some(file),
                    Slot::Second => self.second = Some(file),
                }
                Ok(())
            }
            Err(_) => Err(self.faults.raise()),
        }
    }

    /// Where the file that stands open tells what is left of it, that is what was read.
    fn read(&mut self, slot: Slot, into: &mut [u8]) -> Result<usize, HostError>
        requires { ((untold_state self.old.faults.count self.old.elf self.old.second self.old.out).input slot).is_open ≡ true }
        ensures reads { Reads slot (untold_state self.old.faults.count self.old.elf self.old.second self.old.out) (untold_state self.new.faults.count self.new.elf self.new.second self.new.out) result into.new }
        ensures bytes { ReadConsumes (told_of_open R.File.remaining (by_slot self.old.elf self.old.second slot)) (told_of_open R.File.remaining (by_slot self.new.elf self.new.second slot)) result into.new }
    {
        self.faults.refuse_at_last()?;
        let read = match slot {
            Slot::Elf => read_open(&mut self.elf, into),
            Slot::Second => read_open(&mut self.second, into),
        };
        match read {
            Ok(count) => Ok(count),
            Err(_) => Err(self.faults.raise()),
        }
    }

    fn create(&mut self, name: &str) -> Result<(), HostError> {
        self.out = None;
        self.faults.refuse_at_last()?;
        match fs::create(self.rt, name) {
            Ok(file) => {
                self.out = Some(file);
                Ok(())
            }
            Err(_) => Err(self.faults.raise()),
        }
    }

    /// Where the output tells what it holds, the piece was appended to that.
    fn write(&mut self, piece: &[u8]) -> Result<(), HostError>
        requires { is_some self.old.out ≡ true }
        ensures writes { Writes piece.now (untold_state self.old.faults.count self.old.elf self.old.second self.old.out) (untold_state self.new.faults.count self.new.elf self.new.second self.new.out) result }
        ensures bytes { OnOk result (Appends (told_of_open R.File.contents self.old.out) (told_of_open R.File.contents self.new.out) piece.now) }
    {
        self.faults.refuse_at_last()?;
        let Some(file) = &mut self.out else {
            unreachable!()
        };
        match write_whole(file, piece) {
            Ok(()) => Ok(()),
            Err(_) => Err(self.faults.raise()),
        }
    }

    fn finish(&mut self) -> Result<(), HostError> {
        let Some(file) = self.out.take() else {
            unreachable!()
        };
        self.faults.refuse_at_last()?;
        match sync(&file) {
            Ok(()) => Ok(()),
            Err(_) => Err(self.faults.raise()),
        }
    }

    fn say(&mut self, text: &[u8]) -> Result<(), HostError> {
        self.faults.refuse_at_last()?;
        match write_whole(&mut io::writer(self.rt), text) {
            Ok(()) => Ok(()),
            Err(_) => Err(self.faults.raise()),
        }
    }
}
