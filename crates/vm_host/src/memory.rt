// A host in memory, whose calls fail where a list says so.
ghost use Rattle.std.specs.Prelude.{◌≡◌, ◌⊎◌, ℕ, ◌≤◌, ◌++◌, ◌∷◌, [], List, true, false, Some, None, IsNone, map, IfErr, OnOk, OnErr, MatchOption};
ghost use Rattle.vm_host.specs.State.{HostState};
ghost use Rattle.vm_host.specs.Calls.{Opens, Reads, Creates, Writes, Finishes, Says};
ghost use Rattle.vm_host.specs.Memory.{content_of, memory_state, pair_of};
ghost use Rattle.vm_host.specs.lemmas.HostBytes.{memory_bytes};
ghost use Rattle.vm_host.specs.Numbered.{IsListed, Numbered, TellsAll, number_of, failing_of, files_of};

use crate::faults::Failing;
use crate::named_file::NamedFile;
use crate::tape::Reader;
use crate::{Host, HostError, Place, Slot};
use std::alloc::Global;

/// A name that was handed over.
#[derive(Drop)]
pub struct Noted {
    place: Place,
    name: String,
}

/// A host over files in memory, for tests. It tells everything, and fails where it is told to.
///
/// Its calls are numbered from 0 on, whatever they answer, and a call whose number is listed is
/// refused. The output isn't one of the files, so what was created can't be opened.
#[derive(Drop)]
pub struct MemoryHost {
    alloc: Global,
    files: Vec<NamedFile>,
    failing: Failing,
    elf: Reader,
    second: Reader,
    creating: bool,
    written: Vec<u8>,
    said: Vec<u8>,
    named: Vec<Noted>,
}

// The first file of this name.
fn find_file<'a>(files: &'a [NamedFile], name: &str) -> Option<&'a NamedFile>
    ensures { MatchOption result (content_of files.now name.now ≡ None) (λ f. content_of files.now name.now ≡ Some f.now.bytes) }
{
    for file in files {
        if file.name.as_str() == name {
            return Some(file);
        }
    }
    None
}

// Notes a name, or leaves the list as it was.
fn note(named: &mut Vec<Noted>, alloc: Global, place: Place, name: &str) -> Result<(), HostError>
    ensures ok { OnOk result (map pair_of named.new.items ≡ map pair_of named.old.items ++ (place, name.now) ∷ []) }
    ensures err { OnErr result (named.new.items ≡ named.old.items) }
    ensures memory { IfErr result (λ e. e ≡ HostError.OutOfMemory) }
{
    let name = String::from_str(alloc, name)?;
    named.push(Noted { place, name })?;
    Ok(())
}

impl MemoryHost {
    /// A host with these files, whose calls fail where their number is in the list. Of files with
    /// one name the first counts.
    pub fn new(alloc: Global, files: Vec<NamedFile>, failing: Vec<u64>) -> Self
        ensures content { (memory_state result).content ≡ (λ slot name. content_of files.items name) }
        ensures faults { (memory_state result).faults ≡ 0 }
        ensures said { (memory_state result).said ≡ Some [] }
        ensures named { (memory_state result).named ≡ Some [] }
        ensures output { (memory_state result).output ≡ record { creating = false; written = Some [] } }
        ensures tells { TellsAll (memory_state result) }

        ensures first { number_of result ≡ 0 }
        ensures failing { failing_of result ≡ failing.items }
        ensures files { files_of result ≡ files.items }
    {
        MemoryHost {
            alloc,
            files,
            failing: Failing::new(failing),
            elf: Reader::new(Vec::new(alloc)),
            second: Reader::new(Vec::new(alloc)),
            creating: false,
            written: Vec::new(alloc),
            said: Vec::new(alloc),
            named: Vec::new(alloc),
        }
    }

    /// What was said.
    pub fn said(&self) -> &[u8]
        ensures { (memory_state self.now).said ≡ Some result.now }
    {
        &self.said
    }

    /// What was written since the last create.
    pub fn into_written(self) -> Vec<u8>
        ensures { (memory_state self).output.written ≡ Some result.items }
    {
        self.written
    }
}

impl Host for MemoryHost {
    ghost state = { memory_state };

    ghost bytes = { memory_bytes };

    fn open_input(&mut self, slot: Slot, name: &str) -> Result<(), HostError>
        ensures opens { Opens slot name.now (memory_state self.old) (memory_state self.new) result }
        ensures numbered { Numbered self.old self.new result (IsListed self.old ⊎ IsNone (content_of (files_of self.old) name.now)) }
    {
        let called = self.failing.next();
        note(&mut self.named, self.alloc, Place::from(slot), name)?;
        called?;
        let Some(file) = find_file(&self.files, name) else {
            return Err(self.failing.fault());
        };
        let reader = Reader::opened(file.bytes.as_slice().to_vec(self.alloc)?);
        match slot {
            Slot::Elf => self.elf = reader,
            Slot::Second => self.second = reader,
        }
        Ok(())
    }

    fn read(&mut self, slot: Slot, into: &mut [u8]) -> Result<usize, HostError>
        requires { ((memory_state self.old).input slot).is_open ≡ true }
        ensures reads { Reads slot (memory_state self.old) (memory_state self.new) result into.new }
        ensures numbered { Numbered self.old self.new result (IsListed self.old) }
        ensures failed { IfErr result (λ e. e ≡ HostError.Failed) }
    {
        self.failing.next()?;
        match slot {
            Slot::Elf => Ok(self.elf.read(into)),
            Slot::Second => Ok(self.second.read(into)),
        }
    }

    fn create(&mut self, name: &str) -> Result<(), HostError>
        ensures creates { Creates name.now (memory_state self.old) (memory_state self.new) result }
        ensures numbered { Numbered self.old self.new result (IsListed self.old) }
    {
        self.creating = false;
        let called = self.failing.next();
        note(&mut self.named, self.alloc, Place::Out, name)?;
        called?;
        self.written.clear();
        self.creating = true;
        Ok(())
    }

    fn write(&mut self, piece: &[u8]) -> Result<(), HostError>
        requires { (memory_state self.old).output.creating ≡ true }
        ensures writes { Writes piece.now (memory_state self.old) (memory_state self.new) result }
        ensures numbered { Numbered self.old self.new result (IsListed self.old) }
    {
        self.failing.next()?;
        self.written.extend_from_slice(piece)?;
        Ok(())
    }

    fn finish(&mut self) -> Result<(), HostError>
        requires { (memory_state self.old).output.creating ≡ true }
        ensures finishes { Finishes (memory_state self.old) (memory_state self.new) result }
        ensures numbered { Numbered self.old self.new result (IsListed self.old) }
        ensures failed { IfErr result (λ e. e ≡ HostError.Failed) }
    {
        self.creating = false;
        self.failing.next()
    }

    fn say(&mut self, text: &[u8]) -> Result<(), HostError>
        ensures says { Says text.now (memory_state self.old) (memory_state self.new) result }
        ensures numbered { Numbered self.old self.new result (IsListed self.old) }
    {
        self.failing.next()?;
        self.said.extend_from_slice(text)?;
        Ok(())
    }
}
