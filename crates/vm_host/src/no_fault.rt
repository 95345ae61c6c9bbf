// A host in memory that never fails.
ghost use Rattle.std.specs.Prelude.{◌≡◌, [], Some, None, false};
ghost use Rattle.vm_host.specs.Calls.{Creates};
ghost use Rattle.vm_host.specs.NoFault.{no_fault_state};
ghost use Rattle.vm_host.specs.lemmas.HostBytes.{no_fault_bytes};

use crate::tape::Reader;
use crate::{Host, HostError, Slot};
use std::alloc::Global;

/// A host over two inputs in memory, which has no faults. It doesn't look at names, nor tell them.
#[derive(Drop)]
pub struct NoFaultHost {
    elf: Reader,
    second: Reader,
    creating: bool,
    written: Vec<u8>,
    said: Vec<u8>,
}

impl NoFaultHost {
    /// A host whose inputs are these bytes, whatever name is opened.
    pub fn new(alloc: Global, elf: Vec<u8>, second: Vec<u8>) -> Self
        ensures elf { (no_fault_state result).content Slot.Elf ≡ (λ name. Some elf.items) }
        ensures second { (no_fault_state result).content Slot.Second ≡ (λ name. Some second.items) }
        ensures faults { (no_fault_state result).faults ≡ 0 }
        ensures said { (no_fault_state result).said ≡ Some [] }
        ensures named { (no_fault_state result).named ≡ None }
        ensures output { (no_fault_state result).output ≡ record { creating = false; written = Some [] } }
    {
        NoFaultHost {
            elf: Reader::new(elf),
            second: Reader::new(second),
            creating: false,
            written: Vec::new(alloc),
            said: Vec::new(alloc),
        }
    }

    /// What was said.
    pub fn said(&self) -> &[u8]
        ensures { (no_fault_state self.now).said ≡ Some result.now }
    {
        &self.said
    }

    /// What was written since the last create.
    pub fn into_written(self) -> Vec<u8>
        ensures { (no_fault_state self).output.written ≡ Some result.items }
    {
        self.written
    }
}

impl Host for NoFaultHost {
    ghost state = { no_fault_state };

    ghost bytes = { no_fault_bytes };

    fn open_input(&mut self, slot: Slot, _name: &str) -> Result<(), HostError> {
        match slot {
            Slot::Elf => self.elf.open(),
            Slot::Second => self.second.open(),
        }
        Ok(())
    }

    fn read(&mut self, slot: Slot, into: &mut [u8]) -> Result<usize, HostError> {
        match slot {
            Slot::Elf => Ok(self.elf.read(into)),
            Slot::Second => Ok(self.second.read(into)),
        }
    }

    fn create(&mut self, name: &str) -> Result<(), HostError>
        ensures creates { Creates name.now (no_fault_state self.old) (no_fault_state self.new) result }
        ensures content { (no_fault_state self.new).content ≡ (no_fault_state self.old).content }
    {
        self.written.clear();
        self.creating = true;
        Ok(())
    }

    fn write(&mut self, piece: &[u8]) -> Result<(), HostError> {
        self.written.extend_from_slice(piece)?;
        Ok(())
    }

    fn finish(&mut self) -> Result<(), HostError> {
        self.creating = false;
        Ok(())
    }

    fn say(&mut self, text: &[u8]) -> Result<(), HostError> {
        self.said.extend_from_slice(text)?;
        Ok(())
    }
}
