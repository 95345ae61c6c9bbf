// What a step reads.
ghost use Rattle.std.specs.Prelude.{◌≡◌, true, IfOk, if◌then◌else◌, Some, None};
ghost use Rattle.vm_isa.specs.Blocks.{is_block};
ghost use Rattle.vm_executor.specs.Memory.{now_of, KeepsAll};
ghost use Rattle.vm_executor.specs.Read.{AreReached, IsReadAs};

use crate::OutOfMemory;
use crate::block::Reached;
use crate::memory::Memory;
use std::alloc::Global;
use vm_isa::space::{MEMORY, PUBLIC, REGISTERS};
use vm_isa::{MAX_ACCESSES, NextAccess, VmInstr, next_access};

/// Whether a block of four bytes is at this pointer of a space.
fn is_block(space: u8, pointer: u32) -> bool
    ensures { result ≡ is_block space pointer }
{
    let size = match space {
        REGISTERS => 128,
        MEMORY => 1 << 29,
        PUBLIC => 64,
        _ => 0,
    };
    pointer % 4 == 0 && pointer < size
}

/// The old words of a step's accesses and their blocks, in order. Its room is used again by the next step.
#[derive(Drop)]
pub struct Reading {
    pub words: Vec<[u8; 4]>,
    pub blocks: Vec<Reached>,
}

impl Reading {
    pub fn new(alloc: Global) -> Reading {
        Reading {
            words: Vec::new(alloc),
            blocks: Vec::new(alloc),
        }
    }

    /// Reads what an instruction accesses; false where it can't be done.
    pub fn read(&mut self, memory: &mut Memory, instr: &VmInstr) -> Result<bool, OutOfMemory>
        ensures keeps { KeepsAll memory.old memory.new }
        ensures words { IfOk result (λ done. IsReadAs instr.now (now_of memory.old) (if done then Some self.new.words.items else None)) }
        ensures blocks { IfOk result (λ done. done ≡ true → AreReached instr.now memory.new self.new.words.items self.new.blocks.items) }
    {
        self.words.clear();
        self.blocks.clear();
        for _ in 0..MAX_ACCESSES {
            match next_access(instr, self.words.as_slice()) {
                NextAccess::NoMeaning => return Ok(false),
                NextAccess::Done => return Ok(true),
                NextAccess::At {
                    slot,
                    space,
                    pointer,
                } => {
                    if !is_block(space, pointer) {
                        return Ok(false);
                    }
                    let block = Reached {
                        slot,
                        space,
                        pointer,
                        page: memory.reach(space, pointer)?,
                    };
                    self.words.push(memory.word(&block))?;
                    self.blocks.push(block)?;
                }
            }
        }
        Ok(false)
    }
}
