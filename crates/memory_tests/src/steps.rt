//! Records of steps at the pc 4096 and the time 70000: the base is the word of x6, and the immediate is added to it.

use std::alloc::Global;
use vm_isa::{Access, AccessList, OutOfMemory, StepRecord, TimedAccess, VmInstr, space};
use vm_word::limbs;

/// What a register or a block has before and after its access.
#[derive(Clone, Copy, Debug)]
pub struct Words {
    pub old: u32,
    pub new: u32,
}

/// The instruction of a step, and its address.
#[derive(Clone, Copy, Debug)]
pub struct Accessing {
    pub op: u8,
    pub rd: u8,
    pub rs1: u8,
    pub rs2: u8,
    pub write: bool,
    pub base: u32,
    pub imm: u32,
}

impl Accessing {
    fn instr(&self) -> VmInstr {
        VmInstr {
            pc: 4096,
            op: self.op,
            rd: self.rd,
            rs1: self.rs1,
            rs2: self.rs2,
            write: self.write,
            use_imm: false,
            imm: limbs(self.imm),
            target: 0,
        }
    }

    /// The pointer of the block at the sum of base and immediate.
    fn block(&self) -> u32 {
        let address = self.base.wrapping_add(self.imm);
        address - address % 4
    }

    /// The step whose accesses behind that of the base are these.
    pub fn step(
        &self,
        alloc: Global,
        second: (u8, u32, Words),
        third: Option<(u8, u32, Words)>,
    ) -> Result<StepRecord, OutOfMemory> {
        let mut accesses = AccessList::new(alloc);
        let base = Words {
            old: self.base,
            new: self.base,
        };
        accesses.push(access(space::REGISTERS, 24, base, 70000))?;
        let (at, pointer, words) = second;
        accesses.push(access(at, pointer, words, 70001))?;
        if let Some((at, pointer, words)) = third {
            accesses.push(access(at, pointer, words, 70002))?;
        }
        Ok(StepRecord {
            instr: self.instr(),
            time: 70000,
            accesses,
            next: 4100,
        })
    }
}

/// An access after one at 90.
fn access(space: u8, pointer: u32, words: Words, time: u32) -> TimedAccess {
    TimedAccess {
        access: Access {
            space,
            pointer,
            old: limbs(words.old),
            new: limbs(words.new),
        },
        time,
        before: 90,
    }
}

/// A load into x5, which has 06070809, or into x0, which isn't written.
pub fn load(
    alloc: Global,
    op: u8,
    write: bool,
    base: u32,
    imm: u32,
    block: u32,
    new: u32,
) -> Result<StepRecord, OutOfMemory> {
    let rd = if write { 5 } else { 0 };
    let step = Accessing {
        op,
        rd,
        rs1: 6,
        rs2: 0,
        write,
        base,
        imm,
    };
    let kept = Words {
        old: block,
        new: block,
    };
    let written = Words {
        old: 0x0607_0809,
        new,
    };
    let read = (space::MEMORY, step.block(), kept);
    let third = if write {
        Some((space::REGISTERS, 20, written))
    } else {
        None
    };
    step.step(alloc, read, third)
}

/// A store of the word of x7.
pub fn store(
    alloc: Global,
    op: u8,
    base: u32,
    imm: u32,
    word: u32,
    block: Words,
) -> Result<StepRecord, OutOfMemory> {
    let step = Accessing {
        op,
        rd: 0,
        rs1: 6,
        rs2: 7,
        write: false,
        base,
        imm,
    };
    let read = Words {
        old: word,
        new: word,
    };
    let third = Some((space::MEMORY, step.block(), block));
    step.step(alloc, (space::REGISTERS, 28, read), third)
}

/// A hint, whose base is in rd.
pub fn hint(
    alloc: Global,
    op: u8,
    base: u32,
    imm: u32,
    block: Words,
) -> Result<StepRecord, OutOfMemory> {
    let step = Accessing {
        op,
        rd: 6,
        rs1: 0,
        rs2: 0,
        write: false,
        base,
        imm,
    };
    step.step(alloc, (space::MEMORY, step.block(), block), None)
}

/// The word of x7 made public, over a word.
pub fn reveal(
    alloc: Global,
    op: u8,
    base: u32,
    imm: u32,
    block: Words,
) -> Result<StepRecord, OutOfMemory> {
    let step = Accessing {
        op,
        rd: 6,
        rs1: 7,
        rs2: 0,
        write: false,
        base,
        imm,
    };
    let read = Words {
        old: block.new,
        new: block.new,
    };
    let third = Some((space::PUBLIC, step.block(), block));
    step.step(alloc, (space::REGISTERS, 28, read), third)
}
