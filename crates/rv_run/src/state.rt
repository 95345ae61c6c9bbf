// The state of the machine, and one step of it.
ghost use Rattle.std.specs.Prelude.{◌≡◌, ◌<◌, IfOk, IfSome, OnErr, slice_index};
ghost use Rattle.std.specs.Option.{option_and_then};
ghost use Rattle.elf_image.specs.Loaded.{word_of};
ghost use Rattle.rv_decode.specs.Listing.{decode_of};
ghost use Rattle.rv_decode.specs.Ranges.{HasFieldsInRange};
ghost use Rattle.rv_run.specs.Machine.{start};
ghost use Rattle.rv_run.specs.Step.{put as put_word, goes_on, jumps};
ghost use Rattle.rv_run.specs.State.{machine_of, program_of, IsStep, IsStepBy};

mod execute;
mod transfer;

use crate::OutOfMemory;
use crate::hints::Hints;
use crate::memory::Memory;
use crate::outcome::{Cause, Stepped, Trap};
use elf_image::Image;
use rv_decode::Instr;
use std::alloc::Global;

/// The machine in the middle of a run. A state borrows the image, whose text no store changes.
#[derive(Drop)]
pub struct State<'a> {
    memory: Memory<'a>,
    pc: u32,
    registers: [u32; 32],
    public_bytes: [u8; 64],
    hints: Hints,
}

impl<'a> State<'a> {
    /// The state before the first step.
    pub fn load(alloc: Global, image: &'a Image, hints: Vec<u8>) -> Result<State<'a>, OutOfMemory>
        ensures program { IfOk result (λ state. program_of state ≡ image.now) }
        ensures start { IfOk result (λ state. machine_of state ≡ start image.now hints.items) }
    {
        Ok(State {
            memory: Memory::new(alloc, image)?,
            pc: image.entry(),
            registers: [0; 32],
            public_bytes: [0; 64],
            hints: Hints::new(hints),
        })
    }

    /// Where the next instruction stands.
    pub fn pc(&self) -> u32
        ensures { result ≡ (machine_of self.now).pc }
    {
        self.pc
    }

    /// The word in a register, by its number. x0 always has 0.
    pub fn register(&self, number: u8) -> u32
        requires { number < 32 }
        ensures { result ≡ slice_index (machine_of self.now).registers number }
    {
        self.registers[number as usize]
    }

    /// The byte of memory at an address, the image's where nothing was stored. No instruction reaches 2^29 or above.
    pub fn byte(&self, address: u32) -> u8
        ensures { result ≡ (machine_of self.now).memory address }
    {
        self.memory.byte(address)
    }

    /// The public bytes so far: zeros, where no reveal has put a word.
    pub fn public(&self) -> [u8; 64]
        ensures { result ≡ (machine_of self.now).public_bytes }
    {
        self.public_bytes
    }

    /// The hint bytes that no step has taken.
    pub fn hints_left(&self) -> &[u8]
        ensures { result.now ≡ (machine_of self.now).hints }
    {
        self.hints.left()
    }

    /// The instruction at the pc, `None` where no text word stands there or it doesn't decode.
    pub fn next_instr(&self) -> Option<Instr>
        ensures listed { result ≡ option_and_then decode_of (word_of (program_of self.now) (machine_of self.now).pc) }
        ensures ranged { IfSome result HasFieldsInRange }
    {
        self.memory.fetch(self.pc)?
    }

    /// Does one step. Only `Went` changes the state.
    #[inline(always)]
    pub fn step(&mut self) -> Result<Stepped, OutOfMemory>
        ensures step { IfOk result (IsStep (program_of self.old) (machine_of self.old) (machine_of self.new)) }
        ensures err { OnErr result (machine_of self.new ≡ machine_of self.old) }
        ensures program { program_of self.new ≡ program_of self.old }
    {
        match self.memory.fetch(self.pc) {
            Some(Some(instr)) => self.execute(instr),
            Some(None) => Ok(self.trap(Cause::Undecoded)),
            None => Ok(self.trap(Cause::NotText)),
        }
    }

    fn trap(&self, cause: Cause) -> Stepped
        ensures { result ≡ Stepped.Trapped (record { cause = cause; pc = self.now.pc }) }
    {
        Stepped::Trapped(Trap { cause, pc: self.pc })
    }

    // Puts a word into a register, unless it is x0.
    fn put(&mut self, rd: u8, word: u32)
        requires { rd < 32 }
        ensures put { machine_of self.new ≡ put_word rd word (machine_of self.old) }
        ensures program { program_of self.new ≡ program_of self.old }
    {
        if rd != 0 {
            self.registers[rd as usize] = word;
        }
    }

    // On to the next instruction.
    fn go_on(&mut self) -> Stepped
        ensures went { result ≡ Stepped.Went }
        ensures machine { machine_of self.new ≡ goes_on (machine_of self.old) }
        ensures program { program_of self.new ≡ program_of self.old }
    {
        self.pc = self.pc.wrapping_add(4);
        Stepped::Went
    }

    // On to another pc.
    fn jump(&mut self, target: u32) -> Stepped
        ensures went { result ≡ Stepped.Went }
        ensures machine { machine_of self.new ≡ jumps target (machine_of self.old) }
        ensures program { program_of self.new ≡ program_of self.old }
    {
        self.pc = target;
        Stepped::Went
    }
}
