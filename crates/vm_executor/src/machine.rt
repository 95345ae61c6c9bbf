// The machine.
ghost use Rattle.std.specs.Prelude.{◌≡◌, ◌≤◌, true, nat_eq, MatchOption};
ghost use Rattle.vm_isa.specs.Hints.{AreEnough, hints_after, next_hint};

use crate::OutOfMemory;
use crate::memory::Memory;
use crate::read::Reading;
use crate::write::{make, plan};
use elf_image::Image;
use rv_run::Hints;
use std::alloc::Global;
use vm_isa::opcode::{HINT, TERMINATE};
use vm_isa::{StepRecord, next_pc, slots};
use vm_trace::Touched;
use vm_transpile::Program;

// The word that the host gives for a row: four hint bytes for HINT. There is none where they are too few.
fn given(op: u8, hints: &Hints) -> Option<[u8; 4]>
    ensures { MatchOption result (AreEnough op hints.now → ⊥) (λ word. AreEnough op hints.now × (nat_eq op 37 ≡ true → word ≡ next_hint hints.now)) }
{
    if op != HINT {
        return Some([0; 4]);
    }
    let left = hints.left();
    if left.len() < 4 {
        return None;
    }
    Some([left[0], left[1], left[2], left[3]])
}

// Takes the hint bytes that a row uses up.
fn take_hints(op: u8, hints: &mut Hints)
    requires { AreEnough op hints.old }
    ensures { hints.new ≡ hints_after op hints.old }
{
    if op == HINT {
        hints.advance(4);
    }
}

/// What a step came to.
#[derive(Debug, Drop)]
pub enum Machined {
    /// It went on.
    Went(StepRecord),
    /// The program ended with this exit code.
    Ended(u8),
    /// There is no step.
    Stuck,
}

/// The virtual machine of a program over an image.
#[derive(Drop)]
pub struct Machine<'m> {
    alloc: Global,
    program: &'m Program,
    hints: Hints,
    pc: u32,
    time: u32,
    memory: Memory<'m>,
    reading: Reading,
    ghost begun: { 1 ≤ time },
}

impl<'m> Machine<'m> {
    ghost use Rattle.std.specs.Prelude.{◌+◌, ◌-◌, ◌^◌, IfOk, OnErr};
    ghost use Rattle.vm_transpile.specs.Start.{start_blocks};
    ghost use Rattle.vm_executor.specs.Machine.{begun};
    ghost use Rattle.vm_executor.specs.Pages.{AreTouched, never};
    ghost use Rattle.vm_executor.specs.State.{IsStep, machine_of, program_of};

    /// The machine where a run begins, and a segment of it.
    pub fn new(alloc: Global, program: &'m Program, image: &'m Image, hints: Vec<u8>) -> Machine<'m>
        ensures program { program_of result ≡ program.now }
        ensures start { machine_of result ≡ record { pc = image.now.entry; time = 1; hints = hints.items; now = start_blocks image.now; start = start_blocks image.now; times = never } }
    {
        Machine {
            alloc,
            program,
            hints: Hints::new(hints),
            pc: image.entry(),
            time: 1,
            memory: Memory::new(alloc, image),
            reading: Reading::new(alloc),
        }
    }

    /// The pc of the next step.
    pub fn pc(&self) -> u32
        ensures { result ≡ (machine_of self.now).pc }
    {
        self.pc
    }

    /// When the next step begins, counted from 1 in each segment.
    pub fn time(&self) -> u32
        ensures { result ≡ (machine_of self.now).time }
    {
        self.time
    }

    /// Begins a segment: its time is 1, its memory begins as it is now, and no block was accessed.
    pub fn start_segment(&mut self)
        ensures program { program_of self.new ≡ program_of self.old }
        ensures begun { machine_of self.new ≡ begun (machine_of self.old) }
    {
        self.memory.begin_segment();
        self.time = 1;
    }

    /// The pages with a block that was accessed since the segment began, as they were then and as they are
    /// now, in rising order of their labels.
    pub fn touched(&self) -> Result<Vec<Touched>, OutOfMemory>
        ensures { let m = machine_of self.now in IfOk result (λ pages. AreTouched m.start m.now m.times pages.items) }
    {
        self.memory.touched(self.alloc)
    }

    /// Does the row at the pc, and hands on its record. It ends exactly where that is a TERMINATE; it is
    /// stuck where there is no row, where the row has no meaning or an access of it is no block, and where
    /// the hints are too few. Then nothing changes, and nor does it after want of memory, so that the step
    /// can be tried again.
    pub fn step(&mut self) -> Result<Machined, OutOfMemory>
        requires { self.old.time ≤ 2 ^ 29 - 64 }
        ensures program { program_of self.new ≡ program_of self.old }
        ensures step { IfOk result (IsStep (program_of self.old) (machine_of self.old) (machine_of self.new)) }
        ensures err { OnErr result (machine_of self.new ≡ machine_of self.old) }
    {
        self.program.rows_rise();
        let Some(instr) = self.program.lookup(self.pc) else {
            return Ok(Machined::Stuck);
        };
        if instr.op == TERMINATE {
            return Ok(Machined::Ended(instr.imm[0]));
        }
        let Some(given) = given(instr.op, &self.hints) else {
            return Ok(Machined::Stuck);
        };
        if !self.reading.read(&mut self.memory, &instr)? {
            return Ok(Machined::Stuck);
        }
        let reading = &self.reading;
        let time = self.time;
        let accesses = plan(self.alloc, &self.memory, &instr, reading, given, time)?;
        make(&mut self.memory, reading.blocks.as_slice(), &accesses);
        take_hints(instr.op, &mut self.hints);
        let next = next_pc(&instr, reading.words.as_slice());
        self.pc = next;
        self.time += slots(instr.op);
        Ok(Machined::Went(StepRecord {
            instr,
            time,
            accesses,
            next,
        }))
    }
}
