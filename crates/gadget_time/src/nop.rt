//! The table of no-operations.

ghost use Rattle.std.specs.Prelude.{◌≡◌, [], ◌∷◌};

use crate::{FormChip, TableForm};
use air_core::{EventSink, HintWord, OutOfMemory};
use vm_field::Fe;
use vm_isa::{StepRecord, opcode};

/// The no-operation as a form: one flag, and no other columns. It has no values.
#[derive(Clone, Copy, Debug)]
pub struct NopForm;

/// The table of no-operations, whose times have HI bits above the lower 16.
pub type NopAt<const HI: u32> = FormChip<NopForm, HI>;

/// The table with times of 24 bits.
pub type Nop = NopAt<8>;

impl TableForm for NopForm {
    ghost use Rattle.std.specs.Prelude.{refl};
    ghost use Rattle.gadget_time.specs.Nop.{nop_form};
    ghost use Rattle.gadget_time.specs.lemmas.NopLaws.{nop_laws};

    const FLAGS: usize = 1;

    const REST: usize = 0;

    const SLOTS: u16 = 1;

    ghost FLAGS = { 1 };

    ghost REST = { 0 };

    ghost SLOTS = { 1 };

    ghost form = { nop_form };

    ghost sizes = { (refl, refl, refl) };

    ghost laws = { nop_laws };

    fn owns(op: u8) -> bool {
        op == opcode::NOP
    }

    fn opcode(flags: &[Fe]) -> Fe {
        air_core::opcode(&[flags[0]], &[opcode::NOP as u16])
    }

    fn next(pc: Fe, time: Fe, flags: &[Fe], rest: &[Fe]) -> Fe {
        pc.add(Fe::of_u16(4))
    }

    fn numbers(op: Fe, pc: Fe, time: Fe, flags: &[Fe], rest: &[Fe]) -> [Fe; 12] {
        let zero = Fe::ZERO;
        [
            pc, op, zero, zero, zero, zero, zero, zero, zero, zero, zero, zero,
        ]
    }

    fn constraints() -> u32 {
        0
    }

    fn first_broken(from: u32, pc: Fe, time: Fe, flags: &[Fe], rest: &[Fe]) -> Option<u32> {
        None
    }

    fn times_broken(from: u32, pc: Fe, time: Fe, flags: &[Fe], rest: &[Fe]) -> Option<u32> {
        None
    }

    fn accesses<S: EventSink>(
        hi: u32,
        pc: Fe,
        time: Fe,
        flags: &[Fe],
        rest: &[Fe],
        sink: &mut S,
    ) -> Result<(), OutOfMemory> {
        Ok(())
    }

    fn others<S: EventSink>(
        pc: Fe,
        time: Fe,
        flags: &[Fe],
        rest: &[Fe],
        sink: &mut S,
    ) -> Result<(), OutOfMemory> {
        Ok(())
    }

    fn hint(hi: u32, row: &[Fe]) -> Option<HintWord> {
        None
    }

    fn place(done: &StepRecord) -> usize {
        0
    }

    fn fill(done: &StepRecord, rest: &mut [Fe]) {}
}
