//! A table of the memory form, as a form.

ghost use Rattle.std.specs.Prelude.{◌≡◌, ◌+◌, length};

use crate::{MemoryCore, address_constraints, emit_address, memory_numbers, pointer_of};
use air_core::{EventSink, HintWord, OutOfMemory, first, first_nonzero, flag_sum};
use gadget_time::{FormChip, TableForm};
use std::marker::PhantomData;
use vm_field::Fe;
use vm_isa::StepRecord;

/// The form of a core. It has no values.
#[derive(Drop)]
pub struct MemoryForm<C: MemoryCore> {
    core: PhantomData<C>,
}

/// The table of a core, whose times have HI bits above the lower 16.
pub type MemoryChip<C, const HI: u32> = FormChip<MemoryForm<C>, HI>;

impl<C: MemoryCore> TableForm for MemoryForm<C> {
    ghost use Rattle.adapter_mem.specs.Memory.{memory_form};

    const FLAGS: usize = C::FLAGS;

    const REST: usize = C::REST;

    const SLOTS: u16 = C::SLOTS;

    ghost FLAGS = { C.FLAGS };

    ghost REST = { C.REST };

    ghost SLOTS = { C.SLOTS };

    ghost form = { memory_form C.table };

    ghost sizes = { C.sizes };

    ghost laws = { C.form_laws };

    fn owns(op: u8) -> bool {
        C::owns(op)
    }

    fn opcode(flags: &[Fe]) -> Fe {
        C::opcode(flags)
    }

    fn next(pc: Fe, time: Fe, flags: &[Fe], rest: &[Fe]) -> Fe {
        pc.add(Fe::of_u16(4))
    }

    fn numbers(op: Fe, pc: Fe, time: Fe, flags: &[Fe], rest: &[Fe]) -> [Fe; 12] {
        memory_numbers(pc, op, &C::read(rest))
    }

    fn constraints() -> u32 {
        let own = C::constraints();
        2 + own
    }

    fn first_broken(from: u32, pc: Fe, time: Fe, flags: &[Fe], rest: &[Fe]) -> Option<u32> {
        let m = C::read(rest);
        let address = first_nonzero(from, &address_constraints(&m));
        let own = C::first_broken(from + 2, flags, &m);
        first(address, own)
    }

    fn times_broken(from: u32, pc: Fe, time: Fe, flags: &[Fe], rest: &[Fe]) -> Option<u32> {
        let m = C::read(rest);
        let block = pointer_of(C::shift(flags), &m);
        C::times_broken(from, time, flag_sum(flags), block, flags, &m)
    }

    fn accesses<S: EventSink>(
        hi: u32,
        pc: Fe,
        time: Fe,
        flags: &[Fe],
        rest: &[Fe],
        sink: &mut S,
    ) -> Result<(), OutOfMemory> {
        let m = C::read(rest);
        let block = pointer_of(C::shift(flags), &m);
        C::accesses(hi, time, flag_sum(flags), block, flags, &m, sink)
    }

    fn others<S: EventSink>(
        pc: Fe,
        time: Fe,
        flags: &[Fe],
        rest: &[Fe],
        sink: &mut S,
    ) -> Result<(), OutOfMemory> {
        let m = C::read(rest);
        let valid = flag_sum(flags);
        emit_address(valid, C::shift(flags), &m, sink)?;
        C::lookups(valid, flags, &m, sink)
    }

    fn hint(hi: u32, row: &[Fe]) -> Option<HintWord> {
        C::hint(hi, row)
    }

    fn place(done: &StepRecord) -> usize {
        C::place(done)
    }

    fn fill(done: &StepRecord, rest: &mut [Fe]) {
        C::fill(done, rest)
    }
}
