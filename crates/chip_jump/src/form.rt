//! A core with the form around it.

ghost use Rattle.std.specs.Prelude.{◌≡◌, ◌+◌, ◌*◌, ◌≤◌, ◌<◌, ◌^◌, length, map, OnOk, OnErr};
ghost use Rattle.air_core.specs.First.{first_from};
ghost use Rattle.air_core.specs.Ring.{field};
ghost use Rattle.air_core.specs.Sheet.{counted};
ghost use Rattle.air_core.specs.Sink.{Handed, HandedSome};
ghost use Rattle.gadget_time.specs.Told.{touch_constraint, touches_lines};
ghost use Rattle.chip_jump.specs.Link.{link_form, link_touches, link_filled, write_at};

use crate::columns::{NO_GAP, byte, numbers, write_touch, written};
use crate::{LinkColumns, LinkCore};
use air_core::{EventSink, HintWord, OutOfMemory, element, flag_sum};
use gadget_time::{
    FormChip, TableForm, access_at, emit_touches, gap_of, register_read, touches_broken,
};
use std::marker::PhantomData;
use vm_field::{Fe, Limbs, MODULUS};
use vm_isa::StepRecord;
use vm_word::of_limbs;

/// The form of a core. It has no values.
#[derive(Drop)]
pub struct LinkForm<C: LinkCore> {
    core: PhantomData<C>,
}

/// The table of a core, whose times have HI bits above the lower 16.
pub type LinkChip<C, const HI: u32> = FormChip<LinkForm<C>, HI>;

/// The columns of a step.
fn filled<C: LinkCore>(done: &StepRecord) -> LinkColumns
    ensures { result ≡ link_filled C.link done.now }
{
    let i = done.instr;
    let first = access_at(&done.accesses, 0);
    let last = access_at(&done.accesses, if C::reads() { 1 } else { 0 });
    let (base, old) = (first.access.old, last.access.old);
    let sum = if C::reads() {
        of_limbs(base).wrapping_add(of_limbs(i.imm))
    } else {
        0
    };
    LinkColumns {
        rd: byte(i.rd),
        rs1: byte(i.rs1),
        write: if i.write { Fe::ONE } else { Fe::ZERO },
        target: element(i.target % MODULUS),
        imm: Limbs::of_bytes(&i.imm),
        word: C::word(done),
        new: Limbs::of_bytes(&written(&i)),
        old: Limbs::of_bytes(&old),
        low: element(sum % 65536),
        high: element(sum / 65536),
        parity: element(sum % 2),
        read: if C::reads() { gap_of(&first) } else { NO_GAP },
        wrote: gap_of(&last),
    }
}

impl<C: LinkCore> TableForm for LinkForm<C> {
    ghost use Rattle.chip_jump.specs.lemmas.Form.{link_form_laws};

    const FLAGS: usize = C::FLAGS;

    const REST: usize = C::REST;

    const SLOTS: u16 = C::SLOTS;

    ghost FLAGS = { C.FLAGS };

    ghost REST = { C.REST };

    ghost SLOTS = { C.SLOTS };

    ghost form = { link_form C.link };

    ghost sizes = { C.sizes };

    ghost laws = { link_form_laws C.link C.laws };

    fn owns(op: u8) -> bool {
        C::owns(op)
    }

    fn opcode(flags: &[Fe]) -> Fe {
        C::opcode(flags)
    }

    fn next(pc: Fe, time: Fe, flags: &[Fe], rest: &[Fe]) -> Fe {
        C::next(pc, flags, &C::read(rest))
    }

    fn numbers(op: Fe, pc: Fe, time: Fe, flags: &[Fe], rest: &[Fe]) -> [Fe; 12] {
        numbers(pc, op, &C::read(rest))
    }

    fn constraints() -> u32 {
        C::constraints()
    }

    fn first_broken(from: u32, pc: Fe, time: Fe, flags: &[Fe], rest: &[Fe]) -> Option<u32> {
        C::first_broken(from, pc, flags, &C::read(rest))
    }

    fn times_broken(from: u32, pc: Fe, time: Fe, flags: &[Fe], rest: &[Fe]) -> Option<u32> {
        let (valid, m) = (flag_sum(flags), C::read(rest));
        if C::reads() {
            let read = register_read(valid, 0, m.rs1, &m.word, m.read);
            touches_broken(from, time, &[read, write_touch(valid, 1, &m)])
        } else {
            touches_broken(from, time, &[write_touch(valid, 0, &m)])
        }
    }

    fn accesses<S: EventSink>(
        hi: u32,
        pc: Fe,
        time: Fe,
        flags: &[Fe],
        rest: &[Fe],
        sink: &mut S,
    ) -> Result<(), OutOfMemory> {
        let (valid, m) = (flag_sum(flags), C::read(rest));
        if C::reads() {
            let read = register_read(valid, 0, m.rs1, &m.word, m.read);
            emit_touches(hi, time, &[read, write_touch(valid, 1, &m)], sink)
        } else {
            emit_touches(hi, time, &[write_touch(valid, 0, &m)], sink)
        }
    }

    fn others<S: EventSink>(
        pc: Fe,
        time: Fe,
        flags: &[Fe],
        rest: &[Fe],
        sink: &mut S,
    ) -> Result<(), OutOfMemory> {
        C::lookups(flag_sum(flags), flags, &C::read(rest), sink)
    }

    fn hint(hi: u32, row: &[Fe]) -> Option<HintWord> {
        None
    }

    fn place(done: &StepRecord) -> usize {
        C::place(done.instr.op)
    }

    fn fill(done: &StepRecord, rest: &mut [Fe]) {
        C::fill(&filled::<C>(done), rest);
    }
}
