//! REVEAL.

ghost use Rattle.std.specs.Prelude.{◌≡◌, ◌+◌, ◌≤◌, [], length};
ghost use Rattle.air_core.specs.Ring.{field};
ghost use Rattle.adapter_mem.specs.Forms.{access_form};
ghost use Rattle.chip_io.specs.Reveal.{reveal_forms, reveal_parts, reveal_table, reveal_filled};

use adapter_mem::{
    AccessForm, MemoryColumns, MemoryCore, address_filled, memory_filled, opcode_by, owns,
    place_in, shift_by, write_touches,
};
use air_core::{EventSink, HintWord, OutOfMemory};
use gadget_time::{Touch, emit_touches, gap_at, touches_broken};
use vm_field::{Fe, Limbs};
use vm_isa::{StepRecord, opcode, space};

/// The own part of the table of REVEAL. It has no values.
#[derive(Clone, Copy, Debug)]
pub struct RevealCore;

const FORMS: [AccessForm; 1] = [AccessForm {
    op: opcode::REVEAL,
    shift: 0,
    width: 4,
    signed: false,
}];

/// Two registers are read, and the word of the second is put among the public bytes.
fn touches(valid: Fe, block: Fe, m: &MemoryColumns) -> [Touch; 3]
    ensures { result ≡ (reveal_parts field).touches valid block [] m.now }
{
    write_touches(space::PUBLIC, valid, block, m.rd, m.rs1, m, m.middle)
}

/// The columns of a step.
fn filled(done: &StepRecord) -> MemoryColumns
    ensures { result ≡ reveal_filled done.now }
{
    MemoryColumns {
        rs2: Fe::ZERO,
        write: Fe::ZERO,
        ..memory_filled(done)
    }
}

/// In the order of the row.
#[tactic(auto, unfolding(vm_field::specs::Limbs::list_of))]
fn cells(m: &MemoryColumns) -> [Fe; 29]
    ensures { result ≡ reveal_table.cells m.now }
{
    let (imm, base, word, old) = (m.imm, m.base, m.middle, m.last);
    let (a, b, c) = (m.first, m.second, m.third);
    [
        m.rd, m.rs1, imm.x0, imm.x1, imm.x2, imm.x3, base.x0, base.x1, base.x2, base.x3, word.x0,
        word.x1, word.x2, word.x3, old.x0, old.x1, old.x2, old.x3, m.low, m.high, a.before, a.lo,
        a.hi, b.before, b.lo, b.hi, c.before, c.lo, c.hi,
    ]
}

impl MemoryCore for RevealCore {
    ghost use Rattle.std.specs.Prelude.{refl};
    ghost use Rattle.chip_io.specs.lemmas.Reveal.{reveal_laws};
    ghost use Rattle.adapter_mem.proofs.MemoryIsForm.{memory_table_form};

    const FLAGS: usize = 1;

    const REST: usize = 29;

    const SLOTS: u16 = 3;

    ghost FLAGS = { 1 };

    ghost REST = { 29 };

    ghost SLOTS = { 3 };

    ghost table = { reveal_table };

    ghost sizes = { (refl, refl, refl) };

    ghost laws = { reveal_laws };

    ghost form_laws = { memory_table_form reveal_table reveal_laws };

    fn owns(op: u8) -> bool {
        owns(&FORMS, op)
    }

    fn opcode(flags: &[Fe]) -> Fe {
        opcode_by(&FORMS, flags)
    }

    fn shift(flags: &[Fe]) -> Fe {
        shift_by(&FORMS, flags)
    }

    #[tactic(auto, unfolding(vm_field::specs::Limbs::limbs_at))]
    fn read(rest: &[Fe]) -> MemoryColumns {
        let zero = Fe::ZERO;
        MemoryColumns {
            rd: rest[0],
            rs1: rest[1],
            rs2: zero,
            write: zero,
            imm: Limbs::read(rest, 2),
            base: Limbs::read(rest, 6),
            middle: Limbs::read(rest, 10),
            last: Limbs::read(rest, 14),
            low: rest[18],
            high: rest[19],
            sign: zero,
            first: gap_at(rest, 20),
            second: gap_at(rest, 23),
            third: gap_at(rest, 26),
        }
    }

    fn constraints() -> u32 {
        0
    }

    fn first_broken(from: u32, flags: &[Fe], m: &MemoryColumns) -> Option<u32> {
        None
    }

    fn times_broken(
        from: u32,
        time: Fe,
        valid: Fe,
        block: Fe,
        flags: &[Fe],
        m: &MemoryColumns,
    ) -> Option<u32> {
        touches_broken(from, time, &touches(valid, block, m))
    }

    fn accesses<S: EventSink>(
        hi: u32,
        time: Fe,
        valid: Fe,
        block: Fe,
        flags: &[Fe],
        m: &MemoryColumns,
        sink: &mut S,
    ) -> Result<(), OutOfMemory> {
        emit_touches(hi, time, &touches(valid, block, m), sink)
    }

    fn lookups<S: EventSink>(
        valid: Fe,
        flags: &[Fe],
        m: &MemoryColumns,
        sink: &mut S,
    ) -> Result<(), OutOfMemory> {
        Ok(())
    }

    fn hint(hi: u32, row: &[Fe]) -> Option<HintWord> {
        None
    }

    fn place(done: &StepRecord) -> usize {
        place_in(&FORMS, done.instr.op, address_filled(done) % 4)
    }

    fn fill(done: &StepRecord, rest: &mut [Fe]) {
        rest.copy_from_slice(&cells(&filled(done)));
    }
}
