//! HINT.

ghost use Rattle.std.specs.Prelude.{◌≡◌, ◌+◌, ◌≤◌, [], length};
ghost use Rattle.air_core.specs.Ring.{field};
ghost use Rattle.adapter_mem.specs.Forms.{access_form};
ghost use Rattle.chip_io.specs.Hint.{hint_forms, hint_parts, hint_table, hint_filled};

use adapter_mem::{
    AccessForm, MemoryColumns, MemoryCore, address_filled, memory_filled, opcode_by, owns,
    place_in, shift_by,
};
use air_core::{EventSink, HintWord, OutOfMemory};
use gadget_limbs::emit_ranges;
use gadget_time::{
    Gap, Touch, access_at, block_touch, emit_touches, gap_at, register_read, touches_broken,
};
use vm_field::{Fe, Limbs};
use vm_isa::{StepRecord, opcode, space};

/// The own part of the table of HINT. It has no values.
#[derive(Clone, Copy, Debug)]
pub struct HintCore;

const FORMS: [AccessForm; 1] = [AccessForm {
    op: opcode::HINT,
    shift: 0,
    width: 4,
    signed: false,
}];

const NO_GAP: Gap = Gap {
    before: Fe::ZERO,
    lo: Fe::ZERO,
    hi: Fe::ZERO,
};

/// A register is read, and the word that the host gives is stored.
fn touches(valid: Fe, block: Fe, m: &MemoryColumns) -> [Touch; 2]
    ensures { result ≡ (hint_parts field).touches valid block [] m.now }
{
    [
        register_read(valid, 0, m.rd, &m.base, m.first),
        block_touch(valid, 1, space::MEMORY, block, m.middle, m.last, m.second),
    ]
}

/// The columns of a step.
fn filled(done: &StepRecord) -> MemoryColumns
    ensures { result ≡ hint_filled done.now }
{
    let given = access_at(&done.accesses, 1).access.new;
    MemoryColumns {
        rs1: Fe::ZERO,
        rs2: Fe::ZERO,
        write: Fe::ZERO,
        last: Limbs::of_bytes(&given),
        third: NO_GAP,
        ..memory_filled(done)
    }
}

/// In the order of the row.
#[tactic(auto, unfolding(vm_field::specs::Limbs::list_of))]
fn cells(m: &MemoryColumns) -> [Fe; 25]
    ensures { result ≡ hint_table.cells m.now }
{
    let (imm, base, old, given) = (m.imm, m.base, m.middle, m.last);
    let (a, b) = (m.first, m.second);
    [
        m.rd, imm.x0, imm.x1, imm.x2, imm.x3, base.x0, base.x1, base.x2, base.x3, old.x0, old.x1,
        old.x2, old.x3, given.x0, given.x1, given.x2, given.x3, m.low, m.high, a.before, a.lo,
        a.hi, b.before, b.lo, b.hi,
    ]
}

impl MemoryCore for HintCore {
    ghost use Rattle.std.specs.Prelude.{refl};
    ghost use Rattle.chip_io.specs.lemmas.Hint.{hint_laws};
    ghost use Rattle.adapter_mem.proofs.MemoryIsForm.{memory_table_form};

    const FLAGS: usize = 1;

    const REST: usize = 25;

    const SLOTS: u16 = 2;

    ghost FLAGS = { 1 };

    ghost REST = { 25 };

    ghost SLOTS = { 2 };

    ghost table = { hint_table };

    ghost sizes = { (refl, refl, refl) };

    ghost laws = { hint_laws };

    ghost form_laws = { memory_table_form hint_table hint_laws };

    fn owns(op: u8) -> bool {
        owns(&FORMS, op)
    }

    fn opcode(flags: &[Fe]) -> Fe {
        opcode_by(&FORMS, flags)
    }

    fn shift(flags: &[Fe]) -> Fe {
        shift_by(&FORMS, flags)
    }

    #[tactic(auto, unfolding(vm_field::specs::Limbs::limbs_at))]
    fn read(rest: &[Fe]) -> MemoryColumns {
        let zero = Fe::ZERO;
        MemoryColumns {
            rd: rest[0],
            rs1: zero,
            rs2: zero,
            write: zero,
            imm: Limbs::read(rest, 1),
            base: Limbs::read(rest, 5),
            middle: Limbs::read(rest, 9),
            last: Limbs::read(rest, 13),
            low: rest[17],
            high: rest[18],
            sign: zero,
            first: gap_at(rest, 19),
            second: gap_at(rest, 22),
            third: NO_GAP,
        }
    }

    fn constraints() -> u32 {
        0
    }

    fn first_broken(from: u32, flags: &[Fe], m: &MemoryColumns) -> Option<u32> {
        None
    }

    fn times_broken(
        from: u32,
        time: Fe,
        valid: Fe,
        block: Fe,
        flags: &[Fe],
        m: &MemoryColumns,
    ) -> Option<u32> {
        touches_broken(from, time, &touches(valid, block, m))
    }

    fn accesses<S: EventSink>(
        hi: u32,
        time: Fe,
        valid: Fe,
        block: Fe,
        flags: &[Fe],
        m: &MemoryColumns,
        sink: &mut S,
    ) -> Result<(), OutOfMemory> {
        emit_touches(hi, time, &touches(valid, block, m), sink)
    }

    /// The word that is given is bytes.
    fn lookups<S: EventSink>(
        valid: Fe,
        flags: &[Fe],
        m: &MemoryColumns,
        sink: &mut S,
    ) -> Result<(), OutOfMemory> {
        emit_ranges(valid, Fe::of_u16(8), &m.last.array(), sink)
    }

    fn hint(hi: u32, row: &[Fe]) -> Option<HintWord> {
        if row[2] == Fe::ONE {
            Some(HintWord {
                time: row[1],
                word: [row[16], row[17], row[18], row[19]],
                next: false,
            })
        } else {
            None
        }
    }

    fn place(done: &StepRecord) -> usize {
        place_in(&FORMS, done.instr.op, address_filled(done) % 4)
    }

    fn fill(done: &StepRecord, rest: &mut [Fe]) {
        rest.copy_from_slice(&cells(&filled(done)));
    }
}
