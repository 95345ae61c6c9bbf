//! SB, SH and SW: the low bytes of a register's word are put into a block.

ghost use Rattle.std.specs.Prelude.{◌≡◌, ◌+◌, ◌≤◌, length};
ghost use Rattle.air_core.specs.Ring.{field};
ghost use Rattle.chip_store.specs.Store.{store_parts, store_table, store_filled};

use adapter_mem::{
    AccessForm, MemoryColumns, MemoryCore, address_filled, memory_filled, opcode_by, owns,
    place_in, shift_by, stored_word, write_touches,
};
use air_core::{EventSink, HintWord, OutOfMemory};
use gadget_time::{Touch, emit_touches, gap_at, touches_broken};
use vm_field::{Fe, Limbs};
use vm_isa::{StepRecord, opcode, space};

/// The own part of the table of stores. It has no values.
#[derive(Clone, Copy, Debug)]
pub struct StoreCore;

macro_rules! form {
    ($op:expr, $shift:expr, $width:expr) => {
        AccessForm {
            op: $op,
            shift: $shift,
            width: $width,
            signed: false,
        }
    };
}

/// Of each flag: SB at each place of a block, SH at two, SW.
const FORMS: [AccessForm; 7] = [
    form!(opcode::SB, 0, 1),
    form!(opcode::SB, 1, 1),
    form!(opcode::SB, 2, 1),
    form!(opcode::SB, 3, 1),
    form!(opcode::SH, 0, 2),
    form!(opcode::SH, 2, 2),
    form!(opcode::SW, 0, 4),
];

fn touches(valid: Fe, block: Fe, flags: &[Fe], m: &MemoryColumns) -> [Touch; 3]
    requires { length flags.now ≡ 7 }
    ensures { result ≡ (store_parts field).touches valid block flags.now m.now }
{
    let new = stored_word(&FORMS, flags, &m.middle, &m.last);
    write_touches(space::MEMORY, valid, block, m.rs1, m.rs2, m, new)
}

/// The columns of a step.
fn filled(done: &StepRecord) -> MemoryColumns
    ensures { result ≡ store_filled done.now }
{
    MemoryColumns {
        rd: Fe::ZERO,
        write: Fe::ZERO,
        ..memory_filled(done)
    }
}

/// In the order of the row.
#[tactic(auto, unfolding(vm_field::specs::Limbs::list_of))]
fn cells(m: &MemoryColumns) -> [Fe; 29]
    ensures { result ≡ store_table.cells m.now }
{
    let (imm, base, word, old) = (m.imm, m.base, m.middle, m.last);
    let (a, b, c) = (m.first, m.second, m.third);
    [
        m.rs1, m.rs2, imm.x0, imm.x1, imm.x2, imm.x3, base.x0, base.x1, base.x2, base.x3, word.x0,
        word.x1, word.x2, word.x3, old.x0, old.x1, old.x2, old.x3, m.low, m.high, a.before, a.lo,
        a.hi, b.before, b.lo, b.hi, c.before, c.lo, c.hi,
    ]
}

impl MemoryCore for StoreCore {
    ghost use Rattle.std.specs.Prelude.{refl};
    ghost use Rattle.chip_store.specs.lemmas.Store.{store_laws};
    ghost use Rattle.adapter_mem.proofs.MemoryIsForm.{memory_table_form};

    const FLAGS: usize = 7;

    const REST: usize = 29;

    const SLOTS: u16 = 3;

    ghost FLAGS = { 7 };

    ghost REST = { 29 };

    ghost SLOTS = { 3 };

    ghost table = { store_table };

    ghost sizes = { (refl, refl, refl) };

    ghost laws = { store_laws };

    ghost form_laws = { memory_table_form store_table store_laws };

    fn owns(op: u8) -> bool {
        owns(&FORMS, op)
    }

    fn opcode(flags: &[Fe]) -> Fe {
        opcode_by(&FORMS, flags)
    }

    fn shift(flags: &[Fe]) -> Fe {
        shift_by(&FORMS, flags)
    }

    #[tactic(auto, unfolding(vm_field::specs::Limbs::limbs_at))]
    fn read(rest: &[Fe]) -> MemoryColumns {
        let zero = Fe::ZERO;
        MemoryColumns {
            rd: zero,
            rs1: rest[0],
            rs2: rest[1],
            write: zero,
            imm: Limbs::read(rest, 2),
            base: Limbs::read(rest, 6),
            middle: Limbs::read(rest, 10),
            last: Limbs::read(rest, 14),
            low: rest[18],
            high: rest[19],
            sign: zero,
            first: gap_at(rest, 20),
            second: gap_at(rest, 23),
            third: gap_at(rest, 26),
        }
    }

    fn constraints() -> u32 {
        0
    }

    fn first_broken(from: u32, flags: &[Fe], m: &MemoryColumns) -> Option<u32> {
        None
    }

    fn times_broken(
        from: u32,
        time: Fe,
        valid: Fe,
        block: Fe,
        flags: &[Fe],
        m: &MemoryColumns,
    ) -> Option<u32> {
        touches_broken(from, time, &touches(valid, block, flags, m))
    }

    fn accesses<S: EventSink>(
        hi: u32,
        time: Fe,
        valid: Fe,
        block: Fe,
        flags: &[Fe],
        m: &MemoryColumns,
        sink: &mut S,
    ) -> Result<(), OutOfMemory> {
        emit_touches(hi, time, &touches(valid, block, flags, m), sink)
    }

    fn lookups<S: EventSink>(
        valid: Fe,
        flags: &[Fe],
        m: &MemoryColumns,
        sink: &mut S,
    ) -> Result<(), OutOfMemory> {
        Ok(())
    }

    fn hint(hi: u32, row: &[Fe]) -> Option<HintWord> {
        None
    }

    fn place(done: &StepRecord) -> usize {
        place_in(&FORMS, done.instr.op, address_filled(done) % 4)
    }

    fn fill(done: &StepRecord, rest: &mut [Fe]) {
        rest.copy_from_slice(&cells(&filled(done)));
    }
}
