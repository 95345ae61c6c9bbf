//! LB, LH, LW, LBU and LHU: a register gets what is read of a block.

ghost use Rattle.std.specs.Prelude.{◌≡◌, ◌+◌, ◌≤◌, length};
ghost use Rattle.air_core.specs.Ring.{field};
ghost use Rattle.chip_load.specs.Load.{load_parts, load_table, load_filled};

use adapter_mem::{
    AccessForm, MemoryColumns, MemoryCore, address_filled, form_at, loaded_word, memory_filled,
    opcode_by, owns, place_in, read_touches, shift_by, sign_of, signed_by, top_by,
};
use air_core::{EventSink, HintWord, OutOfMemory, bus, emit_sent, first_nonzero};
use gadget_limbs::{sign_constraints, sign_looked_up};
use gadget_time::{Touch, access_at, emit_touches, gap_at, touches_broken};
use vm_field::{Fe, Limbs};
use vm_isa::{StepRecord, opcode};

/// The own part of the table of loads. It has no values.
#[derive(Clone, Copy, Debug)]
pub struct LoadCore;

macro_rules! form {
    ($op:expr, $shift:expr, $width:expr, $signed:expr) => {
        AccessForm {
            op: $op,
            shift: $shift,
            width: $width,
            signed: $signed,
        }
    };
}

/// Of each flag: LB at each place of a block, LH at two, LW, LBU and LHU.
const FORMS: [AccessForm; 13] = [
    form!(opcode::LB, 0, 1, true),
    form!(opcode::LB, 1, 1, true),
    form!(opcode::LB, 2, 1, true),
    form!(opcode::LB, 3, 1, true),
    form!(opcode::LH, 0, 2, true),
    form!(opcode::LH, 2, 2, true),
    form!(opcode::LW, 0, 4, false),
    form!(opcode::LBU, 0, 1, false),
    form!(opcode::LBU, 1, 1, false),
    form!(opcode::LBU, 2, 1, false),
    form!(opcode::LBU, 3, 1, false),
    form!(opcode::LHU, 0, 2, false),
    form!(opcode::LHU, 2, 2, false),
];

fn touches(valid: Fe, block: Fe, flags: &[Fe], m: &MemoryColumns) -> [Touch; 3]
    requires { length flags.now ≡ 13 }
    ensures { result ≡ (load_parts field).touches valid block flags.now m.now }
{
    let new = loaded_word(&FORMS, flags, &m.middle, m.sign);
    read_touches(valid, block, m, new)
}

/// The columns of a step.
fn filled(done: &StepRecord) -> MemoryColumns
    ensures { result ≡ load_filled done.now }
{
    let place = place_in(&FORMS, done.instr.op, address_filled(done) % 4);
    let form = form_at(&FORMS, place);
    let block = access_at(&done.accesses, 1).access.old;
    MemoryColumns {
        rs2: Fe::ZERO,
        sign: sign_of(&form, &block),
        ..memory_filled(done)
    }
}

/// In the order of the row.
#[tactic(auto, unfolding(vm_field::specs::Limbs::list_of))]
fn cells(m: &MemoryColumns) -> [Fe; 31]
    ensures { result ≡ load_table.cells m.now }
{
    let (imm, base, block, old) = (m.imm, m.base, m.middle, m.last);
    let (a, b, c) = (m.first, m.second, m.third);
    [
        m.rd, m.rs1, m.write, imm.x0, imm.x1, imm.x2, imm.x3, base.x0, base.x1, base.x2, base.x3,
        block.x0, block.x1, block.x2, block.x3, old.x0, old.x1, old.x2, old.x3, m.low, m.high,
        m.sign, a.before, a.lo, a.hi, b.before, b.lo, b.hi, c.before, c.lo, c.hi,
    ]
}

impl MemoryCore for LoadCore {
    ghost use Rattle.std.specs.Prelude.{refl};
    ghost use Rattle.chip_load.specs.lemmas.Load.{load_laws};
    ghost use Rattle.adapter_mem.proofs.MemoryIsForm.{memory_table_form};

    const FLAGS: usize = 13;

    const REST: usize = 31;

    const SLOTS: u16 = 3;

    ghost FLAGS = { 13 };

    ghost REST = { 31 };

    ghost SLOTS = { 3 };

    ghost table = { load_table };

    ghost sizes = { (refl, refl, refl) };

    ghost laws = { load_laws };

    ghost form_laws = { memory_table_form load_table load_laws };

    fn owns(op: u8) -> bool {
        owns(&FORMS, op)
    }

    fn opcode(flags: &[Fe]) -> Fe {
        opcode_by(&FORMS, flags)
    }

    fn shift(flags: &[Fe]) -> Fe {
        shift_by(&FORMS, flags)
    }

    #[tactic(auto, unfolding(vm_field::specs::Limbs::limbs_at))]
    fn read(rest: &[Fe]) -> MemoryColumns {
        MemoryColumns {
            rd: rest[0],
            rs1: rest[1],
            rs2: Fe::ZERO,
            write: rest[2],
            imm: Limbs::read(rest, 3),
            base: Limbs::read(rest, 7),
            middle: Limbs::read(rest, 11),
            last: Limbs::read(rest, 15),
            low: rest[19],
            high: rest[20],
            sign: rest[21],
            first: gap_at(rest, 22),
            second: gap_at(rest, 25),
            third: gap_at(rest, 28),
        }
    }

    fn constraints() -> u32 {
        2
    }

    fn first_broken(from: u32, flags: &[Fe], m: &MemoryColumns) -> Option<u32> {
        first_nonzero(from, &sign_constraints(m.sign, signed_by(&FORMS, flags)))
    }

    fn times_broken(
        from: u32,
        time: Fe,
        valid: Fe,
        block: Fe,
        flags: &[Fe],
        m: &MemoryColumns,
    ) -> Option<u32> {
        touches_broken(from, time, &touches(valid, block, flags, m))
    }

    fn accesses<S: EventSink>(
        hi: u32,
        time: Fe,
        valid: Fe,
        block: Fe,
        flags: &[Fe],
        m: &MemoryColumns,
        sink: &mut S,
    ) -> Result<(), OutOfMemory> {
        emit_touches(hi, time, &touches(valid, block, flags, m), sink)
    }

    /// The sign, where the form has one.
    fn lookups<S: EventSink>(
        valid: Fe,
        flags: &[Fe],
        m: &MemoryColumns,
        sink: &mut S,
    ) -> Result<(), OutOfMemory> {
        let looked_up = sign_looked_up(m.sign, top_by(&FORMS, flags, &m.middle));
        emit_sent(bus::XOR, signed_by(&FORMS, flags), &looked_up, sink)
    }

    fn hint(hi: u32, row: &[Fe]) -> Option<HintWord> {
        None
    }

    fn place(done: &StepRecord) -> usize {
        place_in(&FORMS, done.instr.op, address_filled(done) % 4)
    }

    fn fill(done: &StepRecord, rest: &mut [Fe]) {
        rest.copy_from_slice(&cells(&filled(done)));
    }
}
