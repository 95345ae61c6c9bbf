//! What a table of a step that may read one register and write another has of its own.

ghost use Rattle.std.specs.Prelude.{◌≡◌, ℕ, ◌+◌, ◌^◌, ◌<◌, ◌≤◌, Bool, true, List, length, map, slice_index, OnOk, OnErr, if◌then◌else◌};
ghost use Rattle.air_core.specs.First.{first_from};
ghost use Rattle.air_core.specs.Flags.{weighted_from, opcode_place};
ghost use Rattle.air_core.specs.Ring.{field};
ghost use Rattle.air_core.specs.Sheet.{counted};
ghost use Rattle.air_core.specs.Sink.{Handed, HandedSome};
ghost use Rattle.gadget_time.specs.Form.{owns_of};
ghost use Rattle.chip_jump.specs.declared.columns.LinkColumns.{LinkColumns as LinkRow};
ghost use Rattle.chip_jump.specs.Link.{Link, link_form, columns_of, cells_of, ranged_lines, slots_by};
ghost use Rattle.chip_jump.specs.LinkLaws.{LinkLaws};

use crate::LinkColumns;
use air_core::{EventSink, OutOfMemory};
use vm_field::{Fe, Limbs};
use vm_isa::StepRecord;

/// The own part of a table: its flags, the order of its columns, its next pc, constraints and lookups.
pub trait LinkCore {
    /// How many flags it has.
    const FLAGS: usize;

    /// How many columns stand behind them.
    const REST: usize;

    /// By how much the time of a valid row goes on: 2 where a register is read, and 1 where none is.
    const SLOTS: u16;

    ghost FLAGS: { ℕ };

    ghost REST: { ℕ };

    ghost SLOTS: { ℕ };

    /// What the core is.
    ghost link: { Link };

    /// Whether a register is read before another may be written.
    fn reads() -> bool
        ensures { result ≡ link.reads };

    /// Whether valid rows of the table have this opcode.
    fn owns(op: u8) -> bool
        ensures { result ≡ owns_of (link_form link) op };

    /// The opcode of the flag that is set.
    fn opcode(flags: &[Fe]) -> Fe
        requires { length flags.now ≡ length link.opcodes }
        ensures { result ≡ weighted_from field 0 flags.now link.opcodes };

    /// The columns of a row.
    fn read(rest: &[Fe]) -> LinkColumns
        requires { length rest.now ≡ length link.layout }
        ensures { result ≡ columns_of field link.layout rest.now };

    fn next(pc: Fe, flags: &[Fe], m: &LinkColumns) -> Fe
        requires { length flags.now ≡ length link.opcodes }
        ensures { result ≡ link.parts.next pc flags.now m.now };

    /// How many constraints it has.
    fn constraints() -> u32
        ensures few { result ≤ 1000 }
        ensures number { (pc : ℕ) (flags : List ℕ) (m : LinkRow ℕ) → length (link.parts.constraints pc flags m) ≡ result };

    /// The place of the first of these that isn't 0, where the first stands at the place `from`.
    fn first_broken(from: u32, pc: Fe, flags: &[Fe], m: &LinkColumns) -> Option<u32>
        requires flags { length flags.now ≡ length link.opcodes }
        requires from { from < 2 ^ 16 }
        ensures { result ≡ first_from from (link.parts.constraints pc flags.now m.now) };

    /// Hands over its lookups.
    fn lookups<S: EventSink>(
        valid: Fe,
        flags: &[Fe],
        m: &LinkColumns,
        sink: &mut S,
    ) -> Result<(), OutOfMemory>
        requires flags { length flags.now ≡ length link.opcodes }
        requires room { length (link.parts.ranges flags.now m.now) ≤ S.room sink.old }
        ensures ok { OnOk result (Handed S.holds S.room sink.old sink.new (counted (ranged_lines field valid (link.parts.ranges flags.now m.now)))) }
        ensures err { OnErr result (HandedSome S.holds S.room sink.old sink.new (counted (ranged_lines field valid (link.parts.ranges flags.now m.now)))) };

    /// The place of the flag of an opcode.
    fn place(op: u8) -> usize
        requires { owns_of (link_form link) op ≡ true }
        ensures { result ≡ opcode_place link.opcodes op };

    /// The word of a step beside the new one: what is read, or pc.
    fn word(done: &StepRecord) -> Limbs
        ensures { result ≡ link.word done.now };

    /// Writes the columns in the order of the row.
    fn fill(m: &LinkColumns, rest: &mut [Fe])
        requires { length rest.old ≡ length link.layout }
        ensures { rest.new ≡ cells_of link.layout m.now };

    ghost sizes: { (length link.opcodes ≡ FLAGS) × (length link.layout ≡ REST) × (slots_by link.reads ≡ SLOTS) };

    ghost laws: { LinkLaws link };
}
