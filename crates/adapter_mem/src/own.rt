//! What a table of the memory form has of its own.

ghost use Rattle.std.specs.Prelude.{◌≡◌, ℕ, ◌+◌, ◌*◌, ◌^◌, ◌<◌, ◌≤◌, true, List, length, map, MatchOption, OnOk, OnErr};
ghost use Rattle.air_core.specs.First.{first_from};
ghost use Rattle.air_core.specs.Hint.{NoHint, IsHint};
ghost use Rattle.air_core.specs.Ring.{field};
ghost use Rattle.air_core.specs.Sheet.{IsRow, RowHolds, counted, row_events};
ghost use Rattle.air_core.specs.Sink.{Handed, HandedSome};
ghost use Rattle.gadget_time.specs.Form.{owns_of, form_sheet};
ghost use Rattle.gadget_time.specs.FormLaws.{FormLaws};
ghost use Rattle.gadget_time.specs.Told.{touch_constraint, touches_lines};
ghost use Rattle.adapter_mem.specs.declared.memory.MemoryColumns.{MemoryColumns as MemoryRow};
ghost use Rattle.adapter_mem.specs.Forms.{opcodes_of, opcode_by, shift_by};
ghost use Rattle.adapter_mem.specs.Memory.{MemoryTable, memory_form, place_filled};
ghost use Rattle.adapter_mem.specs.MemoryLaws.{MemoryLaws};

use crate::MemoryColumns;
use air_core::{EventSink, HintWord, OutOfMemory};
use vm_field::Fe;
use vm_isa::StepRecord;

/// The own part of a table of the memory form: its flags, the order of its columns, its accesses, and what it says
/// beside the address.
pub trait MemoryCore {
    /// How many flags it has.
    const FLAGS: usize;

    /// How many columns stand behind them.
    const REST: usize;

    /// By how much the time of a valid row goes on.
    const SLOTS: u16;

    ghost FLAGS: { ℕ };

    ghost REST: { ℕ };

    ghost SLOTS: { ℕ };

    /// What the table is.
    ghost table: { MemoryTable };

    /// Whether valid rows of the table have this opcode.
    fn owns(op: u8) -> bool
        ensures { result ≡ owns_of (memory_form table) op };

    /// The opcode of the flag that is set.
    fn opcode(flags: &[Fe]) -> Fe
        requires { length flags.now ≡ length (opcodes_of table.forms) }
        ensures { result ≡ opcode_by field table.forms flags.now };

    /// Its shift.
    fn shift(flags: &[Fe]) -> Fe
        requires { length flags.now ≡ length (opcodes_of table.forms) }
        ensures { result ≡ shift_by field table.forms flags.now };

    /// The columns of a row.
    fn read(rest: &[Fe]) -> MemoryColumns
        requires { length rest.now ≡ table.width }
        ensures { result ≡ table.parts.read rest.now };

    /// How many constraints it has of its own.
    fn constraints() -> u32
        ensures few { result ≤ 1000 }
        ensures number { (flags : List ℕ) (m : MemoryRow ℕ) → length flags ≡ length (opcodes_of table.forms) → length (table.parts.constraints flags m) ≡ result };

    /// The place of the first of these that isn't 0, where the first stands at the place `from`.
    fn first_broken(from: u32, flags: &[Fe], m: &MemoryColumns) -> Option<u32>
        requires flags { length flags.now ≡ length (opcodes_of table.forms) }
        requires from { from < 2 ^ 17 }
        ensures { result ≡ first_from from (table.parts.constraints flags.now m.now) };

    /// The place of the first access whose constraint isn't 0.
    fn times_broken(
        from: u32,
        time: Fe,
        valid: Fe,
        block: Fe,
        flags: &[Fe],
        m: &MemoryColumns,
    ) -> Option<u32>
        requires flags { length flags.now ≡ length (opcodes_of table.forms) }
        requires from { from < 2 ^ 24 }
        ensures { result ≡ first_from from (map (touch_constraint field time) (table.parts.touches valid block flags.now m.now)) };

    /// Hands over what the accesses say.
    fn accesses<S: EventSink>(
        hi: u32,
        time: Fe,
        valid: Fe,
        block: Fe,
        flags: &[Fe],
        m: &MemoryColumns,
        sink: &mut S,
    ) -> Result<(), OutOfMemory>
        requires high { hi ≤ 13 }
        requires flags { length flags.now ≡ length (opcodes_of table.forms) }
        requires room { 4 * length (table.parts.touches valid block flags.now m.now) ≤ S.room sink.old }
        ensures ok { OnOk result (Handed S.holds S.room sink.old sink.new (counted (touches_lines field hi time (table.parts.touches valid block flags.now m.now)))) }
        ensures err { OnErr result (HandedSome S.holds S.room sink.old sink.new (counted (touches_lines field hi time (table.parts.touches valid block flags.now m.now)))) };

    /// Hands over its own lookups.
    fn lookups<S: EventSink>(
        valid: Fe,
        flags: &[Fe],
        m: &MemoryColumns,
        sink: &mut S,
    ) -> Result<(), OutOfMemory>
        requires flags { length flags.now ≡ length (opcodes_of table.forms) }
        requires room { length (table.parts.lookups valid flags.now m.now) ≤ S.room sink.old }
        ensures ok { OnOk result (Handed S.holds S.room sink.old sink.new (counted (table.parts.lookups valid flags.now m.now))) }
        ensures err { OnErr result (HandedSome S.holds S.room sink.old sink.new (counted (table.parts.lookups valid flags.now m.now))) };

    /// What a row that holds takes of the host's words.
    fn hint(hi: u32, row: &[Fe]) -> Option<HintWord>
        requires { length row.now ≡ 2 + length (opcodes_of table.forms) + table.width }
        ensures { IsRow (form_sheet (memory_form table) hi) row.now → RowHolds (form_sheet (memory_form table) hi) row.now
            → MatchOption result (NoHint (row_events (form_sheet (memory_form table) hi) row.now)) (λ h. IsHint h (row_events (form_sheet (memory_form table) hi) row.now)) };

    /// The place of the flag of a record: of its opcode and its address modulo 4.
    fn place(done: &StepRecord) -> usize
        requires { owns_of (memory_form table) done.now.instr.op ≡ true }
        ensures { result ≡ place_filled table.forms done.now };

    /// Writes the columns behind the flags.
    fn fill(done: &StepRecord, rest: &mut [Fe])
        requires long { length rest.old ≡ table.width }
        requires owned { owns_of (memory_form table) done.now.instr.op ≡ true }
        ensures { rest.new ≡ table.cells (table.filled done.now) };

    ghost sizes: { (length (opcodes_of table.forms) ≡ FLAGS) × (table.width ≡ REST) × (table.slots ≡ SLOTS) };

    ghost laws: { MemoryLaws table };

    /// So it is a form with its laws, by the law `a_memory_table_is_a_form`.
    ghost form_laws: { FormLaws (memory_form table) };
}
