//! What an instruction table has of its own: all else is the same for each.

ghost use Rattle.std.specs.Prelude.{◌≡◌, ℕ, ◌+◌, ◌*◌, ◌^◌, ◌<◌, ◌≤◌, ◌∷◌, true, List, length, map, MatchOption, OnOk, OnErr};
ghost use Rattle.vm_field.specs.Field.{modulus};
ghost use Rattle.air_core.specs.First.{first_from};
ghost use Rattle.air_core.specs.Flags.{weighted_from};
ghost use Rattle.air_core.specs.Hint.{NoHint, IsHint};
ghost use Rattle.air_core.specs.Ring.{field};
ghost use Rattle.air_core.specs.Sheet.{IsRow, RowHolds, counted, row_events};
ghost use Rattle.air_core.specs.Sink.{Handed, HandedSome};
ghost use Rattle.gadget_time.specs.Form.{Form, parts_of, owns_of, form_sheet};
ghost use Rattle.gadget_time.specs.FormLaws.{FormLaws};
ghost use Rattle.gadget_time.specs.Told.{touch_constraint, touches_lines};

use air_core::{EventSink, HintWord, OutOfMemory};
use vm_field::Fe;
use vm_isa::StepRecord;

/// An instruction table by its own part: a row is pc, time, the flags and the rest, which the methods
/// are given. `FormChip` is the table.
pub trait TableForm {
    /// How many flags a row has.
    const FLAGS: usize;

    /// How many columns stand behind them.
    const REST: usize;

    /// By how much the time of a valid row goes on.
    const SLOTS: u16;

    ghost FLAGS: { ℕ };

    ghost REST: { ℕ };

    ghost SLOTS: { ℕ };

    /// What the table is.
    ghost form: { Form };

    /// Whether valid rows of the table have this opcode.
    fn owns(op: u8) -> bool
        ensures { result ≡ owns_of form op };

    /// The opcode of the flag that is set.
    fn opcode(flags: &[Fe]) -> Fe
        requires { length flags.now ≡ length form.opcodes }
        ensures { result ≡ weighted_from field 0 flags.now form.opcodes };

    fn next(pc: Fe, time: Fe, flags: &[Fe], rest: &[Fe]) -> Fe
        requires flags { length flags.now ≡ length form.opcodes }
        requires rest { length rest.now ≡ form.width }
        ensures { result ≡ form.parts.next (parts_of pc time flags.now rest.now) };

    /// The program row, with this opcode.
    fn numbers(op: Fe, pc: Fe, time: Fe, flags: &[Fe], rest: &[Fe]) -> [Fe; 12]
        requires flags { length flags.now ≡ length form.opcodes }
        requires rest { length rest.now ≡ form.width }
        ensures { result ≡ pc ∷ op ∷ form.parts.numbers (parts_of pc time flags.now rest.now) };

    /// How many constraints it has beside those of the flags and of the accesses' times.
    fn constraints() -> u32
        ensures few { result ≤ 2 ^ 16 }
        ensures number { (flags rest : List ℕ) (pc time : ℕ) → length flags ≡ length form.opcodes → length rest ≡ form.width → length (form.parts.constraints (parts_of pc time flags rest)) ≡ result };

    /// The place of the first of these that isn't 0, where the first stands at the place `from`.
    fn first_broken(from: u32, pc: Fe, time: Fe, flags: &[Fe], rest: &[Fe]) -> Option<u32>
        requires flags { length flags.now ≡ length form.opcodes }
        requires rest { length rest.now ≡ form.width }
        requires from { from < 2 ^ 16 }
        ensures { result ≡ first_from from (form.parts.constraints (parts_of pc time flags.now rest.now)) };

    /// The place of the first access whose constraint isn't 0: `touches_broken` of the accesses.
    fn times_broken(from: u32, pc: Fe, time: Fe, flags: &[Fe], rest: &[Fe]) -> Option<u32>
        requires flags { length flags.now ≡ length form.opcodes }
        requires rest { length rest.now ≡ form.width }
        requires from { from < 2 ^ 24 }
        ensures { result ≡ first_from from (map (touch_constraint field time) (form.parts.touches (parts_of pc time flags.now rest.now))) };

    /// Hands over what the accesses say, with `hi` bits above the lower 16 of what lies between: `emit_touches` of them.
    fn accesses<S: EventSink>(
        hi: u32,
        pc: Fe,
        time: Fe,
        flags: &[Fe],
        rest: &[Fe],
        sink: &mut S,
    ) -> Result<(), OutOfMemory>
        requires high { hi ≤ 13 }
        requires flags { length flags.now ≡ length form.opcodes }
        requires rest { length rest.now ≡ form.width }
        requires room { 4 * length (form.parts.touches (parts_of pc time flags.now rest.now)) ≤ S.room sink.old }
        ensures ok { OnOk result (Handed S.holds S.room sink.old sink.new (counted (touches_lines field hi time (form.parts.touches (parts_of pc time flags.now rest.now))))) }
        ensures err { OnErr result (HandedSome S.holds S.room sink.old sink.new (counted (touches_lines field hi time (form.parts.touches (parts_of pc time flags.now rest.now))))) };

    /// Hands over what a row says beside path, program row and accesses.
    fn others<S: EventSink>(
        pc: Fe,
        time: Fe,
        flags: &[Fe],
        rest: &[Fe],
        sink: &mut S,
    ) -> Result<(), OutOfMemory>
        requires flags { length flags.now ≡ length form.opcodes }
        requires rest { length rest.now ≡ form.width }
        requires room { length (form.parts.others (parts_of pc time flags.now rest.now)) ≤ S.room sink.old }
        ensures ok { OnOk result (Handed S.holds S.room sink.old sink.new (counted (form.parts.others (parts_of pc time flags.now rest.now)))) }
        ensures err { OnErr result (HandedSome S.holds S.room sink.old sink.new (counted (form.parts.others (parts_of pc time flags.now rest.now)))) };

    /// What a row that holds takes of the host's words.
    fn hint(hi: u32, row: &[Fe]) -> Option<HintWord>
        requires { length row.now ≡ 2 + length form.opcodes + form.width }
        ensures { IsRow (form_sheet form hi) row.now → RowHolds (form_sheet form hi) row.now
            → MatchOption result (NoHint (row_events (form_sheet form hi) row.now)) (λ h. IsHint h (row_events (form_sheet form hi) row.now)) };

    /// The place of the flag that a record sets.
    fn place(done: &StepRecord) -> usize
        requires pc_low { done.now.instr.pc < modulus }
        requires time_low { done.now.time < modulus }
        requires owned { owns_of form done.now.instr.op ≡ true }
        ensures { result ≡ form.place done.now };

    /// Writes the columns behind the flags.
    fn fill(done: &StepRecord, rest: &mut [Fe])
        requires pc_low { done.now.instr.pc < modulus }
        requires time_low { done.now.time < modulus }
        requires long { length rest.old ≡ form.width }
        requires owned { owns_of form done.now.instr.op ≡ true }
        ensures { rest.new ≡ form.filled done.now };

    ghost sizes: { (length form.opcodes ≡ FLAGS) × (form.width ≡ REST) × (form.slots ≡ SLOTS) };

    ghost laws: { FormLaws form };
}
