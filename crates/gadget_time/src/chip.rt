//! An instruction table of any form, as a chip.

ghost use Rattle.std.specs.Prelude.{◌≡◌, ℕ, ◌+◌, ◌-◌, ◌<◌, ◌≤◌, ◌++◌, ◌∷◌, [], true, length, take, slice_index, IsTrue, OnOk, OnErr};
ghost use Rattle.vm_field.specs.Field.{modulus};
ghost use Rattle.air_core.specs.First.{first_from};
ghost use Rattle.air_core.specs.Flags.{one_hot};
ghost use Rattle.air_core.specs.Ring.{field};
ghost use Rattle.air_core.specs.Sheet.{AllZero, counted};
ghost use Rattle.air_core.specs.Sink.{Handed, HandedSome};
ghost use Rattle.gadget_time.specs.Told.{told_lines};
ghost use Rattle.gadget_time.specs.Form.{columns, told_by, form_constraints, owns_of, row_of_columns, filled_columns, parts_of};

use crate::TableForm;
use air_core::{
    Chip, EventSink, HintWord, OutOfMemory, element, emit_path, first, first_nonzero, flag_sum,
    flags_broken,
};
use std::marker::PhantomData;
use vm_field::Fe;
use vm_isa::StepRecord;

/// Where the columns behind the flags begin.
fn rest_from<T: TableForm>() -> usize
    ensures few { result ≤ 66 }
    ensures is { result ≡ 2 + length T.form.opcodes }
{
    let flags = T::FLAGS;
    2 + flags
}

#[tactic(auto, unfolding(crate::specs::Form::columns_by))]
fn flags_of<T: TableForm>(row: &[Fe]) -> &[Fe]
    requires { length row.now ≡ 2 + length T.form.opcodes + T.form.width }
    ensures long { length result.now ≡ length T.form.opcodes }
    ensures few { length result.now ≤ 64 }
    ensures is { result.now ≡ (columns T.form row.now).flags }
{
    &row[2..rest_from::<T>()]
}

#[tactic(auto, unfolding(crate::specs::Form::columns_by))]
fn rest_of<T: TableForm>(row: &[Fe]) -> &[Fe]
    requires { length row.now ≡ 2 + length T.form.opcodes + T.form.width }
    ensures long { length result.now ≡ T.form.width }
    ensures is { result.now ≡ (columns T.form row.now).rest }
{
    &row[rest_from::<T>()..]
}

/// Whether no flag is set.
fn no_flag(flags: &[Fe]) -> bool
    requires { length flags.now ≤ 64 }
    ensures { IsTrue result → AllZero flags.now }
{
    first_nonzero(0, flags).is_none()
}

/// Which constraint of a row is broken first.
fn first_broken<T: TableForm>(row: &[Fe]) -> Option<u32>
    requires { length row.now ≡ 2 + length T.form.opcodes + T.form.width }
    ensures { result ≡ first_from 0 (form_constraints field T.form.parts (columns T.form row.now)) }
{
    let (pc, time) = (row[0], row[1]);
    let flags = flags_of::<T>(row);
    let rest = rest_of::<T>(row);
    let from = flags.len() as u32 + 1;
    let broken = flags_broken(flags);
    let own = T::first_broken(from, pc, time, flags, rest);
    let times = T::times_broken(from + T::constraints(), pc, time, flags, rest);
    first(broken, first(own, times))
}

/// What a row says. One without a flag says nothing, which is tested before all else.
fn events<T: TableForm, const HI: u32, S: EventSink>(
    row: &[Fe],
    sink: &mut S,
) -> Result<(), OutOfMemory>
    requires high { HI ≤ 13 }
    requires wide { length row.now ≡ 2 + length T.form.opcodes + T.form.width }
    requires room { 256 ≤ S.room sink.old }
    ensures ok { OnOk result (Handed S.holds S.room sink.old sink.new (counted (told_lines field HI (told_by T.form (columns T.form row.now))))) }
    ensures err { OnErr result (HandedSome S.holds S.room sink.old sink.new (counted (told_lines field HI (told_by T.form (columns T.form row.now))))) }
{
    let (pc, time) = (row[0], row[1]);
    let flags = flags_of::<T>(row);
    if no_flag(flags) {
        return Ok(());
    }
    let rest = rest_of::<T>(row);
    let next = T::next(pc, time, flags, rest);
    let numbers = T::numbers(T::opcode(flags), pc, time, flags, rest);
    emit_path(flag_sum(flags), pc, time, next, T::SLOTS, &numbers, sink)?;
    T::accesses(HI, pc, time, flags, rest, sink)?;
    T::others(pc, time, flags, rest, sink)
}

/// Sets the flag at a place, and no other.
pub fn set_flag(flags: &mut [Fe], place: usize)
    requires { place < length flags.old }
    ensures { flags.new ≡ one_hot (length flags.old) place }
{
    flags.fill(Fe::ZERO);
    flags[place] = Fe::ONE;
}

/// Writes pc and time.
fn put_head(row: &mut [Fe], pc: Fe, time: Fe)
    requires { 2 ≤ length row.old }
    ensures long { length row.new ≡ length row.old }
    ensures so_far { take 2 row.new ≡ pc ∷ time ∷ [] }
{
    row[0] = pc;
    row[1] = time;
}

/// Writes the flags behind them.
fn put_flags(row: &mut [Fe], end: usize, place: usize)
    requires wide { end ≤ length row.old }
    requires below { 2 + place < end }
    ensures long { length row.new ≡ length row.old }
    ensures so_far { take end row.new ≡ take 2 row.old ++ one_hot (end - 2) place }
{
    set_flag(&mut row[2..end], place);
}

/// Writes the columns behind the flags.
fn put_rest<T: TableForm>(done: &StepRecord, row: &mut [Fe])
    requires pc_low { done.now.instr.pc < modulus }
    requires time_low { done.now.time < modulus }
    requires wide { length row.old ≡ 2 + length T.form.opcodes + T.form.width }
    requires owned { owns_of T.form done.now.instr.op ≡ true }
    ensures { row.new ≡ take (2 + length T.form.opcodes) row.old ++ T.form.filled done.now }
{
    T::fill(done, &mut row[rest_from::<T>()..]);
}

/// Writes the row of a step.
fn fill<T: TableForm>(done: &StepRecord, row: &mut [Fe])
    requires wide { length row.old ≡ 2 + length T.form.opcodes + T.form.width }
    requires pc_low { done.now.instr.pc < modulus }
    requires time_low { done.now.time < modulus }
    requires owned { owns_of T.form done.now.instr.op ≡ true }
    requires place { T.form.place done.now < length T.form.opcodes }
    ensures { row.new ≡ row_of_columns (filled_columns T.form done.now) }
{
    put_head(row, element(done.instr.pc), element(done.time));
    put_flags(row, rest_from::<T>(), T::place(done));
    put_rest::<T>(done, row);
}

/// The table of a form, whose times have HI bits above the lower 16.
#[derive(Drop)]
pub struct FormChip<T: TableForm, const HI: u32> {
    form: PhantomData<T>,
    ghost range: { (8 ≤ HI) × (HI ≤ 13) },
}

impl<T: TableForm, const HI: u32> FormChip<T, HI> {
    pub fn new() -> FormChip<T, HI>
        requires low { 8 ≤ HI }
        requires high { HI ≤ 13 }
    {
        FormChip { form: PhantomData }
    }
}

impl<T: TableForm, const HI: u32> Chip for FormChip<T, HI> {
    ghost use Rattle.gadget_time.specs.Form.{form_sheet};
    ghost use Rattle.gadget_time.specs.lemmas.FormComplete.{form_table};
    ghost use Rattle.std.proofs.Common.{refl};

    const WIDTH: u32 = 2 + T::FLAGS as u32 + T::REST as u32;

    const SLOTS: u32 = T::SLOTS as u32;

    const ROWS: u32 = 1;

    ghost WIDTH = { 2 + T.FLAGS + T.REST };

    ghost SLOTS = { T.SLOTS };

    ghost ROWS = { 1 };

    ghost sheet = { λ _. form_sheet T.form HI };

    ghost sizes = { λ _. (rw (T.sizes.0, T.sizes.1) refl, T.sizes.2, refl) };

    ghost fits = { λ chip. (form_table T.form HI T.laws chip.range.0 chip.range.1).fits };

    ghost buses = { λ chip. (form_table T.form HI T.laws chip.range.0 chip.range.1).buses };

    ghost timed = { λ chip. (form_table T.form HI T.laws chip.range.0 chip.range.1).timed };

    ghost sound = { λ chip. (form_table T.form HI T.laws chip.range.0 chip.range.1).sound };

    ghost complete = { λ chip. (form_table T.form HI T.laws chip.range.0 chip.range.1).complete };

    ghost quiet = { λ chip. (form_table T.form HI T.laws chip.range.0 chip.range.1).quiet };

    fn time_bits(&self) -> u32 {
        16 + HI
    }

    fn owns(&self, op: u8) -> bool {
        T::owns(op)
    }

    fn first_broken(&self, row: &[Fe]) -> Option<u32> {
        first_broken::<T>(row)
    }

    fn events<S: EventSink>(&self, row: &[Fe], sink: &mut S) -> Result<(), OutOfMemory> {
        events::<T, HI, S>(row, sink)
    }

    fn hint(&self, row: &[Fe]) -> Option<HintWord> {
        T::hint(HI, row)
    }

    fn fill(&self, done: &StepRecord, place: u32, row: &mut [Fe]) {
        fill::<T>(done, row);
    }
}
