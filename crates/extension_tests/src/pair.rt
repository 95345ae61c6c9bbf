//! Two tables whose meaning hangs on a private bus.

ghost use Rattle.std.specs.Prelude.{◌≡◌, ◌<◌, ◌≤◌, length, OnOk, OnErr};
ghost use Rattle.air_core.specs.First.{first_from};
ghost use Rattle.air_core.specs.Sheet.{counted};
ghost use Rattle.air_core.specs.Sink.{Handed, HandedSome};
ghost use Rattle.extension_tests.specs.Pair.{pair, step_sheet, answer_sheet, step_lines, step_numbers, answer_constraint};
ghost use Rattle.extension_tests.specs.PairLaws.{pair_fits, pair_buses, pair_rows, pair_timed, pair_complete, pair_quiet};
ghost use Rattle.extension_tests.specs.PairSound.{pair_sound};

use air_core::{
    EventSink, Extension, HintWord, OutOfMemory, bit, bus, element, emit_path, emit_received,
    emit_sent, first_nonzero,
};
use vm_field::Fe;
use vm_isa::{StepRecord, opcode};

/// The no-operation in two tables: table 0 steps by a number that table 1 gives on bus 6.
#[derive(Clone, Copy, Debug)]
pub struct Pair;

impl Extension for Pair {
    ghost system = { λ _. pair };

    ghost fits = { λ _. pair_fits };

    ghost buses = { λ _. pair_buses };

    ghost rows = { λ _. pair_rows };

    ghost timed = { λ _. pair_timed };

    ghost sound = { λ _. pair_sound };

    ghost complete = { λ _. pair_complete };

    ghost quiet = { λ _. pair_quiet };

    fn tables(&self) -> u32 {
        2
    }

    fn width(&self, table: u32) -> u32 {
        if table == 0 { 4 } else { 2 }
    }

    fn slots(&self, table: u32) -> u32 {
        if table == 0 { 1 } else { 0 }
    }

    fn time_bits(&self) -> u32 {
        24
    }

    fn owner(&self, op: u8) -> Option<u32> {
        if op == opcode::NOP { Some(0) } else { None }
    }

    fn is_private(&self, number: u8) -> bool {
        number == bus::FIRST_PRIVATE
    }

    fn rows_for(&self, done: &StepRecord, _table: u32) -> u32 {
        if done.instr.op == opcode::NOP { 1 } else { 0 }
    }

    fn first_broken(&self, table: u32, row: &[Fe]) -> Option<u32> {
        if table == 0 {
            first_nonzero(0, &[bit(row[2])])
        } else {
            first_nonzero(0, &[answer_broken(row[0], row[1])])
        }
    }

    fn events<S: EventSink>(
        &self,
        table: u32,
        row: &[Fe],
        sink: &mut S,
    ) -> Result<(), OutOfMemory> {
        match table {
            0 => emit_step(row[0], row[1], row[2], row[3], sink),
            1 => emit_answer(row, sink),
            _ => unreachable!(),
        }
    }

    fn hint(&self, table: u32, row: &[Fe]) -> Option<HintWord> {
        None
    }

    fn fill(&self, done: &StepRecord, table: u32, _place: u32, row: &mut [Fe]) {
        match table {
            0 => row.copy_from_slice(&[
                element(done.instr.pc),
                element(done.time),
                Fe::ONE,
                Fe::of_u16(4),
            ]),
            1 => row.copy_from_slice(&[Fe::of_u16(4), Fe::ONE]),
            _ => unreachable!(),
        }
    }
}

#[tactic(auto, unfolding(crate::specs::Pair::answer_constraint))]
fn answer_broken(y: Fe, count: Fe) -> Fe
    ensures { result ≡ answer_constraint y count }
{
    count.mul(y.sub(Fe::of_u16(4)))
}

#[tactic(auto, unfolding(crate::specs::Pair::step_numbers))]
fn numbers(pc: Fe, flag: Fe) -> [Fe; 12]
    ensures { result ≡ step_numbers pc flag }
{
    let mut numbers = [Fe::ZERO; 12];
    numbers[0] = pc;
    numbers[1] = flag.mul(Fe::of_u16(39));
    numbers
}

/// The step, and its number on the private bus.
#[tactic(auto, unfolding(crate::specs::Pair::step_lines))]
fn emit_step<S: EventSink>(
    pc: Fe,
    time: Fe,
    flag: Fe,
    x: Fe,
    sink: &mut S,
) -> Result<(), OutOfMemory>
    requires room { 4 ≤ S.room sink.old }
    ensures ok { OnOk result (Handed S.holds S.room sink.old sink.new (counted (step_lines pc time flag x))) }
    ensures err { OnErr result (HandedSome S.holds S.room sink.old sink.new (counted (step_lines pc time flag x))) }
{
    emit_path(flag, pc, time, pc.add(x), 1, &numbers(pc, flag), sink)?;
    emit_sent(bus::FIRST_PRIVATE, flag, &[x], sink)
}

/// The number that is answered, as often as it is asked for.
fn emit_answer<S: EventSink>(row: &[Fe], sink: &mut S) -> Result<(), OutOfMemory>
    requires wide { length row.now ≡ 2 }
    requires room { 1 ≤ S.room sink.old }
    ensures ok { OnOk result (Handed S.holds S.room sink.old sink.new (counted (answer_sheet.lines row.now))) }
    ensures err { OnErr result (HandedSome S.holds S.room sink.old sink.new (counted (answer_sheet.lines row.now))) }
{
    emit_received(bus::FIRST_PRIVATE, row[1], &[row[0]], sink)
}
