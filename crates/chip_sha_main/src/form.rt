//! The own part of the table of SHA blocks.

ghost use Rattle.air_core.specs.Ring.{field};
ghost use Rattle.std.specs.Prelude.{◌≡◌, ◌≤◌, ◌++◌, length, slice_index, OnOk, OnErr};
ghost use Rattle.air_core.specs.Sheet.{counted};
ghost use Rattle.air_core.specs.Sink.{Handed, HandedSome};
ghost use Rattle.chip_sha_main.specs.Main.{main_row, main_ranges, chain_lines};

use crate::accesses::touches;
use crate::fill::fill;
use crate::words::{carries, end_words, start_words};
use air_core::{
    EventSink, HintWord, OutOfMemory, bus, emit_received, emit_sent, first_nonzero, flag_sum,
};
use gadget_bits::stage_tuple;
use gadget_limbs::emit_ranges;
use gadget_time::{FormChip, TableForm, emit_touches, touches_broken};
use vm_field::Fe;
use vm_isa::{StepRecord, opcode};

/// SHA blocks as a form. It has no values.
#[derive(Clone, Copy, Debug)]
pub struct ShaMainForm;

/// The table of SHA blocks, whose times have HI bits above the lower 16.
pub type ShaMainAt<const HI: u32> = FormChip<ShaMainForm, HI>;

/// The table with times of 24 bits.
pub type ShaMain = ShaMainAt<8>;

/// Pointers are low, and the new state is bytes.
fn emit_main_ranges<S: EventSink>(valid: Fe, rest: &[Fe], sink: &mut S) -> Result<(), OutOfMemory>
    requires wide { length rest.now ≡ 264 }
    requires room { 34 ≤ S.room sink.old }
    ensures ok { OnOk result (Handed S.holds S.room sink.old sink.new (counted (main_ranges field (main_row 0 0 valid (slice_index rest.now))))) }
    ensures err { OnErr result (HandedSome S.holds S.room sink.old sink.new (counted (main_ranges field (main_row 0 0 valid (slice_index rest.now))))) }
{
    emit_ranges(valid, Fe::of_u16(5), &[rest[5], rest[9]], sink)?;
    emit_ranges(valid, Fe::of_u16(8), &rest[106..138], sink)
}

/// The stage before the first round, and the one behind the last.
fn emit_chain<S: EventSink>(
    time: Fe,
    valid: Fe,
    rest: &[Fe],
    sink: &mut S,
) -> Result<(), OutOfMemory>
    requires wide { length rest.now ≡ 264 }
    requires room { 2 ≤ S.room sink.old }
    ensures ok { OnOk result (Handed S.holds S.room sink.old sink.new (counted (chain_lines field (main_row 0 time valid (slice_index rest.now))))) }
    ensures err { OnErr result (HandedSome S.holds S.room sink.old sink.new (counted (chain_lines field (main_row 0 time valid (slice_index rest.now))))) }
{
    let start = stage_tuple(time, Fe::ZERO, &start_words(rest));
    let end = stage_tuple(time, Fe::of_u16(64), &end_words(rest));
    emit_sent(bus::FIRST_PRIVATE, valid, &start, sink)?;
    emit_received(bus::FIRST_PRIVATE, valid, &end, sink)
}

impl TableForm for ShaMainForm {
    ghost use Rattle.std.specs.Prelude.{refl};
    ghost use Rattle.chip_sha_main.specs.Sheet.{main_form};
    ghost use Rattle.chip_sha_main.specs.lemmas.MainLaws.{main_laws};

    const FLAGS: usize = 1;

    const REST: usize = 264;

    const SLOTS: u16 = 26;

    ghost FLAGS = { 1 };

    ghost REST = { 264 };

    ghost SLOTS = { 26 };

    ghost form = { main_form };

    ghost sizes = { (refl, refl, refl) };

    ghost laws = { main_laws };

    fn owns(op: u8) -> bool {
        op == opcode::SHA
    }

    fn opcode(flags: &[Fe]) -> Fe {
        air_core::opcode(&[flags[0]], &[opcode::SHA as u16])
    }

    fn next(pc: Fe, time: Fe, flags: &[Fe], rest: &[Fe]) -> Fe {
        pc.add(Fe::of_u16(4))
    }

    #[tactic(auto, unfolding(crate::specs::Main::main_row, crate::specs::Main::main_numbers))]
    fn numbers(op: Fe, pc: Fe, time: Fe, flags: &[Fe], rest: &[Fe]) -> [Fe; 12] {
        let zero = Fe::ZERO;
        [
            pc, op, rest[0], rest[1], zero, zero, zero, zero, zero, zero, zero, zero,
        ]
    }

    fn constraints() -> u32 {
        16
    }

    #[tactic(auto, unfolding(crate::specs::Main::main_row))]
    fn first_broken(from: u32, pc: Fe, time: Fe, flags: &[Fe], rest: &[Fe]) -> Option<u32> {
        first_nonzero(from, &carries(rest))
    }

    #[tactic(auto, unfolding(crate::specs::Main::main_row, crate::specs::Main::main_touches))]
    fn times_broken(from: u32, pc: Fe, time: Fe, flags: &[Fe], rest: &[Fe]) -> Option<u32> {
        touches_broken(from, time, &touches(flag_sum(flags), rest))
    }

    #[tactic(auto, unfolding(crate::specs::Main::main_row, crate::specs::Main::main_touches))]
    fn accesses<S: EventSink>(
        hi: u32,
        pc: Fe,
        time: Fe,
        flags: &[Fe],
        rest: &[Fe],
        sink: &mut S,
    ) -> Result<(), OutOfMemory> {
        emit_touches(hi, time, &touches(flag_sum(flags), rest), sink)
    }

    fn others<S: EventSink>(
        pc: Fe,
        time: Fe,
        flags: &[Fe],
        rest: &[Fe],
        sink: &mut S,
    ) -> Result<(), OutOfMemory> {
        let valid = flag_sum(flags);
        emit_main_ranges(valid, rest, sink)?;
        emit_chain(time, valid, rest, sink)
    }

    fn hint(hi: u32, row: &[Fe]) -> Option<HintWord> {
        None
    }

    fn place(done: &StepRecord) -> usize {
        0
    }

    fn fill(done: &StepRecord, rest: &mut [Fe]) {
        fill(done, rest);
    }
}
