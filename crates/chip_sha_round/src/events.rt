//! Which constraint a row breaks first, and what it says.

ghost use Rattle.air_core.specs.Ring.{field};
ghost use Rattle.std.specs.Prelude.{◌≡◌, ◌≤◌, ◌++◌, length, slice_index, OnOk, OnErr};
ghost use Rattle.air_core.specs.First.{first_from};
ghost use Rattle.air_core.specs.Sheet.{counted};
ghost use Rattle.air_core.specs.Sink.{Handed, HandedSome};
ghost use Rattle.chip_sha_round.specs.Round.{round_row, round_constraints, sums_lines, stage_lines, round_lines};
ghost use Rattle.chip_sha_round.specs.Words.{words_of};

use crate::words::{Words, a_words, after, before, e_words, read, w_words};
use air_core::{
    EventSink, OutOfMemory, bits_broken, bus, emit_received, emit_sent, first, flags_broken,
};
use gadget_bits::{Halves, emit_sum, stage_tuple};
use vm_field::Fe;

/// Which constraint of a row is broken first.
pub fn first_broken(row: &[Fe]) -> Option<u32>
    requires { length row.now ≡ 299 }
    ensures { result ≡ first_from 0 (round_constraints field (slice_index row.now)) }
{
    first(flags_broken(&[row[0]]), bits_broken(2, &row[5..261]))
}

/// The lookups of the three sums.
fn emit_sums<S: EventSink>(row: &[Fe], w: &Words, sink: &mut S) -> Result<(), OutOfMemory>
    requires wide { length row.now ≡ 299 }
    requires words { w.now ≡ words_of (round_row (slice_index row.now)) }
    requires room { 12 ≤ S.room sink.old }
    ensures ok { OnOk result (Handed S.holds S.room sink.old sink.new (counted (sums_lines field (round_row (slice_index row.now))))) }
    ensures err { OnErr result (HandedSome S.holds S.room sink.old sink.new (counted (sums_lines field (round_row (slice_index row.now))))) }
{
    let count = row[0];
    emit_sum(count, &a_words(row, w), &Halves::read(row, 293), sink)?;
    emit_sum(count, &e_words(row, w), &Halves::read(row, 295), sink)?;
    emit_sum(count, &w_words(row, w), &Halves::read(row, 297), sink)
}

/// The constant of the round, and the stages before and after it.
fn emit_stages<S: EventSink>(row: &[Fe], w: &Words, sink: &mut S) -> Result<(), OutOfMemory>
    requires wide { length row.now ≡ 299 }
    requires words { w.now ≡ words_of (round_row (slice_index row.now)) }
    requires room { 3 ≤ S.room sink.old }
    ensures ok { OnOk result (Handed S.holds S.room sink.old sink.new (counted (stage_lines field (round_row (slice_index row.now))))) }
    ensures err { OnErr result (HandedSome S.holds S.room sink.old sink.new (counted (stage_lines field (round_row (slice_index row.now))))) }
{
    let (count, time, round) = (row[0], row[1], row[2]);
    let from = stage_tuple(time, round, &before(row, w));
    let to = stage_tuple(time, round.add(Fe::ONE), &after(row, w));
    emit_sent(bus::SHA_CONSTANTS, count, &[round, row[3], row[4]], sink)?;
    emit_received(bus::FIRST_PRIVATE, count, &from, sink)?;
    emit_sent(bus::FIRST_PRIVATE, count, &to, sink)
}

/// What a row says. One without its flag says nothing, which is tested before all else.
pub fn events<S: EventSink>(row: &[Fe], sink: &mut S) -> Result<(), OutOfMemory>
    requires wide { length row.now ≡ 299 }
    requires room { 256 ≤ S.room sink.old }
    ensures ok { OnOk result (Handed S.holds S.room sink.old sink.new (counted (round_lines field (round_row (slice_index row.now))))) }
    ensures err { OnErr result (HandedSome S.holds S.room sink.old sink.new (counted (round_lines field (round_row (slice_index row.now))))) }
{
    if row[0] == Fe::ZERO {
        return Ok(());
    }
    let w = read(row);
    emit_sums(row, &w, sink)?;
    emit_stages(row, &w, sink)
}
