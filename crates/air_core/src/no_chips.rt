//! The extension without tables.

ghost use Rattle.std.specs.Prelude.{◌≡◌, ℕ, ◌≤◌, None, length, MatchOption, IfOk, IfErr, OnOk, OnErr};
ghost use Rattle.air_core.specs.First.{first_from};
ghost use Rattle.air_core.specs.Hint.{NoHint, IsHint};
ghost use Rattle.air_core.specs.Sheet.{RowHolds, IsRow, row_events};
ghost use Rattle.air_core.specs.Sink.{Handed, HandedSome};
ghost use Rattle.air_core.specs.System.{no_sheet};
ghost use Rattle.air_core.specs.Taken.{Refuses};
ghost use Rattle.air_core.specs.Join.{no_chips};
ghost use Rattle.air_core.specs.SingleLaws.{no_fits, no_rows, no_sound, no_complete};

use crate::{EventSink, Extension, HintWord, OutOfMemory, RowError};
use vm_field::Fe;
use vm_isa::StepRecord;

/// No table. It takes the place of an extension that a configuration leaves out.
#[derive(Clone, Copy, Debug)]
pub struct NoChips {
    time_bits: u32,
    ghost bits: { (24 ≤ time_bits) × (time_bits ≤ 29) },
}

impl NoChips {
    pub fn new(time_bits: u32) -> NoChips
        requires low { 24 ≤ time_bits }
        requires high { time_bits ≤ 29 }
        ensures { result.time_bits ≡ time_bits }
    {
        NoChips { time_bits }
    }
}

// No table number meets the conditions of the trait, so the clauses here ask for none.
impl Extension for NoChips {
    ghost system = { λ e. no_chips e.time_bits };

    ghost fits = { λ e. no_fits e.time_bits e.bits.0 e.bits.1 };

    ghost buses = { λ e. tt };

    ghost rows = { λ e. no_rows e.time_bits };

    ghost timed = { λ e. tt };

    ghost sound = { λ e. no_sound e.time_bits };

    ghost complete = { λ e. no_complete e.time_bits };

    ghost quiet = { λ e. tt };

    fn tables(&self) -> u32 {
        0
    }

    fn width(&self, _table: u32) -> u32
        ensures { result ≡ no_sheet.width }
    {
        0
    }

    fn slots(&self, _table: u32) -> u32
        ensures { result ≡ no_sheet.slots }
    {
        0
    }

    fn time_bits(&self) -> u32 {
        self.time_bits
    }

    fn owner(&self, _op: u8) -> Option<u32> {
        None
    }

    fn is_private(&self, _bus: u8) -> bool {
        false
    }

    fn rows_for(&self, _done: &StepRecord, _table: u32) -> u32
        ensures { result ≡ 0 }
    {
        0
    }

    fn first_broken(&self, _table: u32, row: &[Fe]) -> Option<u32>
        ensures { result ≡ first_from 0 (no_sheet.constraints row.now) }
    {
        None
    }

    fn events<S: EventSink>(&self, _table: u32, row: &[Fe], sink: &mut S) -> Result<(), OutOfMemory>
        ensures ok { OnOk result (Handed S.holds S.room sink.old sink.new (row_events no_sheet row.now)) }
        ensures err { OnErr result (HandedSome S.holds S.room sink.old sink.new (row_events no_sheet row.now)) }
    {
        Ok(())
    }

    fn hint(&self, _table: u32, row: &[Fe]) -> Option<HintWord>
        ensures { MatchOption result (NoHint (row_events no_sheet row.now)) (λ h. IsHint h (row_events no_sheet row.now)) }
    {
        None
    }

    fn take_row<S: EventSink>(
        &self,
        _table: u32,
        row: &[Fe],
        sink: &mut S,
    ) -> Result<Option<HintWord>, RowError>
        ensures holds { OnOk result (first_from 0 (no_sheet.constraints row.now) ≡ None) }
        ensures handed { OnOk result (Handed S.holds S.room sink.old sink.new (row_events no_sheet row.now)) }
        ensures hint { IfOk result (λ hint. MatchOption hint (NoHint (row_events no_sheet row.now)) (λ h. IsHint h (row_events no_sheet row.now))) }
        ensures err { IfErr result (λ error. Refuses (first_from 0 (no_sheet.constraints row.now)) (sink.new ≡ sink.old)
            (HandedSome S.holds S.room sink.old sink.new (row_events no_sheet row.now)) error) }
    {
        Ok(None)
    }

    fn fill(&self, done: &StepRecord, _table: u32, place: u32, row: &mut [Fe])
        requires { length row.old ≡ no_sheet.width }
        ensures { row.new ≡ no_sheet.filled done.now place }
    {}
}
