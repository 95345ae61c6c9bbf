//! A table that is kept free.

ghost use Rattle.std.specs.Prelude.{◌≡◌, ℕ, ◌^◌, ◌≤◌, length};
ghost use Rattle.air_core.specs.Join.{reserved, reserved_sheet};
ghost use Rattle.air_core.specs.SingleLaws.{reserved_fits, reserved_buses, reserved_rows, reserved_timed, reserved_sound, reserved_complete, reserved_quiet};

use crate::{EventSink, Extension, HintWord, OutOfMemory, first_nonzero};
use vm_field::Fe;
use vm_isa::StepRecord;

/// One table that owns no opcode and says nothing. Its rows hold only where all their values are 0.
#[derive(Clone, Copy, Debug)]
pub struct Reserved {
    width: u32,
    slots: u32,
    time_bits: u32,
    ghost wide: { width ≤ 2 ^ 24 },
    ghost bits: { (24 ≤ time_bits) × (time_bits ≤ 29) },
}

impl Reserved {
    /// It keeps the place of a table of this width and these slots.
    pub fn new(width: u32, slots: u32, time_bits: u32) -> Reserved
        requires wide { width ≤ 2 ^ 24 }
        requires low { 24 ≤ time_bits }
        requires high { time_bits ≤ 29 }
        ensures width { result.width ≡ width }
        ensures slots { result.slots ≡ slots }
        ensures bits { result.time_bits ≡ time_bits }
    {
        Reserved {
            width,
            slots,
            time_bits,
        }
    }
}

impl Extension for Reserved {
    ghost system = { λ e. reserved e.width e.slots e.time_bits };

    ghost fits = { λ e. reserved_fits e.width e.slots e.time_bits e.wide e.bits.0 e.bits.1 };

    ghost buses = { λ e. reserved_buses e.width e.slots e.time_bits };

    ghost rows = { λ e. reserved_rows e.width e.slots e.time_bits };

    ghost timed = { λ e. reserved_timed e.width e.slots e.time_bits };

    ghost sound = { λ e. reserved_sound e.width e.slots e.time_bits };

    ghost complete = { λ e. reserved_complete e.width e.slots e.time_bits };

    ghost quiet = { λ e. reserved_quiet e.width e.slots e.time_bits };

    fn tables(&self) -> u32 {
        1
    }

    fn width(&self, _table: u32) -> u32 {
        self.width
    }

    fn slots(&self, _table: u32) -> u32 {
        self.slots
    }

    fn time_bits(&self) -> u32 {
        self.time_bits
    }

    fn owner(&self, _op: u8) -> Option<u32> {
        None
    }

    fn is_private(&self, _bus: u8) -> bool {
        false
    }

    fn rows_for(&self, _done: &StepRecord, _table: u32) -> u32 {
        0
    }

    fn first_broken(&self, _table: u32, row: &[Fe]) -> Option<u32> {
        first_nonzero(0, row)
    }

    fn events<S: EventSink>(
        &self,
        _table: u32,
        _row: &[Fe],
        _sink: &mut S,
    ) -> Result<(), OutOfMemory> {
        Ok(())
    }

    fn hint(&self, _table: u32, _row: &[Fe]) -> Option<HintWord> {
        None
    }

    // No place is below the 0 rows of a record, so the clause asks for none.
    fn fill(&self, done: &StepRecord, _table: u32, place: u32, row: &mut [Fe])
        requires { length row.old ≡ self.now.width }
        ensures { row.new ≡ (reserved_sheet self.now.width self.now.slots self.now.time_bits).filled done.now place }
    {
        row.fill(Fe::of_u16(0));
    }
}
