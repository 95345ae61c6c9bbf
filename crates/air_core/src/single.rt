//! The extension of one table.

ghost use Rattle.std.specs.Prelude.{◌≡◌, true};
ghost use Rattle.air_core.specs.Join.{single};
ghost use Rattle.air_core.specs.SingleLaws.{single_fits, single_buses, single_rows, single_timed, single_sound, single_complete, single_quiet};

use crate::{Chip, EventSink, Extension, HintWord, OutOfMemory};
use vm_field::Fe;
use vm_isa::StepRecord;

/// One table, whose rows mean something alone.
#[derive(Drop)]
pub struct Single<C: Chip> {
    chip: C,
    ghost alone: { (C.sheet chip).alone ≡ true },
}

impl<C: Chip> Single<C> {
    pub fn new(chip: C) -> Single<C>
        requires { (C.sheet chip).alone ≡ true }
        ensures { result.chip ≡ chip }
    {
        Single { chip }
    }
}

impl<C: Chip> Extension for Single<C> {
    ghost system = { λ e. single (C.sheet e.chip) };

    ghost fits = { λ e. single_fits (C.sheet e.chip) (C.fits e.chip) };

    ghost buses = { λ e. single_buses (C.sheet e.chip) e.alone (C.buses e.chip) };

    ghost rows = { λ e. single_rows (C.sheet e.chip) };

    ghost timed = { λ e. single_timed (C.sheet e.chip) (C.timed e.chip) };

    ghost sound = { λ e. single_sound (C.sheet e.chip) e.alone (C.sound e.chip) };

    ghost complete = { λ e. single_complete (C.sheet e.chip) (C.fits e.chip) (C.buses e.chip) (C.complete e.chip) };

    ghost quiet = { λ e. single_quiet (C.sheet e.chip) (C.quiet e.chip) };

    fn tables(&self) -> u32 {
        1
    }

    fn width(&self, _table: u32) -> u32 {
        C::WIDTH
    }

    fn slots(&self, _table: u32) -> u32 {
        C::SLOTS
    }

    fn time_bits(&self) -> u32 {
        self.chip.time_bits()
    }

    fn owner(&self, op: u8) -> Option<u32> {
        if self.chip.owns(op) { Some(0) } else { None }
    }

    fn is_private(&self, _bus: u8) -> bool {
        false
    }

    fn rows_for(&self, done: &StepRecord, _table: u32) -> u32 {
        if self.chip.owns(done.instr.op) { 1 } else { 0 }
    }

    fn first_broken(&self, _table: u32, row: &[Fe]) -> Option<u32> {
        self.chip.first_broken(row)
    }

    fn events<S: EventSink>(
        &self,
        _table: u32,
        row: &[Fe],
        sink: &mut S,
    ) -> Result<(), OutOfMemory> {
        self.chip.events(row, sink)
    }

    fn hint(&self, _table: u32, row: &[Fe]) -> Option<HintWord> {
        self.chip.hint(row)
    }

    fn fill(&self, done: &StepRecord, _table: u32, place: u32, row: &mut [Fe]) {
        self.chip.fill(done, place, row);
    }
}
