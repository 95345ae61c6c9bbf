//! Two extensions as one.

ghost use Rattle.std.specs.Prelude.{◌≡◌, ℕ, ◌+◌, ◌^◌, ◌<◌, ◌≤◌, true, length};
ghost use Rattle.air_core.specs.System.{is_owned};
ghost use Rattle.air_core.specs.ExtensionLaws.{Joinable, width_of};
ghost use Rattle.air_core.specs.Join.{join};
ghost use Rattle.air_core.specs.JoinLaws.{join_fits, join_buses, join_rows, join_timed, join_sound, join_complete, join_quiet};

use crate::{EventSink, Extension, HintWord, OutOfMemory, RowError};
use vm_field::Fe;
use vm_isa::StepRecord;

/// The tables of the first, and behind them those of the second.
#[derive(Drop)]
pub struct Both<A: Extension, B: Extension> {
    first: A,
    second: B,
    ghost joinable: { Joinable (A.system first) (B.system second) },
}

impl<A: Extension, B: Extension> Both<A, B> {
    pub fn new(first: A, second: B) -> Both<A, B>
        requires bits { (A.system first).time_bits ≡ (B.system second).time_bits }
        requires opcodes { (op : ℕ) → is_owned (A.system first).parts op ≡ true → is_owned (B.system second).parts op ≡ true → ⊥ }
        requires buses { (bus : ℕ) → (A.system first).private bus ≡ true → (B.system second).private bus ≡ true → ⊥ }
        requires count { length (A.system first).parts + length (B.system second).parts < 2 ^ 32 }
        requires width { width_of (A.system first).parts + width_of (B.system second).parts ≤ 2 ^ 24 }
        ensures first { result.first ≡ first }
        ensures second { result.second ≡ second }
    {
        Both { first, second }
    }
}

impl<A: Extension, B: Extension> Extension for Both<A, B> {
    ghost system = { λ e. join (A.system e.first) (B.system e.second) };

    ghost fits = { λ e. join_fits (A.system e.first) (B.system e.second) (A.fits e.first) (B.fits e.second) e.joinable };

    ghost buses = { λ e. join_buses (A.system e.first) (B.system e.second) (A.buses e.first) (B.buses e.second) };

    ghost rows = { λ e. join_rows (A.system e.first) (B.system e.second) (A.rows e.first) (B.rows e.second) };

    ghost timed = { λ e. join_timed (A.system e.first) (B.system e.second) (A.timed e.first) (B.timed e.second) };

    ghost sound = { λ e. join_sound (A.system e.first) (B.system e.second) (A.fits e.first) (B.fits e.second) (A.buses e.first) (B.buses e.second) (A.sound e.first) (B.sound e.second) e.joinable };

    ghost complete = { λ e. join_complete (A.system e.first) (B.system e.second) (A.fits e.first) (B.fits e.second) (A.buses e.first) (B.buses e.second) (A.rows e.first) (B.rows e.second) (A.complete e.first) (B.complete e.second) e.joinable };

    ghost quiet = { λ e. join_quiet (A.system e.first) (B.system e.second) (A.quiet e.first) (B.quiet e.second) };

    fn tables(&self) -> u32 {
        self.first.tables() + self.second.tables()
    }

    fn width(&self, table: u32) -> u32 {
        let count = self.first.tables();
        if table < count {
            self.first.width(table)
        } else {
            self.second.width(table - count)
        }
    }

    fn slots(&self, table: u32) -> u32 {
        let count = self.first.tables();
        if table < count {
            self.first.slots(table)
        } else {
            self.second.slots(table - count)
        }
    }

    fn time_bits(&self) -> u32 {
        self.first.time_bits()
    }

    fn owner(&self, op: u8) -> Option<u32> {
        match self.first.owner(op) {
            Some(table) => Some(table),
            None => match self.second.owner(op) {
                Some(table) => Some(self.first.tables() + table),
                None => None,
            },
        }
    }

    fn is_private(&self, bus: u8) -> bool {
        self.first.is_private(bus) || self.second.is_private(bus)
    }

    #[inline(always)]
    fn rows_for(&self, done: &StepRecord, table: u32) -> u32 {
        let count = self.first.tables();
        if table < count {
            self.first.rows_for(done, table)
        } else {
            self.second.rows_for(done, table - count)
        }
    }

    fn first_broken(&self, table: u32, row: &[Fe]) -> Option<u32> {
        let count = self.first.tables();
        if table < count {
            self.first.first_broken(table, row)
        } else {
            self.second.first_broken(table - count, row)
        }
    }

    #[inline(always)]
    fn events<S: EventSink>(
        &self,
        table: u32,
        row: &[Fe],
        sink: &mut S,
    ) -> Result<(), OutOfMemory> {
        let count = self.first.tables();
        if table < count {
            self.first.events(table, row, sink)
        } else {
            self.second.events(table - count, row, sink)
        }
    }

    fn hint(&self, table: u32, row: &[Fe]) -> Option<HintWord> {
        let count = self.first.tables();
        if table < count {
            self.first.hint(table, row)
        } else {
            self.second.hint(table - count, row)
        }
    }

    #[inline(always)]
    fn take_row<S: EventSink>(
        &self,
        table: u32,
        row: &[Fe],
        sink: &mut S,
    ) -> Result<Option<HintWord>, RowError> {
        let count = self.first.tables();
        if table < count {
            self.first.take_row(table, row, sink)
        } else {
            self.second.take_row(table - count, row, sink)
        }
    }

    #[inline(always)]
    fn fill(&self, done: &StepRecord, table: u32, place: u32, row: &mut [Fe]) {
        let count = self.first.tables();
        if table < count {
            self.first.fill(done, table, place, row);
        } else {
            self.second.fill(done, table - count, place, row);
        }
    }
}
