// What is kept of the rows of a segment.
ghost use Rattle.std.specs.Prelude.{◌≡◌, ◌+◌, ◌^◌, ◌<◌, ◌≤◌, List, [], ◌∷◌, None, length, IfErr, OnOk, ⊤};
ghost use Rattle.air_core.specs.declared.event.Event.{Event as AnEvent};
ghost use Rattle.air_core.specs.First.{first_from};
ghost use Rattle.air_core.specs.Sheet.{IsRow, row_events};
ghost use Rattle.air_core.specs.System.{sheet_at};
ghost use Rattle.air_core.specs.Taken.{Refuses};
ghost use Rattle.vm_checker.specs.Heard.{Hears, room_left};
ghost use Rattle.vm_checker.specs.Kept.{Tallied};

use crate::said::Said;
use air_core::{Extension, HintWord, RowError};
use std::alloc::Global;
use vm_field::Fe;

/// The balance of what rows say, their hints in the order of the rows, and how many rows are valid.
#[derive(Drop)]
pub(crate) struct Tally {
    pub(crate) said: Said,
    pub(crate) hints: Vec<HintWord>,
    pub(crate) valid: u64,
}

impl Tally {
    pub(crate) fn new(alloc: Global) -> Tally
        ensures said { Hears result.said [] }
        ensures hints { result.hints.items ≡ [] }
        ensures valid { result.valid ≡ 0 }
    {
        Tally {
            said: Said::new(alloc),
            hints: Vec::new(alloc),
            valid: 0,
        }
    }

    /// Adds a row, where it holds. A row is valid where it says something on the execution bus.
    pub(crate) fn add<E: Extension>(
        &mut self,
        ext: &E,
        table: u32,
        row: &[Fe],
    ) -> Result<(), RowError>
        requires known { table < length (E.system ext.now).parts }
        requires wide { length row.now ≡ (sheet_at (E.system ext.now) table).width }
        requires room { 256 ≤ room_left self.old.said }
        requires counted { self.old.valid + 1 < 2 ^ 64 }
        requires heard { (events : List AnEvent) × Hears self.old.said events }
        ensures holds { OnOk result (first_from 0 ((sheet_at (E.system ext.now) table).constraints row.now) ≡ None) }
        ensures added { OnOk result (Tallied (IsRow (sheet_at (E.system ext.now) table) row.now) (row_events (sheet_at (E.system ext.now) table) row.now ∷ []) self.old self.new) }
        ensures err { IfErr result (λ error. Refuses (first_from 0 ((sheet_at (E.system ext.now) table).constraints row.now)) (self.new ≡ self.old) ⊤ error) }
    {
        let before = self.said.path();
        let hint = ext.take_row(table, row, &mut self.said)?;
        if self.said.path() > before {
            self.valid += 1;
        }
        match hint {
            None => Ok(()),
            Some(hint) => match self.hints.push(hint) {
                Ok(()) => Ok(()),
                Err(_) => Err(RowError::OutOfMemory),
            },
        }
    }
}
