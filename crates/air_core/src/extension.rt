//! Several tables that belong together.

ghost use Rattle.std.specs.Prelude.{◌≡◌, ℕ, ◌<◌, ◌≤◌, None, length, MatchOption, IfOk, IfErr, OnOk, OnErr};
ghost use Rattle.vm_isa.specs.Means.{Fillable};
ghost use Rattle.air_core.specs.First.{first_from};
ghost use Rattle.air_core.specs.Sheet.{RowHolds, IsRow, row_events};
ghost use Rattle.air_core.specs.Sink.{Handed, HandedSome};
ghost use Rattle.air_core.specs.Hint.{NoHint, IsHint};
ghost use Rattle.air_core.specs.Taken.{Refuses};
ghost use Rattle.air_core.specs.System.{System, sheet_at, rows_at, owner_in};
ghost use Rattle.air_core.specs.ExtensionLaws.{ExtensionFits, ExtensionBuses, ExtensionRows, ExtensionTimed, ExtensionSound, ExtensionComplete, ExtensionQuiet};

use crate::{EventSink, HintWord, OutOfMemory, RowError};
use vm_field::Fe;
use vm_isa::StepRecord;

/// Tables that belong together: what they are, the code that computes them, and the laws that they meet.
///
/// Tables are the numbers below `tables`. A row of a table is a list of field elements of its width.
pub trait Extension {
    /// What the extension is.
    ghost system: { Self → System };

    /// How many tables there are.
    fn tables(&self) -> u32
        ensures { result ≡ length (system self.now).parts };

    /// How many columns a table has.
    fn width(&self, table: u32) -> u32
        requires { table < length (system self.now).parts }
        ensures { result ≡ (sheet_at (system self.now) table).width };

    /// By how much the time of a valid row of a table goes on.
    fn slots(&self, table: u32) -> u32
        requires { table < length (system self.now).parts }
        ensures { result ≡ (sheet_at (system self.now) table).slots };

    /// Times are at most 2 to this.
    fn time_bits(&self) -> u32
        ensures { result ≡ (system self.now).time_bits };

    /// The table whose valid rows have this opcode.
    fn owner(&self, op: u8) -> Option<u32>
        ensures owner { result ≡ owner_in (system self.now).parts op }
        ensures below { MatchOption result (Unit {0}) (λ table. table < length (system self.now).parts) };

    /// Whether a bus belongs to these tables alone.
    fn is_private(&self, bus: u8) -> bool
        ensures { result ≡ (system self.now).private bus };

    /// How many rows of a table a record fills.
    fn rows_for(&self, done: &StepRecord, table: u32) -> u32
        requires { table < length (system self.now).parts }
        ensures { result ≡ rows_at (system self.now) table done.now };

    /// The least number of a constraint of the table that is not 0 on this row, and None if it holds.
    fn first_broken(&self, table: u32, row: &[Fe]) -> Option<u32>
        requires known { table < length (system self.now).parts }
        requires wide { length row.now ≡ (sheet_at (system self.now) table).width }
        ensures { result ≡ first_from 0 ((sheet_at (system self.now) table).constraints row.now) };

    /// Hands over what the row says, in the order of the sheet; without memory, the first of it.
    fn events<S: EventSink>(&self, table: u32, row: &[Fe], sink: &mut S) -> Result<(), OutOfMemory>
        requires known { table < length (system self.now).parts }
        requires wide { length row.now ≡ (sheet_at (system self.now) table).width }
        requires room { 256 ≤ S.room sink.old }
        ensures ok { OnOk result (Handed S.holds S.room sink.old sink.new (row_events (sheet_at (system self.now) table) row.now)) }
        ensures err { OnErr result (HandedSome S.holds S.room sink.old sink.new (row_events (sheet_at (system self.now) table) row.now)) };

    /// What a row that holds takes of the host's words.
    fn hint(&self, table: u32, row: &[Fe]) -> Option<HintWord>
        requires known { table < length (system self.now).parts }
        requires wide { length row.now ≡ (sheet_at (system self.now) table).width }
        ensures { IsRow (sheet_at (system self.now) table) row.now → RowHolds (sheet_at (system self.now) table) row.now
            → MatchOption result (NoHint (row_events (sheet_at (system self.now) table) row.now)) (λ h. IsHint h (row_events (sheet_at (system self.now) table) row.now)) };

    /// Tests a row. Where it holds, hands over what it says, and answers what it takes of the host's words: all that a check
    /// asks of a row, with the table looked up once.
    fn take_row<S: EventSink>(
        &self,
        table: u32,
        row: &[Fe],
        sink: &mut S,
    ) -> Result<Option<HintWord>, RowError>
        requires known { table < length (system self.now).parts }
        requires wide { length row.now ≡ (sheet_at (system self.now) table).width }
        requires room { 256 ≤ S.room sink.old }
        ensures holds { OnOk result (first_from 0 ((sheet_at (system self.now) table).constraints row.now) ≡ None) }
        ensures handed { OnOk result (Handed S.holds S.room sink.old sink.new (row_events (sheet_at (system self.now) table) row.now)) }
        ensures hint { IfOk result (λ hint. IsRow (sheet_at (system self.now) table) row.now → RowHolds (sheet_at (system self.now) table) row.now
            → MatchOption hint (NoHint (row_events (sheet_at (system self.now) table) row.now)) (λ h. IsHint h (row_events (sheet_at (system self.now) table) row.now))) }
        ensures err { IfErr result (λ error. Refuses (first_from 0 ((sheet_at (system self.now) table).constraints row.now)) (sink.new ≡ sink.old)
            (HandedSome S.holds S.room sink.old sink.new (row_events (sheet_at (system self.now) table) row.now)) error) }
    {
        if let Some(constraint) = self.first_broken(table, row) {
            return Err(RowError::Broken(constraint));
        }
        self.events(table, row, sink)?;
        Ok(self.hint(table, row))
    }

    /// Writes a row of a table, at a place among the rows that the record fills there.
    fn fill(&self, done: &StepRecord, table: u32, place: u32, row: &mut [Fe])
        requires known { table < length (system self.now).parts }
        requires wide { length row.old ≡ (sheet_at (system self.now) table).width }
        requires fillable { Fillable (system self.now).time_bits done.now }
        requires place_below { place < rows_at (system self.now) table done.now }
        ensures { row.new ≡ (sheet_at (system self.now) table).filled done.now place };

    ghost fits: { (ext : Self) → ExtensionFits (system ext) };

    ghost buses: { (ext : Self) → ExtensionBuses (system ext) };

    ghost rows: { (ext : Self) → ExtensionRows (system ext) };

    ghost timed: { (ext : Self) → ExtensionTimed (system ext) };

    ghost sound: { (ext : Self) → ExtensionSound (system ext) };

    ghost complete: { (ext : Self) → ExtensionComplete (system ext) };

    ghost quiet: { (ext : Self) → ExtensionQuiet (system ext) };
}
