//! One table.

ghost use Rattle.std.specs.Prelude.{◌≡◌, ℕ, ◌+◌, ◌<◌, ◌≤◌, true, length, MatchOption, OnOk, OnErr};
ghost use Rattle.vm_isa.specs.Means.{Fillable};
ghost use Rattle.air_core.specs.First.{first_from};
ghost use Rattle.air_core.specs.Sheet.{Sheet, RowHolds, IsRow, row_events};
ghost use Rattle.air_core.specs.Sink.{Handed, HandedSome};
ghost use Rattle.air_core.specs.Hint.{NoHint, IsHint};
ghost use Rattle.air_core.specs.Laws.{Fits, Buses, Timed, Sound, Complete, Quiet};

use crate::{EventSink, HintWord, OutOfMemory};
use vm_field::Fe;
use vm_isa::StepRecord;

/// One table of constraints: its sheet, the code that computes it, and the laws that it meets.
///
/// A row is a list of `WIDTH` field elements. A table whose rows mean something only beside those of
/// another table says so in its sheet (`alone`), and then owes no law Sound.
pub trait Chip {
    /// How many columns a row has.
    const WIDTH: u32;

    /// By how much the time of a valid row goes on.
    const SLOTS: u32;

    /// How many rows one record fills.
    const ROWS: u32;

    ghost WIDTH: { ℕ };

    ghost SLOTS: { ℕ };

    ghost ROWS: { ℕ };

    /// What the table is.
    ghost sheet: { Self → Sheet };

    /// Times are at most 2 to this.
    fn time_bits(&self) -> u32
        ensures { result ≡ (sheet self.now).time_bits };

    /// Whether valid rows of the table have this opcode.
    fn owns(&self, op: u8) -> bool
        ensures { result ≡ (sheet self.now).owns op };

    /// The least number of a constraint that is not 0 on this row, and None if it holds.
    fn first_broken(&self, row: &[Fe]) -> Option<u32>
        requires { length row.now ≡ (sheet self.now).width }
        ensures { result ≡ first_from 0 ((sheet self.now).constraints row.now) };

    /// Hands over what the row says, in the order of the sheet; without memory, the first of it.
    fn events<S: EventSink>(&self, row: &[Fe], sink: &mut S) -> Result<(), OutOfMemory>
        requires wide { length row.now ≡ (sheet self.now).width }
        requires room { 256 ≤ S.room sink.old }
        ensures ok { OnOk result (Handed S.holds S.room sink.old sink.new (row_events (sheet self.now) row.now)) }
        ensures err { OnErr result (HandedSome S.holds S.room sink.old sink.new (row_events (sheet self.now) row.now)) };

    /// What a row that holds takes of the host's words.
    fn hint(&self, row: &[Fe]) -> Option<HintWord>
        requires { length row.now ≡ (sheet self.now).width }
        ensures { IsRow (sheet self.now) row.now → RowHolds (sheet self.now) row.now
            → MatchOption result (NoHint (row_events (sheet self.now) row.now)) (λ h. IsHint h (row_events (sheet self.now) row.now)) };

    /// Writes the row of a record, at a place among the rows that the record fills.
    fn fill(&self, done: &StepRecord, place: u32, row: &mut [Fe])
        requires wide { length row.old ≡ (sheet self.now).width }
        requires taken { (sheet self.now).takes done.now.instr.op ≡ true }
        requires fillable { Fillable (sheet self.now).time_bits done.now }
        requires place_below { place < (sheet self.now).rows }
        ensures { row.new ≡ (sheet self.now).filled done.now place };

    /// The constants are those of the sheet.
    ghost sizes: { (chip : Self) → ((sheet chip).width ≡ WIDTH) × ((sheet chip).slots ≡ SLOTS) × ((sheet chip).rows ≡ ROWS) };

    ghost fits: { (chip : Self) → Fits (sheet chip) };

    ghost buses: { (chip : Self) → Buses (sheet chip) };

    ghost timed: { (chip : Self) → Timed (sheet chip) };

    ghost sound: { (chip : Self) → Sound (sheet chip) };

    ghost complete: { (chip : Self) → Complete (sheet chip) };

    ghost quiet: { (chip : Self) → Quiet (sheet chip) };
}
