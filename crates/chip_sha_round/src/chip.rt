//! The table as a chip.

ghost use Rattle.std.specs.Prelude.{◌≤◌};

use crate::events::{events, first_broken};
use crate::fill::fill_round;
use air_core::{Chip, EventSink, HintWord, OutOfMemory};
use vm_field::Fe;
use vm_isa::StepRecord;

/// The table of rounds of SHA-256, whose times have HI bits above the lower 16. A record of a SHA block
/// fills 64 of its rows; they mean something beside the block's row in another table.
#[derive(Drop)]
pub struct ShaRoundAt<const HI: u32> {
    ghost range: { (8 ≤ HI) × (HI ≤ 13) },
}

/// The table with times of 24 bits.
pub type ShaRound = ShaRoundAt<8>;

impl<const HI: u32> ShaRoundAt<HI> {
    pub fn new() -> ShaRoundAt<HI>
        requires low { 8 ≤ HI }
        requires high { HI ≤ 13 }
    {
        ShaRoundAt {}
    }
}

impl<const HI: u32> Chip for ShaRoundAt<HI> {
    ghost use Rattle.chip_sha_round.specs.Sheet.{round_sheet};
    ghost use Rattle.chip_sha_round.specs.lemmas.RoundTable.{round_fits, round_buses, round_timed, round_sound, round_complete, round_quiet};
    ghost use Rattle.std.proofs.Common.{refl};

    const WIDTH: u32 = 299;

    const SLOTS: u32 = 0;

    const ROWS: u32 = 64;

    ghost WIDTH = { 299 };

    ghost SLOTS = { 0 };

    ghost ROWS = { 64 };

    ghost sheet = { λ _. round_sheet HI };

    ghost sizes = { λ _. (refl, refl, refl) };

    ghost fits = { λ chip. round_fits HI chip.range.0 chip.range.1 };

    ghost buses = { λ chip. round_buses HI };

    ghost timed = { λ chip. round_timed HI };

    ghost sound = { λ chip. round_sound HI };

    ghost complete = { λ chip. round_complete HI chip.range.1 };

    ghost quiet = { λ chip. round_quiet HI };

    fn time_bits(&self) -> u32 {
        16 + HI
    }

    fn owns(&self, op: u8) -> bool {
        false
    }

    fn first_broken(&self, row: &[Fe]) -> Option<u32> {
        first_broken(row)
    }

    fn events<S: EventSink>(&self, row: &[Fe], sink: &mut S) -> Result<(), OutOfMemory> {
        events(row, sink)
    }

    fn hint(&self, row: &[Fe]) -> Option<HintWord> {
        None
    }

    fn fill(&self, done: &StepRecord, place: u32, row: &mut [Fe]) {
        fill_round(done, place as usize, row);
    }
}
