//! Both tables as an extension.

ghost use Rattle.std.specs.Prelude.{◌≤◌};

use crate::form::ShaMainAt;
use air_core::{Chip, EventSink, Extension, HintWord, OutOfMemory, bus};
use chip_sha_round::ShaRoundAt;
use vm_field::Fe;
use vm_isa::{StepRecord, opcode};

/// The table of SHA blocks and that of their rounds, which meet on a private bus. Times have HI bits above the
/// lower 16.
#[derive(Drop)]
pub struct ShaExtensionAt<const HI: u32> {
    blocks: ShaMainAt<HI>,
    rounds: ShaRoundAt<HI>,
    ghost range: { (8 ≤ HI) × (HI ≤ 13) },
}

/// The extension with times of 24 bits.
pub type ShaExtension = ShaExtensionAt<8>;

impl<const HI: u32> ShaExtensionAt<HI> {
    pub fn new() -> ShaExtensionAt<HI>
        requires low { 8 ≤ HI }
        requires high { HI ≤ 13 }
    {
        ShaExtensionAt {
            blocks: ShaMainAt::new(),
            rounds: ShaRoundAt::new(),
        }
    }
}

impl<const HI: u32> Extension for ShaExtensionAt<HI> {
    ghost use Rattle.chip_sha_main.specs.Sha.{sha};
    ghost use Rattle.chip_sha_main.specs.lemmas.ShaSound.{sha_sound};
    ghost use Rattle.chip_sha_main.specs.lemmas.ShaComplete.{sha_complete};
    ghost use Rattle.chip_sha_main.specs.lemmas.ShaLaws.{sha_fits, sha_buses, sha_rows, sha_timed, sha_quiet};

    ghost system = { λ _. sha HI };

    ghost fits = { λ ext. sha_fits HI ext.range.0 ext.range.1 };

    ghost buses = { λ _. sha_buses HI };

    ghost rows = { λ _. sha_rows HI };

    ghost timed = { λ ext. sha_timed HI ext.range.1 };

    ghost sound = { λ ext. sha_sound HI ext.range.1 };

    ghost complete = { λ ext. sha_complete HI ext.range.1 };

    ghost quiet = { λ _. sha_quiet HI };

    fn tables(&self) -> u32 {
        2
    }

    fn width(&self, table: u32) -> u32 {
        if table == 0 {
            ShaMainAt::<HI>::WIDTH
        } else {
            ShaRoundAt::<HI>::WIDTH
        }
    }

    fn slots(&self, table: u32) -> u32 {
        if table == 0 {
            ShaMainAt::<HI>::SLOTS
        } else {
            ShaRoundAt::<HI>::SLOTS
        }
    }

    fn time_bits(&self) -> u32 {
        16 + HI
    }

    fn owner(&self, op: u8) -> Option<u32> {
        if op == opcode::SHA { Some(0) } else { None }
    }

    fn is_private(&self, number: u8) -> bool {
        number == bus::FIRST_PRIVATE
    }

    fn rows_for(&self, done: &StepRecord, table: u32) -> u32 {
        if done.instr.op != opcode::SHA {
            0
        } else if table == 0 {
            ShaMainAt::<HI>::ROWS
        } else {
            ShaRoundAt::<HI>::ROWS
        }
    }

    fn first_broken(&self, table: u32, row: &[Fe]) -> Option<u32> {
        if table == 0 {
            self.blocks.first_broken(row)
        } else {
            self.rounds.first_broken(row)
        }
    }

    fn events<S: EventSink>(
        &self,
        table: u32,
        row: &[Fe],
        sink: &mut S,
    ) -> Result<(), OutOfMemory> {
        match table {
            0 => self.blocks.events(row, sink),
            1 => self.rounds.events(row, sink),
            _ => unreachable!(),
        }
    }

    fn hint(&self, table: u32, row: &[Fe]) -> Option<HintWord> {
        None
    }

    fn fill(&self, done: &StepRecord, table: u32, place: u32, row: &mut [Fe]) {
        match table {
            0 => self.blocks.fill(done, place, row),
            1 => self.rounds.fill(done, place, row),
            _ => unreachable!(),
        }
    }
}
