//! Tables that are filled from the records of a segment.
#![tactic(auto)]

ghost use Rattle.std.specs.Prelude.{ℕ, IfOk};
ghost use Rattle.vm_executor.specs.Records.{AreRecords};
ghost use Rattle.vm_filler.specs.Segment.{SegmentFilled};

mod entries;
mod fill;
pub mod laws;
mod lookups;

use air_core::Extension;
use entries::{count_rows, push_entries};
use fill::fill_tables;
use lookups::Lookups;
pub use std::alloc::AllocError as OutOfMemory;
use std::alloc::Global;
use vm_isa::StepRecord;
use vm_trace::{CountList, Tables};
use vm_transpile::Program;

/// The tables of a segment, from the records of its steps: in each table the rows that the records fill, in their
/// order, then rows of zeros up to the least power of two; and with their places the counts of the rows of the program
/// and of the lookup tables that these rows use, in rising order of place.
pub fn fill_segment<E: Extension>(
    alloc: Global,
    ext: &E,
    program: &Program,
    records: &[StepRecord],
) -> Result<Tables, OutOfMemory>
    requires { (pc : ℕ) × AreRecords (E.system ext.now) program.now pc records.now }
    ensures { IfOk result (λ tables. SegmentFilled (E.system ext.now) program.now records.now tables) }
{
    program.rows_rise();
    let mut lookups = Lookups::new(alloc)?;
    let mut tables = fill_tables(alloc, ext, records, &mut lookups)?;
    let rows = count_rows(alloc, program, records)?;
    push_entries(CountList::Program, &rows, &mut tables)?;
    push_entries(CountList::Xor, lookups.xor(), &mut tables)?;
    push_entries(CountList::Range, lookups.range(), &mut tables)?;
    push_entries(CountList::ShaConst, lookups.constants(), &mut tables)?;
    Ok(tables)
}
