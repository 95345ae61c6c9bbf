// The entries that tell how often rows of fixed tables are used.
ghost use Rattle.std.specs.Prelude.{◌≡◌, ◌+◌, ◌^◌, ◌≤◌, length, take, Contains, IfOk, OnOk, IsTrue};
ghost use Rattle.std.specs.List.{AllByRecursion};
ghost use Rattle.vm_trace.specs.Contents.{Contents};
ghost use Rattle.vm_transpile.specs.Order.{RisesFrom};
ghost use Rattle.vm_filler.specs.Filling.{CountsRows, with_entries};
ghost use Rattle.vm_filler.specs.Uses.{entries_of};

use crate::OutOfMemory;
use std::alloc::Global;
use vm_isa::StepRecord;
use vm_trace::{CountEntry, CountList, Tables};
use vm_transpile::Program;

// How many records are of each row of the program.
pub(crate) fn count_rows(
    alloc: Global,
    program: &Program,
    records: &[StepRecord],
) -> Result<Vec<u32>, OutOfMemory>
    requires rising { RisesFrom 0 program.now }
    requires few { length records.now ≤ 65536 }
    requires stand { AllByRecursion (λ d. Contains program.now d.instr) records.now }
    ensures counts { IfOk result (λ counts. CountsRows program.now records.now counts.items) }
    ensures size { IfOk result (λ counts. length counts.items ≡ length program.now) }
{
    let mut counts = vec![in alloc; 0u32; program.len() as usize]?;
    for done in records {
        if let Some(place) = program.place(done.instr.pc) {
            let place = place as usize;
            counts[place] += 1;
        }
    }
    Ok(counts)
}

// How many counts are looked at in one turn.
const PART: usize = 64;

// Whether all counts are 0. None ends the loop early, so that it takes several at a time.
fn are_unused(counts: &[u32]) -> bool
    ensures { IsTrue result → AllByRecursion (λ count. count ≡ 0) counts.now }
{
    let mut unused = true;
    for place in 0..counts.len() {
        unused &= counts[place] == 0;
    }
    unused
}

// Puts the entries of the counts from one place to another behind the last of a list, which has those before.
fn push_part(
    list: CountList,
    counts: &[u32],
    start: usize,
    end: usize,
    tables: &mut Tables,
) -> Result<(), OutOfMemory>
    requires few { length counts.now ≤ 2 ^ 32 }
    requires order { start ≤ end }
    requires within { end ≤ length counts.now }
    ensures { OnOk result ((before : Contents) → tables.old ≡ with_entries before list (entries_of (take start counts.now)) → tables.new ≡ with_entries before list (entries_of (take end counts.now))) }
{
    for place in start..end {
        let count = counts[place];
        if count != 0 {
            let place = place as u32;
            tables.push_count(list, CountEntry { place, count })?;
        }
    }
    Ok(())
}

// Puts the entries of counts behind the last of a list. Few rows of a lookup table are used, so parts without a use are
// passed over.
pub(crate) fn push_entries(
    list: CountList,
    counts: &[u32],
    tables: &mut Tables,
) -> Result<(), OutOfMemory>
    requires { length counts.now ≤ 2 ^ 32 }
    ensures { OnOk result (tables.new ≡ with_entries tables.old list (entries_of counts.now)) }
{
    let mut start = 0;
    'parts: while start < counts.len() {
        let end = counts.len().min(start + PART);
        if !are_unused(&counts[start..end]) {
            push_part(list, counts, start, end, tables)?;
        }
        start = end;
    }
    Ok(())
}
