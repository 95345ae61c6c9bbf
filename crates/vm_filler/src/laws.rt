//! What filled segments say. Each function is empty: its contract is the law.
ghost use Rattle.vm_filler.specs.Laws.{FilledSegmentsAreCanonical, FilledSegmentsCountRecords, FilledSegmentsHold, FilledSegmentsSpell};

use air_core::Extension;

/// Filled tables, pages that fit their records and an opening of these pages are a segment that holds.
pub fn filled_segments_hold<E: Extension>()
    ensures { (ext : E) → FilledSegmentsHold (E.system ext) }
{}

/// It is of the form of a version whose tables are high enough for 64 rows of each record.
pub fn filled_segments_are_canonical<E: Extension>()
    ensures { (ext : E) → FilledSegmentsAreCanonical (E.system ext) }
{}

/// It has a valid row for each record, and spells the hints that the records take.
pub fn filled_segments_are_of_records<E: Extension>()
    ensures count { (ext : E) → FilledSegmentsCountRecords (E.system ext) }
    ensures spell { (ext : E) → FilledSegmentsSpell (E.system ext) }
{}
