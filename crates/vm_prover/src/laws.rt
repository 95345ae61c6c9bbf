//! What whole segments come to. Each function does nothing when it runs: its contract is the law.
ghost use Rattle.vm_prover.specs.Laws.{AllOpcodesOwnRows, NoSegmentsStand, SegmentsComeUnderWay, RecordsGoOn, RecordsCanBeFilled, SegmentsGoOn, SegmentsAreMade, PutsGoOn, EachVersionTakes16384, EndedSegmentsProve, EndingRunsGoOn};
ghost use Rattle.vm_prover.specs.Cut.{CutsAreWithin, CutsGrow, LengthsAreTheSteps, OnlyNoStepsAreEmpty};
ghost use Rattle.vm_prover.specs.Proving.{ProvingIsOne};

use air_core::Extension;
use vm_filler::laws::{
    filled_segments_are_canonical, filled_segments_are_of_records, filled_segments_hold,
};

/// An extension of all opcodes of steps owns the rows of every program.
pub fn all_opcodes_own_rows<E: Extension>()
    ensures { (ext : E) → AllOpcodesOwnRows (E.system ext) }
{}

/// Before the first segment there is the image alone.
pub fn no_segments_stand<E: Extension>()
    ensures { (ext : E) → NoSegmentsStand (E.system ext) }
{}

/// Where whole segments stand, one more comes under way, each completed step is a record more of it, and
/// its records can be filled.
pub fn a_segment_is_under_way<E: Extension>()
    ensures begins { (ext : E) → SegmentsComeUnderWay (E.system ext) }
    ensures goes_on { (ext : E) → RecordsGoOn (E.system ext) }
    ensures fillable { (ext : E) → RecordsCanBeFilled (E.system ext) }
{}

/// A segment more, filled from these records, stands with those before it.
pub fn segments_go_on<E: Extension>()
    ensures { (ext : E) → SegmentsGoOn (E.system ext) }
{
    filled_segments_hold::<E>();
    filled_segments_are_canonical::<E>();
    filled_segments_are_of_records::<E>();
}

/// It is made of the parts that a writer takes.
pub fn segments_are_made<E: Extension>()
    ensures { (ext : E) → SegmentsAreMade (E.system ext) }
{
    filled_segments_are_canonical::<E>();
}

/// Pages that are put one after the other give the leaves with all of them.
pub fn puts_go_on()
    ensures { PutsGoOn }
{}

/// Every version takes segments of 16,384 records.
pub fn each_version_takes_16384()
    ensures { EachVersionTakes16384 }
{}

/// Where the run ends behind the last segment, the file is accepted and states the run.
pub fn ended_segments_prove<E: Extension>()
    ensures { (ext : E) → EndedSegmentsProve (E.system ext) }
{}

/// The machine goes on as long as a run that ends, and ends with its exit code.
pub fn ending_runs_go_on()
    ensures { EndingRunsGoOn }
{}

/// Each segment has at most as many steps as are asked for, and at most 1,024 SHA blocks. All of them have the steps of
/// the run. None is empty, but where the run has no steps.
pub fn cuts_are_within_limits()
    ensures within { CutsAreWithin }
    ensures all { LengthsAreTheSteps }
    ensures used { OnlyNoStepsAreEmpty }
{}

/// A run that goes on has no fewer segments.
pub fn cuts_grow()
    ensures { CutsGrow }
{}

/// A run comes to one thing: it is proved with one claim, comes to one trap, or has too many segments.
pub fn proving_is_one()
    ensures { ProvingIsOne }
{}
