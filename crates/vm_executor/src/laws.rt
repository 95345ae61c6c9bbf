//! What the machine's steps say. Each function is empty: its contract is the law.
ghost use Rattle.vm_executor.specs.Laws.{RecordsAreLinked, RunsAreRunsOnBlocks, RunsAreTheManuals, RunsGoAlong, SegmentsBegin, StepsAreFillable, StepsAreStepsOnBlocks, StepsGoOn, StuckNowhereAlone, TouchedPagesFit};

/// A completed step is one of the machine on blocks.
pub fn steps_are_steps_on_blocks()
    ensures { StepsAreStepsOnBlocks }
{}

/// The records since a segment began follow one another, and their accesses lead from its memory to the present one.
pub fn records_lead_to_the_machine()
    ensures begin { SegmentsBegin }
    ensures go_on { StepsGoOn }
{}

/// Their accesses are linked, and each can be filled.
pub fn records_can_be_filled()
    ensures linked { RecordsAreLinked }
    ensures fillable { StepsAreFillable }
{}

/// The pages of a segment fit its records.
pub fn touched_pages_fit()
    ensures { TouchedPagesFit }
{}

/// Over the program of an image no step is stuck where the manual's machine goes on to where text stands.
pub fn stuck_nowhere_alone()
    ensures { StuckNowhereAlone }
{}

/// Over the program of an image a run is the manual's: a step goes on where the manual's machine goes on to
/// where text stands, and ends where it ends.
pub fn runs_are_the_manuals()
    ensures blocks { RunsAreRunsOnBlocks }
    ensures same { RunsAreTheManuals }
    ensures along { RunsGoAlong }
{}
