//! What an accepted file says. Each function is empty: its contract is the law.
ghost use Rattle.acceptance.specs.Laws.{SegmentsAreRuns, AcceptedFilesAreRunsOnBlocks, AcceptedFilesAreRuns, AcceptedFilesSpell, AcceptedFilesSpellOneList, HeldNodesHave64Bytes, RestingClaimsHold, RestingFilesAreAccepted, SteppingFilesAreAccepted, BalancedStepsAreOneRun, BalancedSegmentIsOneRun, RunsMeetBlocks};

use air_core::Extension;

/// Steps in time whose two buses balance are one path and along it one sequential memory of bytes.
pub fn balanced_steps_are_one_run()
    ensures { BalancedStepsAreOneRun }
{}

/// The valid rows of a segment whose events balance are one run, whatever tables they are of.
pub fn a_balanced_segment_is_one_run()
    ensures { BalancedSegmentIsOneRun }
{}

/// A run is one on the virtual machine's blocks, from the pages' old words to their new ones.
pub fn a_run_meets_blocks()
    ensures { RunsMeetBlocks }
{}

/// A segment that holds is a run on blocks, of as many steps as it has valid rows.
pub fn segments_are_runs<E: Extension>()
    ensures { (ext : E) → SegmentsAreRuns (E.system ext) }
{}

/// A file whose claim holds states a run on blocks, or two nodes that are held have one digest.
pub fn accepted_files_are_runs_on_blocks<E: Extension>()
    ensures { (ext : E) → AcceptedFilesAreRunsOnBlocks (E.system ext) }
{}

/// A file whose claim holds states a run of the manual's machine, or two nodes that are held have one digest.
pub fn accepted_files_are_runs<E: Extension>()
    ensures { (ext : E) → AcceptedFilesAreRuns (E.system ext) }
{}

/// Such a file spells one list of hints.
pub fn accepted_files_spell_hints<E: Extension>()
    ensures some { (ext : E) → AcceptedFilesSpell (E.system ext) }
    ensures one { (ext : E) → AcceptedFilesSpellOneList (E.system ext) }
{}

/// The nodes that such a file holds have 64 bytes each.
pub fn held_nodes_have_64_bytes<E: Extension>()
    ensures { (ext : E) → HeldNodesHave64Bytes (E.system ext) }
{}

/// A file of no steps is accepted, where the program ends at its entry.
pub fn resting_files_are_accepted<E: Extension>()
    ensures accepted { (ext : E) → RestingFilesAreAccepted (E.system ext) }
    ensures claim { (ext : E) → RestingClaimsHold (E.system ext) }
{}

/// The file of one no-operation is accepted, where the program begins with one and then ends.
pub fn stepping_files_are_accepted()
    ensures { SteppingFilesAreAccepted }
{}
