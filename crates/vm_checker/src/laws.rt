//! Why files are rejected, and which are accepted. Each function is empty: its contract is the law.
ghost use Rattle.vm_checker.specs.Exactly.{AcceptedFileIsOne, RejectedExactly, SegmentRejectedExactly};
ghost use Rattle.vm_checker.specs.Reordered.{ReorderedFilesAreAccepted};
ghost use Rattle.vm_checker.specs.Verdicts.{VerdictIsOne};

/// No test of a file fails exactly where its bytes are one that is accepted, and they are one such file only.
pub fn a_file_is_rejected_exactly()
    ensures exactly { RejectedExactly }
    ensures one { AcceptedFileIsOne }
{}

/// No test of a segment alone fails exactly where it is one of the form that holds, and begins and ends as it must.
pub fn a_segment_is_rejected_exactly()
    ensures { SegmentRejectedExactly }
{}

/// A file has one verdict.
pub fn verdict_is_one()
    ensures { VerdictIsOne }
{}

/// A file is accepted exactly where it is with the rows of its tables in another order.
pub fn reordered_files_are_accepted()
    ensures { ReorderedFilesAreAccepted }
{}
