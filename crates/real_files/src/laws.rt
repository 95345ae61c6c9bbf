//! A file that is accepted. The function is empty: its contract is the law.
ghost use Rattle.real_files.specs.Laws.{TwoSumsAreAccepted};

/// The file of two segments with a sum each is accepted, where the program begins with the sums and then ends.
pub fn two_sums_are_accepted()
    ensures { TwoSumsAreAccepted }
{}
