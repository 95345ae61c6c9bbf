// What follows from the definitions. A law is the contract of a function without a body.
ghost use Rattle.vm_transpile.specs.Laws.{RowsRise, RowsAreOfTheText, TheTextHasItsRows, ProgramIsOne, RowsAreInRange};
ghost use Rattle.vm_transpile.specs.Refines.{StateIsKept, StartsAreSame, StepsGoForth, StepsGoBack, StepsEndByRows, RunsGoForth, RunsGoBack, RunsEndAlike};

/// The rows of a program stand in rising order of pc.
pub fn rows_rise()
    ensures { RowsRise }
{}

/// A row of a program is that of the text word at its pc.
pub fn rows_are_of_the_text()
    ensures { RowsAreOfTheText }
{}

/// Each text word that has a row has it in the program.
pub fn the_text_has_its_rows()
    ensures { TheTextHasItsRows }
{}

/// A file has one program.
pub fn program_is_one()
    ensures { ProgramIsOne }
{}

/// Every row of a file's program is in range.
pub fn rows_are_in_range()
    ensures { RowsAreInRange }
{}

/// A step of the manual's machine keeps what its state always is.
pub fn state_is_kept()
    ensures { StateIsKept }
{}

/// The machine on blocks starts in the state in which the manual's machine starts.
pub fn starts_are_same()
    ensures { StartsAreSame }
{}

/// A step of the manual's machine that goes on to a text word is a step on blocks, to the same state.
pub fn steps_go_forth()
    ensures { StepsGoForth }
{}

/// A step on blocks that leads to a row is a step of the manual's machine, to the same state.
pub fn steps_go_back()
    ensures { StepsGoBack }
{}

/// The manual's machine ends exactly where the row at its pc is a TERMINATE with this exit code.
pub fn steps_end_by_rows()
    ensures { StepsEndByRows }
{}

/// What n steps of the manual's machine lead to, with text at its pc, n steps on blocks lead to.
pub fn runs_go_forth()
    ensures { RunsGoForth }
{}

/// What n steps on blocks lead to, with a row at its pc, n steps of the manual's machine lead to.
pub fn runs_go_back()
    ensures { RunsGoBack }
{}

/// A run of the manual's machine ends exactly where the run on blocks does, after as many steps, with the same exit
/// code and public bytes.
pub fn runs_end_alike()
    ensures { RunsEndAlike }
{}
