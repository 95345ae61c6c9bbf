//! What rows of instruction tables say. Each law is what a function with an empty body ensures.

ghost use Rattle.gadget_time.specs.Laws.{ASilentRowSaysNothing, AValidRowHasAnInstruction, AValidRowIsAStep, AFilledRowSaysItsRecord, ARowKeepsToItsBuses, ARowIsNoHint, AccessesAreApart};
ghost use Rattle.gadget_time.specs.FormLaws.{AFormIsATable};
ghost use Rattle.gadget_time.specs.Nop.{NopIsFormal};

/// Law: a row whose counts are all 0 says nothing.
pub fn a_silent_row_says_nothing()
    ensures { ASilentRowSaysNothing }
{}

/// Law: the program tuple of a valid row with good lookups is an instruction's.
pub fn a_valid_row_has_an_instruction()
    ensures { AValidRowHasAnInstruction }
{}

/// Law: a valid row that holds, with good lookups, is a step in time.
pub fn a_valid_row_is_a_step()
    ensures { AValidRowIsAStep }
{}

/// Law: a row whose accesses were filled from a record meets their constraints, and says the record.
pub fn a_filled_row_says_its_record()
    ensures { AFilledRowSaysItsRecord }
{}

/// Law: a row uses the buses of the machine and the range lookups as a table may.
pub fn a_row_keeps_to_its_buses()
    ensures { ARowKeepsToItsBuses }
{}

/// Law: a row of an opcode that takes no word of the host's is no hint.
pub fn a_row_is_no_hint()
    ensures { ARowIsNoHint }
{}

/// Law: the accesses of a step are at different times, modulo p too.
pub fn accesses_are_apart()
    ensures { AccessesAreApart }
{}

/// Law: a form with its laws is a table with all laws of a chip.
pub fn a_form_is_a_table()
    ensures { AFormIsATable }
{}

/// Law: the no-operation's expressions over the columns have the values of its constraints and events.
pub fn the_no_operation_is_formal()
    ensures { NopIsFormal }
{}
