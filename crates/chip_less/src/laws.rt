//! What the table's sheet is. Each law is what a function with an empty body ensures.

ghost use Rattle.chip_less.specs.Laws.{LessIsFormal};

/// Law: the expressions over the columns have the values of the constraints and events.
pub fn less_is_formal()
    ensures { LessIsFormal }
{}
