//! What the shifts' sheet is. Each law is what a function with an empty body ensures.

ghost use Rattle.chip_shift.specs.Laws.{ShiftIsFormal};

/// Law: the expressions over the columns have the values of the constraints and events.
pub fn shift_is_formal()
    ensures { ShiftIsFormal }
{}
