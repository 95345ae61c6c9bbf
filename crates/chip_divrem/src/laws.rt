//! What the table's sheet is. Each law is what a function with an empty body ensures.

ghost use Rattle.chip_divrem.specs.Laws.{DivRemIsFormal};

/// Law: the expressions over the columns have the values of the constraints and events.
pub fn divrem_is_formal()
    ensures { DivRemIsFormal }
{}
