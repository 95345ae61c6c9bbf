//! What the table's sheet is. Each law is what a function with an empty body ensures.

ghost use Rattle.chip_mul.specs.Laws.{MulIsFormal};

/// Law: the expressions over the columns have the values of the constraints and events.
pub fn mul_is_formal()
    ensures { MulIsFormal }
{}
