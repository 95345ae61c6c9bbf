//! What the ALU's sheet is. Each law is what a function with an empty body ensures.

ghost use Rattle.chip_alu.specs.Laws.{AluIsFormal};

/// Law: the expressions over the columns have the values of the constraints and events.
pub fn the_alu_is_formal()
    ensures { AluIsFormal }
{}
