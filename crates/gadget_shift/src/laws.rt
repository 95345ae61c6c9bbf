//! What the columns of a shift say. Each law is what a function with an empty body ensures.

ghost use Rattle.gadget_shift.specs.Laws.{AmountsAreLookedUp, LeftShiftsAreMeant, RightShiftsAreMeant, FilledShiftsHold};

/// Law: constraints that are 0 and good lookups make one amount, carries below 2 to its bits, and bytes.
pub fn amounts_are_looked_up()
    ensures { AmountsAreLookedUp }
{}

/// Law: under a gate of 1 the new word is the old one shifted to the left.
pub fn left_shifts_are_meant()
    ensures { LeftShiftsAreMeant }
{}

/// Law: under a gate of 1 the new word is the old one shifted to the right, with bits of 0 or of 1 shifted in.
pub fn right_shifts_are_meant()
    ensures { RightShiftsAreMeant }
{}

/// Law: the columns that are filled meet all constraints and lookups of the shifted word.
pub fn filled_shifts_hold()
    ensures { FilledShiftsHold }
{}
