//! What the columns of a division say beside its product, both ways. Each law is what a function with an empty body
//! ensures.

ghost use Rattle.gadget_divide.specs.Laws.{DividedIsMeant, FilledDividedHolds};

/// Law: constraints that are 0 and good lookups of a valid row say the signs and the distances from 0 of two words, the
/// signs of quotient and remainder, and that the remainder is below a divisor that isn't 0.
pub fn divided_is_meant()
    ensures { DividedIsMeant }
{}

/// Law: the filled columns meet the constraints and lookups, and their divisor times the quotient and the remainder is the
/// dividend.
pub fn filled_divided_holds()
    ensures { FilledDividedHolds }
{}
