//! What rows of the table say. Each law is what a function with an empty body ensures.

ghost use Rattle.chip_sha_round.specs.Laws.{ARowIsARound};
ghost use Rattle.chip_sha_round.specs.Sheet.{RoundIsFormal};

/// Law: a row that counts, holds and has good lookups is one round on the words that it receives.
pub fn a_row_is_a_round()
    ensures { ARowIsARound }
{}

/// Law: the expressions over the columns have the values of the constraints and events.
pub fn the_round_is_formal()
    ensures { RoundIsFormal }
{}
