//! What the tables are. Each law is what a function with an empty body ensures.

ghost use Rattle.chip_io.specs.Hint.{HintIsFormal};
ghost use Rattle.chip_io.specs.Reveal.{RevealIsFormal};

/// Law: of HINT the expressions over the columns have the values of the constraints and events.
pub fn hint_is_formal()
    ensures { HintIsFormal }
{}

/// Law: and of REVEAL.
pub fn reveal_is_formal()
    ensures { RevealIsFormal }
{}
