//! What the table is. The law is what a function with an empty body ensures.

ghost use Rattle.chip_load.specs.Load.{LoadIsFormal};

/// Law: the expressions over the columns have the values of the constraints and events.
pub fn load_is_formal()
    ensures { LoadIsFormal }
{}
