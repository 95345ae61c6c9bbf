//! What rows of the table say. Each law is what a function with an empty body ensures.

ghost use Rattle.chip_sha_main.specs.Laws.{BlocksAreCompressed};
ghost use Rattle.chip_sha_main.specs.Sheet.{MainIsFormal};

/// Law: the expressions over the columns have the values of the constraints and events.
pub fn sha_main_is_formal()
    ensures { MainIsFormal }
{}

/// Law: where both tables hold with good lookups, their private bus balances and valid rows have different
/// times, each block's new state is the compression of its old state and its block.
pub fn blocks_are_compressed()
    ensures { BlocksAreCompressed }
{}
