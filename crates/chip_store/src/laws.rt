//! What the table is. The law is what a function with an empty body ensures.

ghost use Rattle.chip_store.specs.Store.{StoreIsFormal};

/// Law: the expressions over the columns have the values of the constraints and events.
pub fn store_is_formal()
    ensures { StoreIsFormal }
{}
