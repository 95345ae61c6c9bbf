//! What the tables are. The law is what a function with an empty body ensures.

ghost use Rattle.vm_config.specs.Laws.{FullIsTheTables};

/// Law: there are seventeen tables with these slots, columns, opcodes and numbers of constraints and events, and no
/// instruction but TERMINATE is without one.
pub fn full_is_the_tables()
    ensures { FullIsTheTables }
{}
