//! What PTR says, both ways, what a table of the memory form is, and what its flags select. Each law is what a function
//! with an empty body ensures.

ghost use Rattle.adapter_mem.specs.Laws.{PointerLaw};
ghost use Rattle.adapter_mem.specs.MemoryLaws.{AMemoryTableIsAForm};
ghost use Rattle.adapter_mem.specs.SelectLaws.{LoadsAreRead, SignsAreFilled, StoresAreLaid};

/// Law: PTR holds exactly where the halves and the remainder are those of the sum, which is below 2 ^ 29.
pub fn pointer_is_the_sum()
    ensures { PointerLaw }
{}

/// Law: a table of the memory form with its laws is a form with its laws.
pub fn a_memory_table_is_a_form()
    ensures { AMemoryTableIsAForm }
{}

/// Law: with the sign of the bytes that the set flag's form reads, the loaded word is what its opcode makes of them.
pub fn loads_are_read()
    ensures { LoadsAreRead }
{}

/// Law: the sign of a record is that of these bytes.
pub fn signs_are_filled()
    ensures { SignsAreFilled }
{}

/// Law: the block that a store leaves is the old one with the low bytes of the word at the place of the set flag's form.
pub fn stores_are_laid()
    ensures { StoresAreLaid }
{}
