//! Addresses of blocks, the sum of a base and an offset by halves, and the memory form: a block at such an address
//! is accessed. A table of the form is a `MemoryCore`.
#![tactic(auto)]

mod address;
mod form;
mod forms;
pub mod laws;
mod memory;
mod own;
mod select;
#[cfg(test)]
mod tests;

pub use address::{part, pointer, pointer_constraints};
pub use form::{MemoryChip, MemoryForm};
pub use forms::{AccessForm, form_at, opcode_by, owns, place_in, selected, shift_by, signed_by};
pub use memory::{
    MemoryColumns, address_constraints, address_filled, emit_address, memory_filled,
    memory_numbers, pointer_of, read_touches, write_touches,
};
pub use own::MemoryCore;
pub use select::{loaded_word, sign_of, stored_word, top_by};
