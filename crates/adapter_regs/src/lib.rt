//! The register form: the words of two registers are read, or of one and an immediate, and the word of a
//! third register is written. A table of the form is a `RegsCore`.
#![tactic(auto)]

mod form;
pub mod laws;
mod next;
mod own;
mod put;
pub mod records;
mod regs;
mod step;

pub use form::{RegsChip, RegsForm};
pub use gadget_time::{access_at, gap_at, gap_of, register_read, register_touch};
pub use next::next_by;
pub use own::RegsCore;
pub use regs::{Regs, immediate, numbers, read, touches, words_from};
pub use step::{filled_regs, new_word};
