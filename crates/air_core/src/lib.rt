//! Tables, their rows and what the rows say.
#![tactic(auto)]

mod both;
pub mod bus;
mod chip;
mod elements;
mod emission;
mod event;
mod extension;
mod flags;
mod hand;
mod hint;
mod holds;
pub mod laws;
mod list;
mod no_chips;
mod reserved;
mod row_error;
mod single;
mod sink;
#[cfg(test)]
mod tests;
mod tuple;

pub use both::Both;
pub use chip::Chip;
pub use elements::element;
pub use emission::{emit, emit_path, emit_received, emit_sent};
pub use event::{Event, Side};
pub use extension::Extension;
pub use flags::{flag_sum, flags_broken, opcode};
pub use hand::hand_counted;
pub use hint::HintWord;
pub use holds::{bit, bits_broken, first, first_nonzero, gated_difference};
pub use list::EventList;
pub use no_chips::NoChips;
pub use reserved::Reserved;
pub use row_error::RowError;
pub use single::Single;
pub use sink::EventSink;
pub use std::alloc::AllocError as OutOfMemory;
pub use tuple::{MAX_TUPLE, Tuple};
