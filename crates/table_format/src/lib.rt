//! The file of a run's tables: its one spelling, a reader and a writer over a host.
#![tactic(auto)]

mod error;
mod head;
pub mod item;
pub mod laws;
mod reason;
mod stage;
mod stream;
mod table_reader;
mod table_writer;
mod take;
#[cfg(test)]
mod tests;

pub use head::read_head;
pub use reason::Reason;
pub use stage::Stage;
pub use stream::Stream;
pub use table_reader::{Shape, TableReader};
pub use table_writer::TableWriter;
pub use vm_trace::CountEntry;
