//! The table of SHA blocks, and the extension of it and the table of rounds.
#![tactic(auto)]

mod accesses;
mod extension;
mod fill;
mod form;
pub mod laws;
mod words;

pub use extension::{ShaExtension, ShaExtensionAt};
pub use form::{ShaMain, ShaMainAt, ShaMainForm};
