//! A writer of a table file.

mod parts;
mod put;
mod writing;

use std::alloc::Global;
use vm_host::HostError;

/// A writer of a table file, which the host has as its output.
///
/// After an error it answers that error from then on, and leaves the host as it is.
#[derive(Drop)]
pub struct TableWriter {
    version: u32,
    finished: bool,
    error: Option<HostError>,
    // bytes that wait to be written, none between calls
    waiting: Vec<u8>,
}
