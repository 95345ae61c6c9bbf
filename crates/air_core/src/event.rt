//! Events: what a row sends to a bus or receives from it.

use crate::Tuple;

/// Whether an event sends or receives.
#[derive(Clone, Copy, Debug, PartialEq, Eq)]
pub enum Side {
    Send,
    Receive,
}

/// A tuple sent to a bus, or received from it, `count` times.
#[derive(Clone, Copy, Debug, PartialEq, Eq)]
pub struct Event {
    pub bus: u8,
    pub side: Side,
    pub tuple: Tuple,
    pub count: u32,
}
