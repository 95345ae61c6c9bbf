//! What the executor hands on of one step.

use crate::{AccessList, VmInstr};

/// One completed step: all that the table row of the step is made of.
#[derive(Debug, Drop)]
pub struct StepRecord {
    pub instr: VmInstr,
    /// When the step begins.
    pub time: u32,
    pub accesses: AccessList,
    /// The pc after it.
    pub next: u32,
}
