//! Cutting a run into segments, step by step.
ghost use Rattle.std.specs.Prelude.{◌≤◌};

use crate::OutOfMemory;
use std::alloc::{AllocError, Global};

/// How many SHA blocks a segment has at most.
const MOST_BLOCKS: u32 = 1024;

/// The segments of the steps so far. The last one is open.
#[derive(Drop)]
pub struct Cutting {
    per_segment: u32,
    closed: Vec<u32>,
    steps: u32,
    blocks: u32,
    ghost least: { 1 ≤ per_segment },
    ghost short: { steps ≤ per_segment },
    ghost few: { blocks ≤ 1024 },
}

impl Cutting {
    ghost use Rattle.std.specs.Prelude.{◌≡◌, ◌∷◌, ◌+◌, [], Bool, List, vec_len, IfOk, OnOk};
    ghost use Rattle.vm_prover.specs.Cut.{cut};
    ghost use Rattle.vm_prover.specs.Cutting.{cut_behind};

    /// No steps yet.
    pub fn new(alloc: Global, per_segment: u32) -> Cutting
        requires { 1 ≤ per_segment }
        ensures limit { result.per_segment ≡ per_segment }
        ensures closed { result.closed.items ≡ [] }
        ensures none { (more : List Bool) → cut_behind result more ≡ cut per_segment more }
    {
        Cutting {
            per_segment,
            closed: Vec::new(alloc),
            steps: 0,
            blocks: 0,
        }
    }

    /// How many segments there are, the open one among them.
    pub fn segments(&self) -> usize
        requires { vec_len self.now.closed ≤ 4096 }
        ensures { result ≡ vec_len self.now.closed + 1 }
    {
        self.closed.len() + 1
    }

    /// Takes a step, told by whether it is a SHA block. A segment that has no place for it is closed, and a new one begins.
    pub fn take(&mut self, block: bool) -> Result<(), OutOfMemory>
        ensures limit { self.new.per_segment ≡ self.old.per_segment }
        ensures taken { OnOk result ((more : List Bool) → cut_behind self.new more ≡ cut_behind self.old (block ∷ more)) }
        ensures grown { OnOk result (vec_len self.new.closed ≤ vec_len self.old.closed + 1) }
    {
        if self.steps >= self.per_segment || (block && self.blocks >= MOST_BLOCKS) {
            let steps = self.steps;
            self.closed.push(steps).map_err(AllocError::from)?;
            self.steps = 0;
            self.blocks = 0;
        }
        self.steps += 1;
        if block {
            self.blocks += 1;
        }
        Ok(())
    }

    /// The lengths of all segments.
    pub fn lengths(mut self) -> Result<Vec<u32>, OutOfMemory>
        ensures { IfOk result (λ lengths. lengths.items ≡ cut_behind self []) }
    {
        let steps = self.steps;
        self.closed.push(steps).map_err(AllocError::from)?;
        Ok(self.closed)
    }
}
