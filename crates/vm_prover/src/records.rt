//! The records of a segment.
ghost use Rattle.std.specs.Prelude.{◌≡◌, ◌≤◌, ℕ, IfOk};
ghost use Rattle.air_core.specs.System.{System};
ghost use Rattle.vm_executor.specs.State.{machine_of, program_of};
ghost use Rattle.vm_prover.specs.Segments.{AreTaken, GoesOnFor, Run};

use crate::OutOfMemory;
use std::alloc::{AllocError, Global};
use vm_executor::{Machine, Machined};
use vm_isa::StepRecord;

/// Begins a segment, and takes the records of so many steps. The run goes on for as many.
pub fn take_records(
    alloc: Global,
    machine: &mut Machine<'_>,
    count: u32,
) -> Result<Vec<StepRecord>, OutOfMemory>
    requires { (x : System) × ((run : Run x) × ((steps : ℕ) × GoesOnFor run (program_of machine.old) (machine_of machine.old) steps count)) }
    ensures program { program_of machine.new ≡ program_of machine.old }
    ensures taken { IfOk result (λ records. (x : System) (run : Run x) (steps : ℕ) → GoesOnFor run (program_of machine.old) (machine_of machine.old) steps count
        → AreTaken run (machine_of machine.old) steps count records.items (machine_of machine.new)) }
{
    machine.start_segment();
    let mut records = Vec::with_capacity(alloc, count as usize)?;
    for number in 0..count {
        // each step goes on
        if let Machined::Went(record) = machine.step()? {
            records.push(record).map_err(AllocError::from)?;
        }
    }
    Ok(records)
}
