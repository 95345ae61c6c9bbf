//! The records of a machine's steps.
ghost use Rattle.std.specs.Prelude.{◌≤◌, ℕ, All, IfOk};
ghost use Rattle.vm_isa.specs.Instr.{InRange};
ghost use Rattle.vm_isa.specs.Words.{IsBytes};
ghost use Rattle.vm_config.specs.Config.{full};
ghost use Rattle.vm_executor.specs.Records.{AreRecords};
ghost use Rattle.vm_executor.specs.State.{machine_of, program_of};

use std::alloc::{AllocError, Global};
use vm_executor::{Machine, Machined};
use vm_isa::StepRecord;

/// The elements of a vector of bytes are bytes.
pub fn are_bytes(bytes: &Vec<u8>)
    ensures { IsBytes bytes.now.items }
{
    let _ = bytes;
}

/// The records of a segment of at most so many steps. It ends where the machine has no step.
pub fn records_of_steps(
    alloc: Global,
    machine: &mut Machine<'_>,
    count: u32,
) -> Result<Vec<StepRecord>, AllocError>
    requires few { count ≤ 16384 }
    requires range { All InRange (program_of machine.old) }
    requires bytes { IsBytes (machine_of machine.old).hints }
    ensures { IfOk result (λ records. (pc : ℕ) × AreRecords (full 8) (program_of machine.old) pc records.items) }
{
    machine.start_segment();
    let mut records = Vec::new(alloc);
    for step in 0..count {
        if let Machined::Went(record) = machine.step()? {
            records.push(record)?;
        }
    }
    Ok(records)
}
