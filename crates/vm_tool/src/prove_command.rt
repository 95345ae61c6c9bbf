// The command `prove`.
ghost use Rattle.std.specs.Prelude.{Some, ◌≡◌, ◌≤◌};
ghost use Rattle.vm_tool.specs.Command.{prove};
ghost use Rattle.vm_tool.specs.Outcome.{Finds, halt_of};
ghost use Rattle.vm_tool.specs.ProveCommand.{answer_of_proving};

use crate::answer::{Answer, Halt};
use crate::inputs::{read_elf, read_hints};
use crate::tables::program_tables;
use std::alloc::Global;
use vm_host::Host;
use vm_prover::{Proving, prove_as};

/// Proves the run of the ELF file on the hint file, and writes its tables.
pub fn find_prove<H: Host>(
    alloc: Global,
    elf: &str,
    hints: &str,
    out: &str,
    per_segment: u32,
    host: &mut H,
) -> Result<Answer, Halt>
    requires some { 1 ≤ per_segment }
    requires few { per_segment ≤ 16384 }
    ensures { Finds (Some (prove elf.now hints.now out.now per_segment)) (H.state host.old) (H.state host.new) (halt_of result) }
{
    let image = read_elf(alloc, elf, host)?;
    let given = read_hints(alloc, hints, host)?;
    image.is_of_a_file();
    match prove_as(
        alloc,
        &program_tables(),
        1,
        &image,
        given,
        per_segment,
        host,
        out,
    ) {
        Ok(proving) => Ok(answer_of(proving)),
        Err(error) => Err(Halt::Host(error)),
    }
}

fn answer_of(proving: Proving) -> Answer
    ensures { result ≡ answer_of_proving proving }
{
    match proving {
        Proving::Proved(claim) => Answer::Proved(claim),
        Proving::Trapped(trap) => Answer::Trapped(trap),
        Proving::TooManySegments => Answer::SegmentLimit,
    }
}
