// The command `run`.
ghost use Rattle.std.specs.Prelude.{Some, ◌≡◌};
ghost use Rattle.vm_tool.specs.Command.{run};
ghost use Rattle.vm_tool.specs.Outcome.{Finds, halt_of};
ghost use Rattle.vm_tool.specs.RunCommand.{answer_of_end};

use crate::answer::{Answer, Halt};
use crate::inputs::{read_elf, read_hints};
use rv_run::{RunEnd, run as run_machine};
use std::alloc::Global;
use vm_host::{Host, HostError};

/// Runs the ELF file on the hint file.
pub fn find_run<H: Host>(
    alloc: Global,
    elf: &str,
    hints: &str,
    steps: u64,
    host: &mut H,
) -> Result<Answer, Halt>
    ensures { Finds (Some (run elf.now hints.now steps)) (H.state host.old) (H.state host.new) (halt_of result) }
{
    let image = read_elf(alloc, elf, host)?;
    let given = read_hints(alloc, hints, host)?;
    match run_machine(alloc, &image, given, steps) {
        Ok(end) => Ok(answer_of(end, steps)),
        Err(_) => Err(Halt::Host(HostError::OutOfMemory)),
    }
}

fn answer_of(end: RunEnd, limit: u64) -> Answer
    ensures { result ≡ answer_of_end limit end }
{
    match end {
        RunEnd::Ended {
            steps,
            code,
            public,
        } => Answer::Exit {
            code,
            public,
            steps,
        },
        RunEnd::StepLimit => Answer::StepLimit { limit },
        RunEnd::Trapped { trap, .. } => Answer::Trapped(trap),
    }
}
