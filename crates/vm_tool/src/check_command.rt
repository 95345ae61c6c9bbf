// The command `check`.
ghost use Rattle.std.specs.Prelude.{Some, ◌≡◌};
ghost use Rattle.vm_tool.specs.CheckCommand.{answer_of_verdict};
ghost use Rattle.vm_tool.specs.Command.{check};
ghost use Rattle.vm_tool.specs.Outcome.{Finds, halt_of};

use crate::answer::{Answer, Halt};
use crate::inputs::{open, read_elf};
use crate::tables::program_tables;
use std::alloc::Global;
use vm_checker::{Verdict, check as check_tables};
use vm_host::{Host, Slot};

/// Checks the table file against the program of the ELF file.
pub fn find_check<H: Host>(
    alloc: Global,
    elf: &str,
    tables: &str,
    host: &mut H,
) -> Result<Answer, Halt>
    ensures { Finds (Some (check elf.now tables.now)) (H.state host.old) (H.state host.new) (halt_of result) }
{
    let image = read_elf(alloc, elf, host)?;
    open(Slot::Second, tables, host)?;
    match check_tables(alloc, &program_tables(), &image, host) {
        Ok(verdict) => Ok(answer_of(verdict)),
        Err(error) => Err(Halt::Host(error)),
    }
}

fn answer_of(verdict: Verdict) -> Answer
    ensures { result ≡ answer_of_verdict verdict }
{
    match verdict {
        Verdict::Accepted(accepted) => Answer::Accepted(accepted),
        Verdict::Rejected(reason) => Answer::Rejected(reason),
    }
}
