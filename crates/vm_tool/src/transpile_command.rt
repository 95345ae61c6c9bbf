// The command `transpile`.
ghost use Rattle.std.specs.Prelude.{Some};
ghost use Rattle.vm_tool.specs.Command.{transpile};
ghost use Rattle.vm_tool.specs.Outcome.{Finds, halt_of};

use crate::answer::{Answer, Halt};
use crate::inputs::read_elf;
use std::alloc::Global;
use vm_host::{Host, HostError};
use vm_transpile::transpile as transpile_image;

/// Lists the program rows of the ELF file.
pub fn find_transpile<H: Host>(alloc: Global, elf: &str, host: &mut H) -> Result<Answer, Halt>
    ensures { Finds (Some (transpile elf.now)) (H.state host.old) (H.state host.new) (halt_of result) }
{
    let image = read_elf(alloc, elf, host)?;
    match transpile_image(alloc, &image) {
        Ok(program) => Ok(Answer::Listing(program)),
        Err(_) => Err(Halt::Host(HostError::OutOfMemory)),
    }
}
