// From text words to program rows.
ghost use Rattle.std.specs.Prelude.{◌≡◌, IfOk, slice_get};
ghost use Rattle.std.specs.Option.{option_and_then};
ghost use Rattle.elf_image.specs.Loaded.{text_of};
ghost use Rattle.vm_transpile.specs.Program.{row_at, program_of};
ghost use Rattle.vm_transpile.specs.Refines.{StepsAlike, EndsAlike};

use crate::row::instr_row;
use crate::{OutOfMemory, Program};
use elf_image::Image;
use rv_decode::decode;
use std::alloc::Global;
use vm_isa::VmInstr;

/// The program of an image. A text word that is no instruction has no row. The program does on the machine of blocks
/// what the text does on the manual's machine.
pub fn transpile(alloc: Global, image: &Image) -> Result<Program, OutOfMemory>
    ensures rows { IfOk result (λ program. program ≡ program_of image.now) }
    ensures steps { IfOk result (StepsAlike image.now) }
    ensures runs { IfOk result (EndsAlike image.now) }
{
    image.is_of_a_file();
    let mut rows = Vec::new(alloc);
    for place in 0..image.text_len() {
        if let Some(row) = row_at_place(image, place) {
            rows.push(row)?;
        }
    }
    Ok(Program::new(rows))
}

// The row of the text word at a place.
fn row_at_place(image: &Image, place: usize) -> Option<VmInstr>
    ensures { result ≡ option_and_then row_at (slice_get (text_of image.now) place) }
{
    let text = image.text(place)?;
    Some(instr_row(text.pc, decode(text.word)?))
}
