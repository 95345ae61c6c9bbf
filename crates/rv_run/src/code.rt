// The instructions of a program, decoded once.
ghost use Rattle.std.specs.Prelude.{◌≡◌, map, slice_get};
ghost use Rattle.std.specs.Option.{option_and_then};
ghost use Rattle.elf_image.specs.Loaded.{text_of, word_of};
ghost use Rattle.rv_run.specs.Code.{decoded, fetched, HasRanges};

use crate::OutOfMemory;
use elf_image::Image;
use rv_decode::{Instr, decode};
use std::alloc::{AllocError, Global};

/// An image, and what its text words decode to, in the order of the text. No store changes it.
#[derive(Drop)]
pub struct Code<'a> {
    image: &'a Image,
    lines: Vec<Option<Instr>>,
    ghost whole: { lines.items ≡ map decoded (text_of image.now) },
}

// What the text word at a place decodes to.
fn decoded_at(image: &Image, place: usize) -> Option<Instr>
    ensures { result ≡ option_and_then decoded (slice_get (text_of image.now) place) }
{
    decode(image.text(place)?.word)
}

impl<'a> Code<'a> {
    ghost use Rattle.std.specs.Prelude.{IfOk};

    /// Decodes the text of an image.
    pub fn new(alloc: Global, image: &'a Image) -> Result<Code<'a>, OutOfMemory>
        ensures { IfOk result (λ code. code.image.now ≡ image.now) }
    {
        let mut lines = Vec::with_capacity(alloc, image.text_len())?;
        for place in 0..image.text_len() {
            lines
                .push(decoded_at(image, place))
                .map_err(AllocError::from)?;
        }
        Ok(Code { image, lines })
    }

    pub fn image(&self) -> &'a Image
        ensures { result.now ≡ self.now.image.now }
    {
        self.image
    }

    /// What the text word at an address decodes to, `None` where no text word stands there.
    pub fn fetch(&self, pc: u32) -> Option<Option<Instr>>
        ensures is { result ≡ fetched (word_of self.now.image.now pc) }
        ensures ranged { HasRanges result }
    {
        let place = self.image.place_of(pc)?;
        Some(self.lines[place])
    }
}
