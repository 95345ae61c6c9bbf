// The command `sample`.
ghost use Rattle.std.specs.Prelude.{Some, ◌≡◌, ◌<◌, ◌^◌, IfOk, IfErr};
ghost use Rattle.vm_host.specs.declared.HostError.TheVariants.{OutOfMemory};
ghost use Rattle.vm_tool.specs.Command.{sample};
ghost use Rattle.vm_tool.specs.Outcome.{Finds, halt_of};
ghost use Rattle.vm_tool.specs.SampleCommand.{answer_of_sample, sample_image};

use crate::answer::{Answer, Halt};
use crate::tables::program_tables;
use elf_image::{Image, read_image};
use std::alloc::Global;
use vm_host::{Host, HostError};
use vm_prover::{Proving, prove_as};
use vm_vectors::{elf_of, sample_words};

const BASE: u32 = 0x1000;

const PER_SEGMENT: u32 = 4096;

// The image of the sample program of a number.
fn sample_image(alloc: Global, number: u32) -> Result<Image, HostError>
    ensures image { IfOk result (λ image. image ≡ sample_image number) }
    ensures memory { IfErr result (λ error. error ≡ OutOfMemory) }
{
    let words = sample_words(alloc, number)?;
    let file = elf_of(alloc, BASE, &words)?;
    // the file has an image, so an error is for want of memory
    match read_image(alloc, &file) {
        Ok(image) => Ok(image),
        Err(_) => Err(HostError::OutOfMemory),
    }
}

/// Proves the run of the sample program of a number, and writes its tables.
pub fn find_sample<H: Host>(
    alloc: Global,
    number: u32,
    out: &str,
    host: &mut H,
) -> Result<Answer, Halt>
    ensures { Finds (Some (sample number out.now)) (H.state host.old) (H.state host.new) (halt_of result) }
{
    let image = match sample_image(alloc, number) {
        Ok(image) => image,
        Err(error) => return Err(Halt::Host(error)),
    };
    image.is_of_a_file();
    match prove_as(
        alloc,
        &program_tables(),
        1,
        &image,
        Vec::new(alloc),
        PER_SEGMENT,
        host,
        out,
    ) {
        Ok(proving) => Ok(answer_of(number, proving)),
        Err(error) => Err(Halt::Host(error)),
    }
}

fn answer_of(number: u32, proving: Proving) -> Answer
    ensures { result ≡ answer_of_sample number proving }
{
    match proving {
        Proving::Proved(claim) => Answer::Sampled { number, claim },
        Proving::Trapped(trap) => Answer::Trapped(trap),
        Proving::TooManySegments => Answer::SegmentLimit,
    }
}
