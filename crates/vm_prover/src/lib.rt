//! A prover: it runs an image, and writes a file of tables that states the run.
#![tactic(auto)]

ghost use Rattle.std.specs.Prelude.{◌≡◌, ◌≤◌, IfOk};
ghost use Rattle.acceptance.specs.Example.{IsVersion};
ghost use Rattle.vm_transpile.specs.Program.{program_of};
ghost use Rattle.vm_prover.specs.Progress.{OwnsRows};
ghost use Rattle.vm_prover.specs.Proving.{Proves};

mod cutting;
mod file;
pub mod laws;
mod opening;
mod plain_run;
mod plan;
mod proving;
mod records;
mod segment;

use air_core::Extension;
use elf_image::Image;
use file::write_file;
pub use plain_run::{Surveyed, survey};
pub use plan::Ending;
pub use proving::{Proved, Proving};
pub use std::alloc::AllocError as OutOfMemory;
use std::alloc::Global;
use vm_host::{Host, HostError};

fn copied(alloc: Global, bytes: &[u8]) -> Result<Vec<u8>, OutOfMemory>
    ensures { IfOk result (λ copy. copy.items ≡ bytes.now) }
{
    bytes.to_vec(alloc)
}

/// Runs an image on hint bytes, and writes the file of a version that states the run, in segments of at most so many
/// steps. Where the run doesn't end, or has too many segments, nothing is written.
///
/// It fails where the host does or memory is out. Then some first part of the file may stand.
pub fn prove_as<E: Extension, H: Host>(
    alloc: Global,
    ext: &E,
    version: u32,
    image: &Image,
    hints: Vec<u8>,
    per_segment: u32,
    host: &mut H,
    name: &str,
) -> Result<Proving, HostError>
    requires version { IsVersion version (E.system ext.now).time_bits }
    requires owns { OwnsRows (E.system ext.now) (program_of image.now) }
    requires least { 1 ≤ per_segment }
    requires most { per_segment ≤ 16384 }
    ensures { Proves (E.system ext.now) version image.now hints.items per_segment name.now (H.state host.old) (H.state host.new) result }
{
    match survey(alloc, image, copied(alloc, &hints)?, per_segment)? {
        Surveyed::Ended(ending) => {
            write_file(alloc, ext, version, image, hints, &ending, host, name)?;
            Ok(Proving::Proved(Proved {
                code: ending.code,
                public: ending.public,
                segments: ending.lengths.len() as u32,
                steps: ending.steps,
            }))
        }
        Surveyed::Trapped(trap) => Ok(Proving::Trapped(trap)),
        Surveyed::TooManySegments => Ok(Proving::TooManySegments),
    }
}

/// Proves in version 1.
pub fn prove<E: Extension, H: Host>(
    alloc: Global,
    ext: &E,
    image: &Image,
    hints: Vec<u8>,
    per_segment: u32,
    host: &mut H,
    name: &str,
) -> Result<Proving, HostError>
    requires times { (E.system ext.now).time_bits ≡ 24 }
    requires owns { OwnsRows (E.system ext.now) (program_of image.now) }
    requires least { 1 ≤ per_segment }
    requires most { per_segment ≤ 16384 }
    ensures { Proves (E.system ext.now) 1 image.now hints.items per_segment name.now (H.state host.old) (H.state host.new) result }
{
    prove_as(alloc, ext, 1, image, hints, per_segment, host, name)
}
