//! Whether a stored table file states a run of a program.
//!
//! A file is read item by item and tested as it is read. No row of it is kept.
#![tactic(auto)]

ghost use Rattle.std.specs.Prelude.{◌≡◌, ◌≤◌, true};
ghost use Rattle.vm_host.specs.declared.Slot.TheVariants.{Second};
ghost use Rattle.vm_trace.specs.Limits.{limits_of};
ghost use Rattle.vm_checker.specs.Body.{answer_to, verdict_of};
ghost use Rattle.vm_checker.specs.Verdicts.{Checks, JudgesBody, JudgesFile};

mod body;
mod chain;
mod counts;
mod fixed;
mod heights;
mod hints;
pub mod laws;
mod pages;
mod said;
mod segment;
mod spelled;
mod tables;
mod tally;
mod whole;

use acceptance::laws::{accepted_files_are_runs, accepted_files_spell_hints};
use air_core::Extension;
use body::take_whole;
use elf_image::Image;
pub use hints::HintBytes;
use page_tree::Digest;
use readings::Stop;
pub use segment::{SegmentFacts, check_segment};
use std::alloc::Global;
use table_format::Stream;
pub use table_format::{Reason, read_head};
use vm_host::{Host, HostError};
use vm_transpile::transpile;

/// How many bytes the head of a file has.
const HEAD_LENGTH: u64 = 12;

/// What an accepted file says of the run.
#[derive(Debug, Drop)]
pub struct Accepted {
    /// The code that the run exits with.
    pub code: u8,
    /// The bytes that the run makes public.
    pub public: [u8; 64],
    /// The root of the tree of pages at its end.
    pub root: Digest,
    /// In how many segments the run was cut.
    pub segments: u32,
    /// The hint bytes that the run takes, in order.
    pub hints: HintBytes,
}

/// Where a segment is to begin: where the one before it ended.
#[derive(Clone, Copy, Debug, PartialEq, Eq)]
pub struct Before {
    /// The root of the tree of pages.
    pub root: Digest,
    pub pc: u32,
}

#[derive(Debug, Drop)]
pub enum Verdict {
    Accepted(Accepted),
    /// The first test that fails, in the order of the file.
    Rejected(Reason),
}

// A refusal is a verdict.
fn verdict_of(stop: Stop<Reason>) -> Result<Verdict, HostError>
    ensures { result ≡ verdict_of stop }
{
    match stop {
        Stop::Refused(reason) => Ok(Verdict::Rejected(reason)),
        Stop::Fault => Err(HostError::Failed),
        Stop::OutOfMemory => Err(HostError::OutOfMemory),
    }
}

fn answer_to(read: Result<Accepted, Stop<Reason>>) -> Result<Verdict, HostError>
    ensures { result ≡ answer_to read }
{
    match read {
        Ok(accepted) => Ok(Verdict::Accepted(accepted)),
        Err(stop) => verdict_of(stop),
    }
}

/// Checks the rest of the host's second input as what stands behind the head of a file of a version, against the
/// program of an image. The extension keeps the times of that version.
pub fn check_body<E: Extension, H: Host>(
    alloc: Global,
    ext: &E,
    version: u32,
    image: &Image,
    host: &mut H,
) -> Result<Verdict, HostError>
    requires open { ((H.state host.old).input Second).is_open ≡ true }
    requires first { 1 ≤ version }
    requires times { (E.system ext.now).time_bits ≡ (limits_of version).time_bits }
    ensures { Checks (JudgesBody (E.system ext.now) image.now version) (H.state host.old) (H.state host.new) result }
{
    image.is_of_a_file();
    accepted_files_are_runs::<E>();
    accepted_files_spell_hints::<E>();
    let program = transpile(alloc, image)?;
    let mut stream = Stream::new(alloc, HEAD_LENGTH)?;
    answer_to(take_whole(alloc, &mut stream, host, ext, version, image, &program))
}

/// Checks the table file of version 1 in the host's second input against the program of an image.
pub fn check<E: Extension, H: Host>(
    alloc: Global,
    ext: &E,
    image: &Image,
    host: &mut H,
) -> Result<Verdict, HostError>
    requires open { ((H.state host.old).input Second).is_open ≡ true }
    requires times { (E.system ext.now).time_bits ≡ 24 }
    ensures { Checks (JudgesFile (E.system ext.now) image.now) (H.state host.old) (H.state host.new) result }
{
    match read_head(host, 1) {
        Ok(version) => check_body(alloc, ext, version, image, host),
        Err(stop) => verdict_of(stop),
    }
}
