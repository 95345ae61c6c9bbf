//! A plain run of the manual's machine, which says how a run ends and how it is cut.
ghost use Rattle.std.specs.Prelude.{◌≡◌, ◌≤◌, IfOk};
ghost use Rattle.vm_prover.specs.Cut.{is_sha_block};
ghost use Rattle.vm_prover.specs.Survey.{IsSurvey};

use crate::OutOfMemory;
use crate::cutting::Cutting;
use crate::plan::Ending;
use elf_image::Image;
use rv_decode::Instr;
use rv_run::{State, Stepped, Trap};
use std::alloc::Global;

/// How many segments a file has at most.
const MOST_SEGMENTS: usize = 4096;

/// How a run ends, as far as a file can tell it.
#[derive(Debug, Drop)]
pub enum Surveyed {
    Ended(Ending),
    Trapped(Trap),
    /// Some of its steps have more than 4,096 segments.
    TooManySegments,
}

fn is_sha_block(instr: Option<Instr>) -> bool
    ensures { result ≡ is_sha_block instr }
{
    matches!(instr, Some(Instr::ShaBlock { .. }))
}

/// Runs a program on hint bytes, and cuts its steps into segments of at most so many.
pub fn survey(
    alloc: Global,
    image: &Image,
    hints: Vec<u8>,
    per_segment: u32,
) -> Result<Surveyed, OutOfMemory>
    requires { 1 ≤ per_segment }
    ensures { IfOk result (IsSurvey image.now hints.items per_segment) }
{
    let mut state = State::load(alloc, image, hints)?;
    let mut cutting = Cutting::new(alloc, per_segment);
    // no more steps than this have at most so many segments
    let most_steps = u64::from(per_segment) * MOST_SEGMENTS as u64;
    for steps in 0..most_steps + 1 {
        let block = is_sha_block(state.next_instr());
        match state.step()? {
            Stepped::Went => cutting.take(block)?,
            Stepped::Ended(code) => {
                return Ok(Surveyed::Ended(Ending {
                    code,
                    public: state.public(),
                    steps,
                    lengths: cutting.lengths()?,
                }));
            }
            Stepped::Trapped(trap) => return Ok(Surveyed::Trapped(trap)),
        }
        if cutting.segments() > MOST_SEGMENTS {
            return Ok(Surveyed::TooManySegments);
        }
    }
    Ok(Surveyed::TooManySegments)
}
