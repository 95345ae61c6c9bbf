//! The manual's machine: its state, one step, and whole runs.
#![tactic(auto)]

ghost use Rattle.std.specs.Prelude.{◌≡◌, IfOk};
ghost use Rattle.rv_run.specs.Run.{IsRunEnd};

mod code;
mod hints;
mod laws;
mod memory;
mod obstacles;
mod outcome;
mod state;

use elf_image::Image;
pub use hints::Hints;
pub use laws::{run_end_is_one, run_takes_hints};
pub use outcome::{Cause, RunEnd, Stepped, Trap};
pub use state::State;
pub use std::alloc::AllocError as OutOfMemory;
use std::alloc::Global;

/// Runs a program on hint bytes, for at most `limit` steps. The terminate that ends a run is no step.
pub fn run(alloc: Global, image: &Image, hints: Vec<u8>, limit: u64) -> Result<RunEnd, OutOfMemory>
    ensures { IfOk result (IsRunEnd image.now hints.items limit) }
{
    let mut state = State::load(alloc, image, hints)?;
    for steps in 0..=limit {
        match state.step()? {
            Stepped::Went => {}
            Stepped::Ended(code) => {
                return Ok(RunEnd::Ended {
                    steps,
                    code,
                    public: state.public(),
                });
            }
            Stepped::Trapped(trap) => return Ok(RunEnd::Trapped { steps, trap }),
        }
    }
    Ok(RunEnd::StepLimit)
}
