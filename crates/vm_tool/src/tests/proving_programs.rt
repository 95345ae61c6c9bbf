// Each program of a list that ends is proved and checked, beside what the manual's machine does with it.
use super::proving::proves;
use super::{host_of, words_of};
use crate::answer::Status;
use crate::tool::openvm;
use elf_image::read_image;
use rv_run::{State, Stepped};
use std::alloc::Global;
use std::process::Abort;
use std::test::Fail;
use vm_vectors::elf_of;
use vm_vectors::programs::{HINT_BYTES, PROGRAMS, Program};

// What a run that ends comes to.
#[derive(Clone, Copy)]
struct PlainRun {
    code: u8,
    public: [u8; 64],
    steps: u32,
    /// How many hint bytes it takes.
    taken: usize,
}

// The run by the manual's machine, where it ends.
fn plain_run(alloc: Global, elf: &[u8], hints: &[u8]) -> Result<Option<PlainRun>, Fail> {
    let image = read_image(alloc, elf)?;
    let mut state = State::load(alloc, &image, hints.to_vec(alloc)?)?;
    for steps in 0..1000u32 {
        match state.step()? {
            Stepped::Went => {}
            Stepped::Ended(code) => {
                return Ok(Some(PlainRun {
                    code,
                    public: state.public(),
                    steps,
                    taken: hints.len().saturating_sub(state.hints_left().len()),
                }));
            }
            Stepped::Trapped(_) => return Ok(None),
        }
    }
    Err(Fail::new("a program that goes on"))
}

// `prove` says the line that `run` says, and creates no output: one call more of its host would fail.
fn program_traps<R: Abort + AllocGlobal>(
    rt: &R,
    elf: &[u8],
    hints: &[u8],
    per_segment: u32,
) -> Result<(), Fail> {
    let alloc = rt.alloc();
    let words = format!(in alloc; "prove elf second out {per_segment}")?;
    let mut plain = host_of(alloc, elf, hints, &[])?;
    let trapped = openvm(alloc, &words_of(alloc, "run elf second 1000")?, &mut plain);
    assert_eq!(rt; trapped, Status::Trapped, "{words}");
    // both files are opened, read, and found to end, and the line is said
    let behind = if hints.is_empty() { 6 } else { 7 };
    let mut host = host_of(alloc, elf, hints, &[behind])?;
    let answered = openvm(alloc, &words_of(alloc, &words)?, &mut host);
    assert_eq!(rt; answered, Status::Trapped, "{words}");
    assert_eq!(rt; host.said(), plain.said(), "{words}");
    assert!(rt; host.into_written().is_empty(), "{words}");
    Ok(())
}

// A program is proved in segments of so many steps where it ends, and else it traps.
fn program_is_proved<R: Abort + AllocGlobal>(
    rt: &R,
    program: &Program,
    per_segment: u32,
) -> Result<(), Fail> {
    let alloc = rt.alloc();
    let (base, words, count, _) = *program;
    assert!(rt; !words.is_empty() && words.len() < 1 << 10 && count <= 19);
    assert!(rt; per_segment > 0);
    assert!(rt; base % 4 == 0 && base <= (1 << 29) - 4 * words.len() as u32);
    let elf = elf_of(alloc, base, words)?;
    let hints = &HINT_BYTES[..count as usize];
    let Some(run) = plain_run(alloc, &elf, hints)? else {
        return program_traps(rt, &elf, hints, per_segment);
    };
    let digits = hex::encode(alloc, run.public.as_slice())?;
    let segments = run.steps.div_ceil(per_segment).max(1);
    let stated = (
        run.code,
        digits.as_str(),
        segments,
        u64::from(run.steps),
        run.taken,
    );
    proves(rt, &elf, hints, per_segment, stated)?;
    Ok(())
}

#[test]
fn programs_are_proved(rt: HostRuntime) -> Result<(), Fail> {
    for program in PROGRAMS {
        for per_segment in [1, 3, 16_384] {
            program_is_proved(&rt, &program, per_segment)?;
        }
    }
    Ok(())
}
