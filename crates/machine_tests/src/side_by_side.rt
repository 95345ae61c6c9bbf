//! The manual's machine and the machine with records, side by side.

use crate::shown::{Shown, agree_in_pages};
use elf_image::{Image, read_image};
use rv_run::{State, Stepped};
use std::process::Abort;
use std::test::Fail;
use vm_executor::{Machine, Machined};
use vm_transpile::{Program, transpile};
use vm_vectors::elf_of;
use vm_vectors::programs::{HINT_BYTES, PROGRAMS, Stop};
use vm_word::limbs;

/// How many steps a segment has, at most.
const SEGMENT_STEPS: u32 = 7;

/// Both machines have this word of memory.
fn same_word(state: &State, shown: &Shown, pointer: u32) -> bool {
    let word = [
        state.byte(pointer),
        state.byte(pointer.wrapping_add(1)),
        state.byte(pointer.wrapping_add(2)),
        state.byte(pointer.wrapping_add(3)),
    ];
    shown.block(2, pointer).word == word
}

/// Registers, public bytes, and the memory that was accessed are the same.
fn agree<R: Abort>(rt: &R, state: &State, machine: &Machine, shown: &Shown, number: usize) {
    assert_eq!(rt; machine.pc(), state.pc(), "program {number}");
    for register in 0..32u8 {
        assert_eq!(rt;
            shown.block(1, u32::from(register) * 4).word,
            limbs(state.register(register)),
            "program {number}, x{register}"
        );
    }
    let public = state.public();
    for place in 0..16usize {
        assert_eq!(rt;
            shown.block(3, place as u32 * 4).word.as_slice(),
            &public[place * 4..place * 4 + 4],
            "program {number}, public bytes"
        );
    }
    for block in shown.blocks() {
        if block.space == 2 {
            assert!(rt; same_word(state, shown, block.pointer), "program {number}");
        }
    }
}

/// So are these words of memory, at the end of a program.
fn agree_in_memory<R: Abort>(rt: &R, state: &State, shown: &Shown, number: usize) {
    for base in [0, 0x1000, 0x1f80, (1 << 29) - 0x100] {
        for word in 0..64u32 {
            assert!(rt;
                same_word(state, shown, base + word * 4),
                "program {number}, memory"
            );
        }
    }
}

/// What one step of each machine came to: how the program stopped, if it did.
fn step_both<R: Abort>(
    rt: &R,
    state: &mut State,
    machine: &mut Machine,
    shown: &mut Shown,
    number: usize,
) -> Result<Option<Stop>, Fail> {
    assert!(rt; machine.time() <= (1 << 29) - 64);
    let stepped = state.step()?;
    match machine.step()? {
        Machined::Went(record) => {
            shown.follow(rt, &record, number)?;
            match stepped {
                Stepped::Went if shown.image.word_at(state.pc()).is_some() => {
                    agree(rt, state, machine, shown, number);
                }
                // no text stands at the next pc, or none can
                Stepped::Went => {}
                Stepped::Trapped(trap) => return Ok(Some(Stop::Traps(trap.cause))),
                Stepped::Ended(_) => panic!(rt; "program {number} ended"),
            }
        }
        Machined::Ended(code) => match stepped {
            Stepped::Ended(same) => {
                assert_eq!(rt; code, same, "program {number}");
                agree_in_memory(rt, state, shown, number);
                return Ok(Some(Stop::Ends(code)));
            }
            _ => panic!(rt; "program {number} did not end"),
        },
        Machined::Stuck => match stepped {
            // no text stands at the next pc
            Stepped::Went => assert!(rt;
                shown.image.word_at(state.pc()).is_none(),
                "program {number}"
            ),
            Stepped::Trapped(trap) => return Ok(Some(Stop::Traps(trap.cause))),
            Stepped::Ended(_) => panic!(rt; "program {number} ended"),
        },
    }
    Ok(None)
}

/// Goes by both machines until they stop, and compares them after each step, and the pages of each segment.
fn stop_of<R: Abort>(
    rt: &R,
    state: &mut State,
    machine: &mut Machine,
    shown: &mut Shown,
    number: usize,
) -> Result<Option<Stop>, Fail> {
    for _ in 0..200 {
        for _ in 0..SEGMENT_STEPS {
            if let Some(stop) = step_both(rt, state, machine, shown, number)? {
                agree_in_pages(rt, &machine.touched()?, shown, number);
                return Ok(Some(stop));
            }
        }
        agree_in_pages(rt, &machine.touched()?, shown, number);
        machine.start_segment();
        shown.begin_segment();
    }
    Ok(None)
}

#[test]
fn machines_side_by_side(rt: HostRuntime) -> Result<(), Fail> {
    let alloc = rt.alloc();
    for (number, (base, words, count, stop)) in PROGRAMS.iter().enumerate() {
        assert!(rt; !words.is_empty() && words.len() < 1 << 10 && *count <= 19);
        assert!(rt; *base % 4 == 0 && *base <= (1 << 29) - 4 * words.len() as u32);
        let image = read_image(alloc, &elf_of(alloc, *base, words)?)?;
        let program = transpile(alloc, &image)?;
        let given = &HINT_BYTES[..*count as usize];
        let mut state = State::load(alloc, &image, given.to_vec(alloc)?)?;
        let mut machine = Machine::new(alloc, &program, &image, given.to_vec(alloc)?);
        let mut shown = Shown::new(alloc, &image);
        let stopped = stop_of(&rt, &mut state, &mut machine, &mut shown, number)?;
        assert_eq!(rt; stopped, Some(*stop), "program {number}");
    }
    Ok(())
}
