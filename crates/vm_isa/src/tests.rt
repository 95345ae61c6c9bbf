//! The slots, the program rows and the accesses were written down by hand.

use super::opcode::*;
use super::*;
use std::process::Abort;
use std::test::Fail;

/// From one opcode to another, both included, and their slots.
const SLOTS: [(u8, u8, u32); 12] = [
    (0, 0, 0),
    (1, 18, 3),
    (19, 24, 2),
    (25, 26, 1),
    (27, 27, 2),
    (28, 28, 1),
    (29, 36, 3),
    (37, 37, 2),
    (38, 38, 3),
    (39, 39, 1),
    (40, 40, 26),
    (41, 255, 0),
];

#[test]
fn slots_of_every_opcode(rt: HostRuntime) -> Result<(), Fail> {
    for (first, last, wanted) in &SLOTS {
        for op in *first..=*last {
            assert_eq!(rt; slots(op), *wanted, "opcode {op}");
        }
    }
    Ok(())
}

#[test]
fn numbers_of_rows(rt: HostRuntime) -> Result<(), Fail> {
    // addi x5, x6, -2
    let addi = VmInstr {
        pc: 4096,
        op: ADD,
        rd: 5,
        rs1: 6,
        rs2: 0,
        write: true,
        use_imm: true,
        imm: [254, 255, 255, 255],
        target: 0,
    };
    assert_eq!(rt;
        addi.numbers(),
        [4096, 1, 5, 6, 0, 1, 1, 254, 255, 255, 255, 0]
    );
    // bgeu x1, x2, 4108
    let bgeu = VmInstr {
        pc: 4100,
        op: BGEU,
        rd: 0,
        rs1: 1,
        rs2: 2,
        write: false,
        use_imm: false,
        imm: [0; 4],
        target: 4108,
    };
    assert_eq!(rt; bgeu.numbers(), [4100, 24, 0, 1, 2, 0, 0, 0, 0, 0, 0, 4108]);
    Ok(())
}

fn write_of_register(register: u8) -> TimedAccess {
    TimedAccess {
        access: Access {
            space: 1,
            pointer: 4 * register as u32,
            old: [0; 4],
            new: [1, 2, 3, 4],
        },
        time: 2,
        before: 1,
    }
}

#[test]
fn accesses_in_order(rt: HostRuntime) -> Result<(), Fail> {
    let mut list = AccessList::new(rt.alloc());
    assert!(rt; list.is_empty());
    list.push(write_of_register(5))?;
    list.push(write_of_register(7))?;
    assert_eq!(rt; list.len(), 2);
    assert_eq!(rt; list.at(0), Some(write_of_register(5)));
    assert_eq!(rt; list.at(1).map(|a| a.access.pointer), Some(28));
    assert_eq!(rt; list.at(2), None);
    Ok(())
}

fn row(op: u8, write: bool, use_imm: bool, imm: [u8; 4]) -> VmInstr {
    VmInstr {
        pc: 4096,
        op,
        rd: 5,
        rs1: 6,
        rs2: 7,
        write,
        use_imm,
        imm,
        target: 8192,
    }
}

fn at(slot: u32, space: u8, pointer: u32) -> NextAccess {
    NextAccess::At {
        slot,
        space,
        pointer,
    }
}

const NONE: [u8; 4] = [0; 4];

const MINUS_TWO: [u8; 4] = [254, 255, 255, 255];
/// 2^29.
const HIGH: [u8; 4] = [0, 0, 0, 32];

/// A program row, the old words of its first accesses, and what follows them.
type Line<'a> = (VmInstr, &'a [[u8; 4]], NextAccess);

fn follow<R: Abort>(rt: &R, table: &[Line]) {
    for (instr, old, wanted) in table {
        assert_eq!(rt; next_access(instr, old), *wanted, "opcode {}", instr.op);
    }
}

#[test]
fn accesses_of_operations_and_jumps(rt: HostRuntime) -> Result<(), Fail> {
    let done = NextAccess::Done;
    let add = row(ADD, true, false, NONE);
    let nop = row(NOP, false, false, NONE);
    let jalr = row(JALR, true, false, NONE);
    let terminate = row(TERMINATE, false, false, NONE);
    follow(
        &rt,
        &[
            (add, &[], at(0, 1, 24)),
            (add, &[NONE], at(1, 1, 28)),
            (row(ADD, true, true, NONE), &[NONE], at(2, 1, 20)),
            (row(REMU, true, false, NONE), &[NONE, NONE, NONE], done),
            (row(BEQ, false, false, NONE), &[NONE], at(1, 1, 28)),
            (row(JAL, true, false, NONE), &[], at(0, 1, 20)),
            (row(JAL, false, false, NONE), &[], done),
            (row(AUIPC, true, false, NONE), &[NONE], done),
            (jalr, &[[3, 0, 0, 0]], at(1, 1, 20)),
            (jalr, &[HIGH], NextAccess::NoMeaning),
            (nop, &[], done),
            (nop, &[NONE], NextAccess::NoMeaning),
            (terminate, &[], NextAccess::NoMeaning),
        ],
    );
    Ok(())
}

#[test]
fn accesses_of_memory(rt: HostRuntime) -> Result<(), Fail> {
    let no = NextAccess::NoMeaning;
    let lw = row(LW, false, false, NONE);
    let lb = row(LB, true, false, MINUS_TWO);
    let sb = row(SB, false, false, MINUS_TWO);
    let reveal = row(REVEAL, false, false, NONE);
    follow(
        &rt,
        &[
            // 8193 - 2 is in the block at 8188
            (lb, &[[1, 32, 0, 0]], at(1, 2, 8188)),
            (row(LH, true, false, NONE), &[[1, 32, 0, 0]], no),
            (lw, &[[0, 32, 0, 0]], at(1, 2, 8192)),
            (lw, &[NONE, NONE], NextAccess::Done),
            (row(LBU, true, false, NONE), &[HIGH], no),
            (sb, &[[1, 32, 0, 0], NONE], at(2, 2, 8188)),
            (row(SW, false, false, NONE), &[[2, 0, 0, 0]], no),
            (row(HINT, false, false, NONE), &[[4, 0, 0, 0]], at(1, 2, 4)),
            (reveal, &[[64, 0, 0, 0], NONE], at(2, 3, 64)),
        ],
    );
    Ok(())
}

// The block's words come first, then the state's; neither has to be aligned.
#[test]
fn accesses_of_sha_blocks(rt: HostRuntime) -> Result<(), Fail> {
    let no = NextAccess::NoMeaning;
    let sha = row(SHA, false, false, NONE);
    let mut words = [[1, 0, 0, 0]; 26];
    follow(
        &rt,
        &[
            (sha, &[[1, 0, 0, 0], [2, 0, 0, 0], NONE], at(3, 2, 6)),
            (sha, &[[1, 0, 0, 0], HIGH], no),
            (sha, &words[..18], at(18, 2, 1)),
            (sha, &words[..25], at(25, 2, 29)),
            (sha, &words, NextAccess::Done),
        ],
    );
    words[0] = HIGH;
    assert_eq!(rt; next_access(&sha, &words), no);
    Ok(())
}

/// The new word of access `number` of a whole instruction is this, and so is the next pc. The host gives 5, 6, 7, 8.
fn leaves<R: Abort>(rt: &R, instr: VmInstr, old: &[[u8; 4]], number: u32, left: ([u8; 4], u32)) {
    let (word, pc) = left;
    assert!(rt; (number as usize) < old.len());
    match next_access(&instr, old) {
        NextAccess::Done => {
            let new = new_word(&instr, old, number, [5, 6, 7, 8]);
            assert_eq!(rt; new, word, "opcode {}", instr.op);
            assert_eq!(rt; next_pc(&instr, old), pc, "opcode {}", instr.op);
        }
        _ => assert!(rt; false, "opcode {}", instr.op),
    }
}

#[test]
fn words_and_pcs_of_forms(rt: HostRuntime) -> Result<(), Fail> {
    let one = [1, 0, 0, 0];
    let link = [4, 16, 0, 0];
    let addi = row(ADD, true, true, MINUS_TWO);
    leaves(&rt, addi, &[one, NONE], 1, ([255; 4], 4100));
    // the byte at 8191 is the last of its block
    let loaded = [[1, 32, 0, 0], [1, 2, 3, 128], NONE];
    let lb = row(LB, true, false, MINUS_TWO);
    leaves(&rt, lb, &loaded, 2, ([128, 255, 255, 255], 4100));
    let stored = [[2, 32, 0, 0], [9, 8, 7, 6], [1, 2, 3, 4]];
    let sh = row(SH, false, false, NONE);
    leaves(&rt, sh, &stored, 2, ([1, 2, 9, 8], 4100));
    let bltu = row(BLTU, false, false, NONE);
    leaves(&rt, bltu, &[one, [2, 0, 0, 0]], 0, (one, 8192));
    let jal = row(JAL, true, false, NONE);
    leaves(&rt, jal, &[NONE], 0, (link, 8192));
    let jalr = row(JALR, true, false, NONE);
    leaves(&rt, jalr, &[[3, 0, 0, 0], NONE], 1, (link, 2));
    let hint = row(HINT, false, false, NONE);
    leaves(&rt, hint, &[NONE, NONE], 1, ([5, 6, 7, 8], 4100));
    let reveal = row(REVEAL, false, false, NONE);
    let shown = [1, 2, 3, 4];
    leaves(&rt, reveal, &[NONE, shown, NONE], 2, (shown, 4100));
    Ok(())
}
