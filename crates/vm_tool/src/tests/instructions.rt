// Each instruction at its edges. The expected words were computed outside, from the manual.
use super::elf_of;
use elf_image::read_image;
use rv_run::{RunEnd, run};
use std::alloc::{AllocError, Global};
use std::process::Abort;
use std::test::Fail;

const TERMINATE: u32 = 0x0000_000B;

// reveal x7 at 0(x0)
const REVEAL_X7: u32 = 0x0003_A00B;

// LUI x5 and ADDI x5, x5, which leave this word in x5
fn set_x5(word: u32) -> [u32; 2] {
    let high = word.wrapping_add(0x800) & 0xFFFF_F000;
    [high | 0x2B7, (word & 0xFFF) << 20 | 0x2_8293]
}

// the same for x6
fn set_x6(word: u32) -> [u32; 2] {
    let high = word.wrapping_add(0x800) & 0xFFFF_F000;
    [high | 0x337, (word & 0xFFF) << 20 | 0x3_0313]
}

// A program that puts words into x5 and x6, goes through the body, and makes x7 public.
fn program(alloc: Global, x5: u32, x6: u32, body: &[u32]) -> Result<Vec<u32>, AllocError> {
    let mut words = Vec::new(alloc);
    words.extend_from_slice(&set_x5(x5))?;
    words.extend_from_slice(&set_x6(x6))?;
    words.extend_from_slice(body)?;
    words.extend_from_slice(&[REVEAL_X7, TERMINATE])?;
    Ok(words)
}

// The first public word of such a program is this one.
fn shows<R: Abort + AllocGlobal>(
    rt: &R,
    x5: u32,
    x6: u32,
    body: &[u32],
    expected: u32,
) -> Result<(), Fail> {
    let alloc = rt.alloc();
    let file = elf_of(alloc, &program(alloc, x5, x6, body)?)?;
    let image = read_image(alloc, &file)?;
    let end = run(alloc, &image, Vec::new(alloc), 100)?;
    let shown = match end {
        RunEnd::Ended { public, .. } => {
            Some(u32::from_le_bytes([public[0], public[1], public[2], public[3]]))
        }
        _ => None,
    };
    assert_eq!(rt; shown, Some(expected), "{x5:08x} {x6:08x} {body:?}");
    Ok(())
}

// the instruction with rd x7, rs1 x5 and rs2 x6; what is in x5 and x6; what x7 gets
const OPERATIONS: [(u32, u32, u32, u32); 61] = [
    // ADD
    (0x0062_83B3, 0xFFFF_FFFF, 0x0000_0001, 0x0000_0000),
    (0x0062_83B3, 0x7FFF_FFFF, 0x0000_0001, 0x8000_0000),
    // SUB
    (0x4062_83B3, 0x0000_0000, 0x0000_0001, 0xFFFF_FFFF),
    (0x4062_83B3, 0x0000_0005, 0x0000_0007, 0xFFFF_FFFE),
    (0x4062_83B3, 0x0000_0007, 0x0000_0005, 0x0000_0002),
    // SLL
    (0x0062_93B3, 0x8000_0001, 0x0000_0000, 0x8000_0001),
    (0x0062_93B3, 0x0000_0003, 0x0000_001F, 0x8000_0000),
    (0x0062_93B3, 0x0000_0003, 0x0000_0020, 0x0000_0003),
    (0x0062_93B3, 0x0000_0003, 0x0000_003F, 0x8000_0000),
    // SLT
    (0x0062_A3B3, 0x8000_0000, 0x7FFF_FFFF, 0x0000_0001),
    (0x0062_A3B3, 0x7FFF_FFFF, 0x8000_0000, 0x0000_0000),
    (0x0062_A3B3, 0xFFFF_FFFF, 0x0000_0000, 0x0000_0001),
    (0x0062_A3B3, 0x0000_0005, 0x0000_0005, 0x0000_0000),
    // SLTU
    (0x0062_B3B3, 0x8000_0000, 0x7FFF_FFFF, 0x0000_0000),
    (0x0062_B3B3, 0x7FFF_FFFF, 0x8000_0000, 0x0000_0001),
    (0x0062_B3B3, 0x0000_0000, 0xFFFF_FFFF, 0x0000_0001),
    (0x0062_B3B3, 0x0000_0005, 0x0000_0005, 0x0000_0000),
    // XOR
    (0x0062_C3B3, 0xFF00_FF00, 0x0FF0_0FF0, 0xF0F0_F0F0),
    // SRL
    (0x0062_D3B3, 0x8000_0000, 0x0000_001F, 0x0000_0001),
    (0x0062_D3B3, 0x8000_0000, 0x0000_0000, 0x8000_0000),
    (0x0062_D3B3, 0x8000_0000, 0x0000_0020, 0x8000_0000),
    (0x0062_D3B3, 0xF000_0000, 0x0000_0004, 0x0F00_0000),
    // SRA
    (0x4062_D3B3, 0x8000_0000, 0x0000_001F, 0xFFFF_FFFF),
    (0x4062_D3B3, 0x8000_0000, 0x0000_0000, 0x8000_0000),
    (0x4062_D3B3, 0x8000_0000, 0x0000_0021, 0xC000_0000),
    (0x4062_D3B3, 0x7FFF_FFFF, 0x0000_001F, 0x0000_0000),
    (0x4062_D3B3, 0xF000_0000, 0x0000_0004, 0xFF00_0000),
    // OR
    (0x0062_E3B3, 0xFF00_FF00, 0x0FF0_0FF0, 0xFFF0_FFF0),
    // AND
    (0x0062_F3B3, 0xFF00_FF00, 0x0FF0_0FF0, 0x0F00_0F00),
    // MUL
    (0x0262_83B3, 0xFFFF_FFFF, 0xFFFF_FFFF, 0x0000_0001),
    (0x0262_83B3, 0x0001_0000, 0x0001_0000, 0x0000_0000),
    (0x0262_83B3, 0x1234_5678, 0x9ABC_DEF0, 0x242D_2080),
    // MULH
    (0x0262_93B3, 0xFFFF_FFFF, 0xFFFF_FFFF, 0x0000_0000),
    (0x0262_93B3, 0x8000_0000, 0x8000_0000, 0x4000_0000),
    (0x0262_93B3, 0x7FFF_FFFF, 0x8000_0000, 0xC000_0000),
    (0x0262_93B3, 0x8000_0000, 0x7FFF_FFFF, 0xC000_0000),
    (0x0262_93B3, 0x7FFF_FFFF, 0x7FFF_FFFF, 0x3FFF_FFFF),
    // MULHSU
    (0x0262_A3B3, 0xFFFF_FFFF, 0xFFFF_FFFF, 0xFFFF_FFFF),
    (0x0262_A3B3, 0x8000_0000, 0xFFFF_FFFF, 0x8000_0000),
    (0x0262_A3B3, 0x7FFF_FFFF, 0xFFFF_FFFF, 0x7FFF_FFFE),
    (0x0262_A3B3, 0x0000_0001, 0x8000_0000, 0x0000_0000),
    // MULHU
    (0x0262_B3B3, 0xFFFF_FFFF, 0xFFFF_FFFF, 0xFFFF_FFFE),
    (0x0262_B3B3, 0x8000_0000, 0x0000_0002, 0x0000_0001),
    // DIV
    (0x0262_C3B3, 0x8000_0000, 0xFFFF_FFFF, 0x8000_0000),
    (0x0262_C3B3, 0x0000_0007, 0x0000_0000, 0xFFFF_FFFF),
    (0x0262_C3B3, 0xFFFF_FFF9, 0x0000_0002, 0xFFFF_FFFD),
    (0x0262_C3B3, 0x0000_0007, 0xFFFF_FFFE, 0xFFFF_FFFD),
    (0x0262_C3B3, 0xFFFF_FFF9, 0xFFFF_FFFE, 0x0000_0003),
    (0x0262_C3B3, 0x8000_0000, 0x0000_0001, 0x8000_0000),
    // DIVU
    (0x0262_D3B3, 0x8000_0000, 0xFFFF_FFFF, 0x0000_0000),
    (0x0262_D3B3, 0x0000_0007, 0x0000_0000, 0xFFFF_FFFF),
    (0x0262_D3B3, 0xFFFF_FFFF, 0x0000_0002, 0x7FFF_FFFF),
    // REM
    (0x0262_E3B3, 0x8000_0000, 0xFFFF_FFFF, 0x0000_0000),
    (0x0262_E3B3, 0x0000_0007, 0x0000_0000, 0x0000_0007),
    (0x0262_E3B3, 0xFFFF_FFF9, 0x0000_0000, 0xFFFF_FFF9),
    (0x0262_E3B3, 0xFFFF_FFF9, 0x0000_0002, 0xFFFF_FFFF),
    (0x0262_E3B3, 0x0000_0007, 0xFFFF_FFFE, 0x0000_0001),
    (0x0262_E3B3, 0xFFFF_FFF9, 0xFFFF_FFFE, 0xFFFF_FFFF),
    // REMU
    (0x0262_F3B3, 0x8000_0000, 0xFFFF_FFFF, 0x8000_0000),
    (0x0262_F3B3, 0x0000_0007, 0x0000_0000, 0x0000_0007),
    (0x0262_F3B3, 0xFFFF_FFFF, 0x0000_0010, 0x0000_000F),
];

#[test]
fn operations(rt: HostRuntime) -> Result<(), Fail> {
    for (word, x5, x6, expected) in OPERATIONS {
        shows(&rt, x5, x6, &[word], expected)?;
    }
    Ok(())
}

#[test]
fn immediates(rt: HostRuntime) -> Result<(), Fail> {
    let rows = [
        // ADDI
        (0xFFF2_8393, 0x0000_0000, 0, 0xFFFF_FFFF),
        // SLTI
        (0xFFF2_A393, 0xFFFF_FFFE, 0, 0x0000_0001),
        // SLTI
        (0xFFF2_A393, 0x0000_0005, 0, 0x0000_0000),
        // SLTIU
        (0xFFF2_B393, 0x0000_0005, 0, 0x0000_0001),
        // SLTIU
        (0xFFF2_B393, 0xFFFF_FFFF, 0, 0x0000_0000),
        // XORI
        (0xFFF2_C393, 0x1234_5678, 0, 0xEDCB_A987),
        // ORI
        (0x8002_E393, 0x0000_0001, 0, 0xFFFF_F801),
        // ANDI
        (0xFF02_F393, 0x1234_56FF, 0, 0x1234_56F0),
        // SLLI
        (0x01F2_9393, 0x0000_0003, 0, 0x8000_0000),
        // SRLI
        (0x01F2_D393, 0x8000_0000, 0, 0x0000_0001),
        // SRAI
        (0x41F2_D393, 0x8000_0000, 0, 0xFFFF_FFFF),
    ];
    for (word, x5, x6, expected) in rows {
        shows(&rt, x5, x6, &[word], expected)?;
    }
    Ok(())
}

#[test]
fn branches(rt: HostRuntime) -> Result<(), Fail> {
    // a branch over ADDI x7, x0, 1; x7 tells whether it was not taken
    let rows = [
        (0x0062_8463, 0x0000_0005, 0x0000_0005, 0),
        (0x0062_8463, 0x8000_0000, 0x7FFF_FFFF, 1),
        (0x0062_8463, 0x7FFF_FFFF, 0x8000_0000, 1),
        (0x0062_9463, 0x0000_0005, 0x0000_0005, 1),
        (0x0062_9463, 0x8000_0000, 0x7FFF_FFFF, 0),
        (0x0062_9463, 0x7FFF_FFFF, 0x8000_0000, 0),
        (0x0062_C463, 0x0000_0005, 0x0000_0005, 1),
        (0x0062_C463, 0x8000_0000, 0x7FFF_FFFF, 0),
        (0x0062_C463, 0x7FFF_FFFF, 0x8000_0000, 1),
        (0x0062_D463, 0x0000_0005, 0x0000_0005, 0),
        (0x0062_D463, 0x8000_0000, 0x7FFF_FFFF, 1),
        (0x0062_D463, 0x7FFF_FFFF, 0x8000_0000, 0),
        (0x0062_E463, 0x0000_0005, 0x0000_0005, 1),
        (0x0062_E463, 0x8000_0000, 0x7FFF_FFFF, 1),
        (0x0062_E463, 0x7FFF_FFFF, 0x8000_0000, 0),
        (0x0062_F463, 0x0000_0005, 0x0000_0005, 0),
        (0x0062_F463, 0x8000_0000, 0x7FFF_FFFF, 0),
        (0x0062_F463, 0x7FFF_FFFF, 0x8000_0000, 1),
    ];
    for (word, x5, x6, expected) in rows {
        shows(&rt, x5, x6, &[word, 0x0010_0393], expected)?;
    }
    Ok(())
}

#[test]
fn loads(rt: HostRuntime) -> Result<(), Fail> {
    // x6 is stored at 0x2000, and a load from there goes to x7
    let rows = [
        (0x0002_8383, 0x80FF_7F01, 0x0000_0001),
        (0x0012_8383, 0x80FF_7F01, 0x0000_007F),
        (0x0022_8383, 0x80FF_7F01, 0xFFFF_FFFF),
        (0x0032_8383, 0x80FF_7F01, 0xFFFF_FF80),
        (0x0012_C383, 0x80FF_7F01, 0x0000_007F),
        (0x0032_C383, 0x80FF_7F01, 0x0000_0080),
        (0x0002_9383, 0x80FF_7F01, 0x0000_7F01),
        (0x0022_9383, 0x80FF_7F01, 0xFFFF_80FF),
        (0x0002_D383, 0x80FF_7F01, 0x0000_7F01),
        (0x0022_D383, 0x80FF_7F01, 0x0000_80FF),
        (0x0002_A383, 0x80FF_7F01, 0x80FF_7F01),
        (0x0002_8383, 0x7FFF_8000, 0x0000_0000),
        (0x0012_8383, 0x7FFF_8000, 0xFFFF_FF80),
        (0x0022_8383, 0x7FFF_8000, 0xFFFF_FFFF),
        (0x0032_8383, 0x7FFF_8000, 0x0000_007F),
        (0x0012_C383, 0x7FFF_8000, 0x0000_0080),
        (0x0032_C383, 0x7FFF_8000, 0x0000_007F),
        (0x0002_9383, 0x7FFF_8000, 0xFFFF_8000),
        (0x0022_9383, 0x7FFF_8000, 0x0000_7FFF),
        (0x0002_D383, 0x7FFF_8000, 0x0000_8000),
        (0x0022_D383, 0x7FFF_8000, 0x0000_7FFF),
        (0x0002_A383, 0x7FFF_8000, 0x7FFF_8000),
    ];
    for (word, x6, expected) in rows {
        shows(&rt, 0x2000, x6, &[0x0062_A023, word], expected)?;
    }
    Ok(())
}

#[test]
fn stores(rt: HostRuntime) -> Result<(), Fail> {
    // x6 is stored at 0x2000 or after, where zeros stand, and LW takes the word from there to x7
    let rows = [
        (0x0062_8023, 0x8899_AABB, 0x0000_00BB),
        (0x0062_80A3, 0x8899_AABB, 0x0000_BB00),
        (0x0062_8123, 0x8899_AABB, 0x00BB_0000),
        (0x0062_81A3, 0x8899_AABB, 0xBB00_0000),
        (0x0062_9023, 0x8899_AABB, 0x0000_AABB),
        (0x0062_9123, 0x8899_AABB, 0xAABB_0000),
        (0x0062_A023, 0x8899_AABB, 0x8899_AABB),
    ];
    for (word, x6, expected) in rows {
        shows(&rt, 0x2000, x6, &[word, 0x0002_A383], expected)?;
    }
    Ok(())
}

#[test]
fn jumps_and_registers(rt: HostRuntime) -> Result<(), Fail> {
    let rows: [(u32, u32, &[u32], u32); 6] = [
        // JALR x5, 1(x5): bit 0 is cleared, and the link goes over the base; ADDI x7, x5, 0
        (0x1013, 0, &[0x0012_82E7, 0x0002_8393], 0x1014),
        // JAL x7, 8 over a word that doesn't decode
        (0, 0, &[0x0080_03EF, 0], 0x1014),
        // AUIPC x7, 1
        (0, 0, &[0x0000_1397], 0x2010),
        // LUI, AUIPC, JAL 4, ADDI, ADD, MUL and LW with rd x0; ADDI x7, x0, 0
        (
            0x2000,
            7,
            &[
                0xFFFF_F037,
                0xFFFF_F017,
                0x0040_006F,
                0x0012_8013,
                0x0062_8033,
                0x0262_8033,
                0x0002_A003,
                0x0000_0393,
            ],
            0,
        ),
        // a FENCE with every field set
        (3, 4, &[0xFFFF_8F8F, 0x0062_83B3], 7),
        // SW x6, 0(x5) over the next instruction, ADDI x7, x0, 5, which runs as it was loaded
        (0x1014, 0, &[0x0062_A023, 0x0050_0393], 5),
    ];
    for (x5, x6, body, expected) in rows {
        shows(&rt, x5, x6, body, expected)?;
    }
    Ok(())
}

#[test]
fn sha_blocks(rt: HostRuntime) -> Result<(), Fail> {
    // ADDI x7, x0, 1; SW x7 at 0x2000, where zeros stand; SHA block; LW x7 from the state
    let rows: [(u32, u32, &[u32], u32); 3] = [
        // the state in x5 and the block in x6, at one address
        (
            0x2000,
            0x2000,
            &[0x0010_0393, 0x0072_A023, 0x0203_428B, 0x0002_A383],
            0xD5F6_EE98,
        ),
        // the state 16 bytes behind the block
        (
            0x2010,
            0x2000,
            &[0x0010_0393, 0x0073_2023, 0x0203_428B, 0x0002_A383],
            0xA274_D404,
        ),
        // the block 16 bytes behind the state
        (
            0x2000,
            0x2010,
            &[0x0010_0393, 0x0072_A023, 0x0203_428B, 0x0002_A383],
            0xD50F_11DB,
        ),
    ];
    for (x5, x6, body, expected) in rows {
        shows(&rt, x5, x6, body, expected)?;
    }
    Ok(())
}
