//! One record of each kind, and the pages of two segments. The numbers were told outside, by a run of the meaning of
//! each row on blocks as it is written down, with FIPS 180-4's compression.

use elf_image::read_image;
use std::process::Abort;
use std::test::Fail;
use vm_executor::{Machine, Machined, StepRecord, Touched};
use vm_transpile::transpile;
use vm_vectors::elf_of;
use vm_word::{limbs, of_limbs};

/// An access: its space and pointer, the words before and after it, its time, and its block's time before.
type Accessed = (u8, u32, u32, u32, u32, u32);

/// A record: its opcode, its time, the next pc, and its accesses.
type Line = (u8, u32, u32, &'static [Accessed]);

/// A page: its label, and its blocks that aren't all 0, each with its word before and after and its time.
type Page = (u32, &'static [(usize, u32, u32, u32)]);

/// LUI, ADDI, ADD of one register to itself, SW, SB, LB, LW to x0, a hint store, a reveal, AUIPC, MUL, and a SHA
/// block whose state lies in its block; then BEQ that is taken, JAL, JALR, BNE that isn't, FENCE, JAL without a
/// link, and the end.
#[rattlefmt::skip]
const WORDS: [u32; 23] = [
    0x0000_22b7, 0xfff0_0313, 0x0063_0333, 0x0062_a223, 0x0052_8323, 0x0072_8383, 0x0042_a003,
    0x0080_128b, 0x0043_200b, 0x0000_1417, 0x0273_04b3, 0x0102_8513, 0x0002_8593, 0x0205_c50b,
    0x0000_0463, 0x0090_000b, 0x0080_00ef, 0x0090_000b, 0x0080_8167, 0x0000_1463, 0x0ff0_000f,
    0x0040_006f, 0x0030_000b,
];

#[rattlefmt::skip]
const FIRST_RECORDS: [Line; 14] = [
    (26, 1, 0x1004, &[
        (1, 0x0014, 0x00000000, 0x00002000, 1, 0),
    ]),
    (1, 2, 0x1008, &[
        (1, 0x0000, 0x00000000, 0x00000000, 2, 0),
        (1, 0x0018, 0x00000000, 0xffffffff, 4, 0),
    ]),
    (1, 5, 0x100c, &[
        (1, 0x0018, 0xffffffff, 0xffffffff, 5, 4),
        (1, 0x0018, 0xffffffff, 0xffffffff, 6, 5),
        (1, 0x0018, 0xffffffff, 0xfffffffe, 7, 6),
    ]),
    (18, 8, 0x1010, &[
        (1, 0x0014, 0x00002000, 0x00002000, 8, 1),
        (1, 0x0018, 0xfffffffe, 0xfffffffe, 9, 7),
        (2, 0x2004, 0x00000000, 0xfffffffe, 10, 0),
    ]),
    (16, 11, 0x1014, &[
        (1, 0x0014, 0x00002000, 0x00002000, 11, 8),
        (1, 0x0014, 0x00002000, 0x00002000, 12, 11),
        (2, 0x2004, 0xfffffffe, 0xff00fffe, 13, 10),
    ]),
    (11, 14, 0x1018, &[
        (1, 0x0014, 0x00002000, 0x00002000, 14, 12),
        (2, 0x2004, 0xff00fffe, 0xff00fffe, 15, 13),
        (1, 0x001c, 0x00000000, 0xffffffff, 16, 0),
    ]),
    (13, 17, 0x101c, &[
        (1, 0x0014, 0x00002000, 0x00002000, 17, 14),
        (2, 0x2004, 0xff00fffe, 0xff00fffe, 18, 15),
    ]),
    (37, 20, 0x1020, &[
        (1, 0x0014, 0x00002000, 0x00002000, 20, 17),
        (2, 0x2008, 0x00000000, 0x04030201, 21, 0),
    ]),
    (38, 22, 0x1024, &[
        (1, 0x0000, 0x00000000, 0x00000000, 22, 2),
        (1, 0x0018, 0xfffffffe, 0xfffffffe, 23, 9),
        (3, 0x0004, 0x00000000, 0xfffffffe, 24, 0),
    ]),
    (28, 25, 0x1028, &[
        (1, 0x0020, 0x00000000, 0x00002024, 25, 0),
    ]),
    (29, 26, 0x102c, &[
        (1, 0x0018, 0xfffffffe, 0xfffffffe, 26, 23),
        (1, 0x001c, 0xffffffff, 0xffffffff, 27, 16),
        (1, 0x0024, 0x00000000, 0x00000002, 28, 0),
    ]),
    (1, 29, 0x1030, &[
        (1, 0x0014, 0x00002000, 0x00002000, 29, 20),
        (1, 0x0028, 0x00000000, 0x00002010, 31, 0),
    ]),
    (1, 32, 0x1034, &[
        (1, 0x0014, 0x00002000, 0x00002000, 32, 29),
        (1, 0x002c, 0x00000000, 0x00002000, 34, 0),
    ]),
    (40, 35, 0x1038, &[
        (1, 0x0028, 0x00002010, 0x00002010, 35, 31),
        (1, 0x002c, 0x00002000, 0x00002000, 36, 34),
        (2, 0x2000, 0x00000000, 0x00000000, 37, 0),
        (2, 0x2004, 0xff00fffe, 0xff00fffe, 38, 18),
        (2, 0x2008, 0x04030201, 0x04030201, 39, 21),
        (2, 0x200c, 0x00000000, 0x00000000, 40, 0),
        (2, 0x2010, 0x00000000, 0x00000000, 41, 0),
        (2, 0x2014, 0x00000000, 0x00000000, 42, 0),
        (2, 0x2018, 0x00000000, 0x00000000, 43, 0),
        (2, 0x201c, 0x00000000, 0x00000000, 44, 0),
        (2, 0x2020, 0x00000000, 0x00000000, 45, 0),
        (2, 0x2024, 0x00000000, 0x00000000, 46, 0),
        (2, 0x2028, 0x00000000, 0x00000000, 47, 0),
        (2, 0x202c, 0x00000000, 0x00000000, 48, 0),
        (2, 0x2030, 0x00000000, 0x00000000, 49, 0),
        (2, 0x2034, 0x00000000, 0x00000000, 50, 0),
        (2, 0x2038, 0x00000000, 0x00000000, 51, 0),
        (2, 0x203c, 0x00000000, 0x00000000, 52, 0),
        (2, 0x2010, 0x00000000, 0x73401b2e, 53, 41),
        (2, 0x2014, 0x00000000, 0xac6a95eb, 54, 42),
        (2, 0x2018, 0x00000000, 0xcd9d1e57, 55, 43),
        (2, 0x201c, 0x00000000, 0x2a6945a5, 56, 44),
        (2, 0x2020, 0x00000000, 0x77fc6547, 57, 45),
        (2, 0x2024, 0x00000000, 0x1fadd0a2, 58, 46),
        (2, 0x2028, 0x00000000, 0x227e5343, 59, 47),
        (2, 0x202c, 0x00000000, 0x799f46ee, 60, 48),
    ]),
];

#[rattlefmt::skip]
const FIRST_PAGES: [Page; 3] = [
    (8388608, &[
        (0, 0x00000000, 0x00000000, 22),
        (5, 0x00000000, 0x00002000, 32),
        (6, 0x00000000, 0xfffffffe, 26),
        (7, 0x00000000, 0xffffffff, 27),
        (8, 0x00000000, 0x00002024, 25),
        (9, 0x00000000, 0x00000002, 28),
        (10, 0x00000000, 0x00002010, 35),
        (11, 0x00000000, 0x00002000, 36),
    ]),
    (16777344, &[
        (0, 0x00000000, 0x00000000, 37),
        (1, 0x00000000, 0xff00fffe, 38),
        (2, 0x00000000, 0x04030201, 39),
        (3, 0x00000000, 0x00000000, 40),
        (4, 0x00000000, 0x73401b2e, 53),
        (5, 0x00000000, 0xac6a95eb, 54),
        (6, 0x00000000, 0xcd9d1e57, 55),
        (7, 0x00000000, 0x2a6945a5, 56),
        (8, 0x00000000, 0x77fc6547, 57),
        (9, 0x00000000, 0x1fadd0a2, 58),
        (10, 0x00000000, 0x227e5343, 59),
        (11, 0x00000000, 0x799f46ee, 60),
        (12, 0x00000000, 0x00000000, 49),
        (13, 0x00000000, 0x00000000, 50),
        (14, 0x00000000, 0x00000000, 51),
        (15, 0x00000000, 0x00000000, 52),
    ]),
    (25165824, &[
        (1, 0x00000000, 0xfffffffe, 24),
    ]),
];

#[rattlefmt::skip]
const SECOND_RECORDS: [Line; 6] = [
    (19, 1, 0x1040, &[
        (1, 0x0000, 0x00000000, 0x00000000, 1, 0),
        (1, 0x0000, 0x00000000, 0x00000000, 2, 1),
    ]),
    (25, 3, 0x1048, &[
        (1, 0x0004, 0x00000000, 0x00001044, 3, 0),
    ]),
    (27, 4, 0x104c, &[
        (1, 0x0004, 0x00001044, 0x00001044, 4, 3),
        (1, 0x0008, 0x00000000, 0x0000104c, 5, 0),
    ]),
    (20, 6, 0x1050, &[
        (1, 0x0000, 0x00000000, 0x00000000, 6, 2),
        (1, 0x0000, 0x00000000, 0x00000000, 7, 6),
    ]),
    (39, 8, 0x1054, &[
    ]),
    (25, 9, 0x1058, &[
    ]),
];

#[rattlefmt::skip]
const SECOND_PAGES: [Page; 1] = [
    (8388608, &[
        (0, 0x00000000, 0x00000000, 7),
        (1, 0x00000000, 0x00001044, 4),
        (2, 0x00000000, 0x0000104c, 5),
        (5, 0x00002000, 0x00002000, 0),
        (6, 0xfffffffe, 0xfffffffe, 0),
        (7, 0xffffffff, 0xffffffff, 0),
        (8, 0x00002024, 0x00002024, 0),
        (9, 0x00000002, 0x00000002, 0),
        (10, 0x00002010, 0x00002010, 0),
        (11, 0x00002000, 0x00002000, 0),
    ]),
];

fn same_record<R: Abort>(rt: &R, record: &StepRecord, line: &Line) {
    assert_eq!(rt;
        (record.instr.op, record.time, record.next),
        (line.0, line.1, line.2)
    );
    assert_eq!(rt;
        record.accesses.len() as usize,
        line.3.len(),
        "at {:x}",
        record.instr.pc
    );
    for (place, wanted) in line.3.iter().enumerate() {
        let Some(made) = record.accesses.at((place % 64) as u32) else {
            panic!(rt; "no access {place}");
        };
        let access = made.access;
        let got = (
            access.space,
            access.pointer,
            of_limbs(access.old),
            of_limbs(access.new),
            made.time,
            made.before,
        );
        assert_eq!(rt; got, *wanted, "at {:x}, access {place}", record.instr.pc);
    }
}

fn same_pages<R: Abort>(rt: &R, pages: &[Touched], wanted: &[Page]) {
    assert_eq!(rt; pages.len(), wanted.len());
    for (page, (label, blocks)) in pages.iter().zip(wanted) {
        let mut same = Touched {
            label: *label,
            old: [0; 64],
            new: [0; 64],
            times: [0; 16],
        };
        for (block, old, new, time) in *blocks {
            let block = block % 16;
            for byte in 0..4usize {
                same.old[4 * block + byte] = limbs(*old)[byte];
                same.new[4 * block + byte] = limbs(*new)[byte];
            }
            same.times[block] = *time;
        }
        assert!(rt; *page == same, "page {label}");
    }
}

fn same_segment<R: Abort>(
    rt: &R,
    machine: &mut Machine,
    records: &[Line],
    pages: &[Page],
) -> Result<(), Fail> {
    for line in records {
        assert!(rt; machine.time() < 1000);
        match machine.step()? {
            Machined::Went(record) => same_record(rt, &record, line),
            other => panic!(rt; "{other:?} at {:x}", machine.pc()),
        }
    }
    same_pages(rt, &machine.touched()?, pages);
    Ok(())
}

#[test]
fn records_of_each_kind(rt: HostRuntime) -> Result<(), Fail> {
    let alloc = rt.alloc();
    let image = read_image(alloc, &elf_of(alloc, 0x1000, &WORDS)?)?;
    let program = transpile(alloc, &image)?;
    let hints = [1, 2, 3, 4, 5, 6, 7, 8].to_vec(alloc)?;
    let mut machine = Machine::new(alloc, &program, &image, hints);
    assert!(rt; machine.touched()?.is_empty());
    same_segment(&rt, &mut machine, &FIRST_RECORDS, &FIRST_PAGES)?;
    machine.start_segment();
    assert!(rt; machine.touched()?.is_empty());
    same_segment(&rt, &mut machine, &SECOND_RECORDS, &SECOND_PAGES)?;
    assert!(rt; machine.time() < 1000);
    assert!(rt; matches!(machine.step()?, Machined::Ended(3)));
    Ok(())
}
