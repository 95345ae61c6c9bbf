//! Two texts with their rows, put down by hand by the layout of instruction words.
ghost use Rattle.std.specs.Prelude.{◌<◌, ◌^◌, length};

use super::*;
use elf_image::{Image, ImageError, read_image};
use std::alloc::Global;
use std::test::Fail;

/// A word, and the numbers of its row.
type Line = (u32, Option<[u32; 12]>);

/// The text at 0x1000.
#[rattlefmt::skip]
const TEXT: [Line; 79] = [
    // addi x5, x0, 7; reveal 0(x0), x5; terminate 0
    (0x0070_0293, Some([0x1000, 1, 5, 0, 0, 1, 1, 7, 0, 0, 0, 0])),
    (0x0002_a00b, Some([0x1004, 38, 0, 5, 0, 0, 0, 0, 0, 0, 0, 0])),
    (0x0000_000b, Some([0x1008, 41, 0, 0, 0, 0, 0, 0, 0, 0, 0, 0])),
    // add, sub, xor, or, and
    (0x0031_00b3, Some([0x100c, 1, 1, 2, 3, 1, 0, 0, 0, 0, 0, 0])),
    (0x41df_0fb3, Some([0x1010, 2, 31, 30, 29, 1, 0, 0, 0, 0, 0, 0])),
    (0x0062_c233, Some([0x1014, 3, 4, 5, 6, 1, 0, 0, 0, 0, 0, 0])),
    (0x0094_63b3, Some([0x1018, 4, 7, 8, 9, 1, 0, 0, 0, 0, 0, 0])),
    (0x0005_f533, Some([0x101c, 5, 10, 11, 0, 1, 0, 0, 0, 0, 0, 0])),
    // slt, sltu, sll, srl, sra
    (0x00e6_a633, Some([0x1020, 6, 12, 13, 14, 1, 0, 0, 0, 0, 0, 0])),
    (0x0118_37b3, Some([0x1024, 7, 15, 16, 17, 1, 0, 0, 0, 0, 0, 0])),
    (0x0149_9933, Some([0x1028, 8, 18, 19, 20, 1, 0, 0, 0, 0, 0, 0])),
    (0x017b_5ab3, Some([0x102c, 9, 21, 22, 23, 1, 0, 0, 0, 0, 0, 0])),
    (0x41ac_dc33, Some([0x1030, 10, 24, 25, 26, 1, 0, 0, 0, 0, 0, 0])),
    // add, sub and sra to x0
    (0x0020_8033, Some([0x1034, 39, 0, 0, 0, 0, 0, 0, 0, 0, 0, 0])),
    (0x4020_8033, Some([0x1038, 39, 0, 0, 0, 0, 0, 0, 0, 0, 0, 0])),
    (0x41ff_d033, Some([0x103c, 39, 0, 0, 0, 0, 0, 0, 0, 0, 0, 0])),
    // addi with -1, slti with -2048, sltiu with 2047, xori with -256, ori with 0x123, andi with 0
    (0xfff1_0093, Some([0x1040, 1, 1, 2, 0, 1, 1, 255, 255, 255, 255, 0])),
    (0x8002_2193, Some([0x1044, 6, 3, 4, 0, 1, 1, 0, 248, 255, 255, 0])),
    (0x7ff3_3293, Some([0x1048, 7, 5, 6, 0, 1, 1, 255, 7, 0, 0, 0])),
    (0xf004_4393, Some([0x104c, 3, 7, 8, 0, 1, 1, 0, 255, 255, 255, 0])),
    (0x1235_6493, Some([0x1050, 4, 9, 10, 0, 1, 1, 35, 1, 0, 0, 0])),
    (0x0006_7593, Some([0x1054, 5, 11, 12, 0, 1, 1, 0, 0, 0, 0, 0])),
    // slli by 31, srli by 1, srai by 17
    (0x01f7_1693, Some([0x1058, 8, 13, 14, 0, 1, 1, 31, 0, 0, 0, 0])),
    (0x0018_5793, Some([0x105c, 9, 15, 16, 0, 1, 1, 1, 0, 0, 0, 0])),
    (0x4119_5893, Some([0x1060, 10, 17, 18, 0, 1, 1, 17, 0, 0, 0, 0])),
    // addi x0, x0, 0; addi x0, x1, -1; srai x0, x1, 3
    (0x0000_0013, Some([0x1064, 39, 0, 0, 0, 0, 0, 0, 0, 0, 0, 0])),
    (0xfff0_8013, Some([0x1068, 39, 0, 0, 0, 0, 0, 0, 0, 0, 0, 0])),
    (0x4030_d013, Some([0x106c, 39, 0, 0, 0, 0, 0, 0, 0, 0, 0, 0])),
    // lui and auipc, and to x0
    (0x1234_50b7, Some([0x1070, 26, 1, 0, 0, 1, 0, 0, 80, 52, 18, 0])),
    (0xffff_ffb7, Some([0x1074, 26, 31, 0, 0, 1, 0, 0, 240, 255, 255, 0])),
    (0x8000_1117, Some([0x1078, 28, 2, 0, 0, 1, 0, 0, 16, 0, 128, 0])),
    (0x1234_5037, Some([0x107c, 39, 0, 0, 0, 0, 0, 0, 0, 0, 0, 0])),
    (0x0000_1017, Some([0x1080, 39, 0, 0, 0, 0, 0, 0, 0, 0, 0, 0])),
    // lb, lh, lw, lbu, lhu
    (0xfff1_0083, Some([0x1084, 11, 1, 2, 0, 1, 0, 255, 255, 255, 255, 0])),
    (0x0022_1183, Some([0x1088, 12, 3, 4, 0, 1, 0, 2, 0, 0, 0, 0])),
    (0x7ff3_2283, Some([0x108c, 13, 5, 6, 0, 1, 0, 255, 7, 0, 0, 0])),
    (0x8004_4383, Some([0x1090, 14, 7, 8, 0, 1, 0, 0, 248, 255, 255, 0])),
    (0x0000_5483, Some([0x1094, 15, 9, 0, 0, 1, 0, 0, 0, 0, 0, 0])),
    // lw x0, 0(x0); lb x0, -1(x31)
    (0x0000_2003, Some([0x1098, 13, 0, 0, 0, 0, 0, 0, 0, 0, 0, 0])),
    (0xffff_8003, Some([0x109c, 11, 0, 31, 0, 0, 0, 255, 255, 255, 255, 0])),
    // sb, sh, sw
    (0xfe20_8fa3, Some([0x10a0, 16, 0, 1, 2, 0, 0, 255, 255, 255, 255, 0])),
    (0x7fff_1f23, Some([0x10a4, 17, 0, 30, 31, 0, 0, 254, 7, 0, 0, 0])),
    (0x8002_a023, Some([0x10a8, 18, 0, 5, 0, 0, 0, 0, 248, 255, 255, 0])),
    // beq and bne on, blt and bltu back, bge to itself, bgeu back
    (0x0020_8463, Some([0x10ac, 19, 0, 1, 2, 0, 0, 0, 0, 0, 0, 0x10b4])),
    (0x7e41_9fe3, Some([0x10b0, 20, 0, 3, 4, 0, 0, 0, 0, 0, 0, 0x20ae])),
    (0xfe62_cee3, Some([0x10b4, 21, 0, 5, 6, 0, 0, 0, 0, 0, 0, 0x10b0])),
    (0x8083_e063, Some([0x10b8, 22, 0, 7, 8, 0, 0, 0, 0, 0, 0, 0xb8])),
    (0x00a4_d063, Some([0x10bc, 23, 0, 9, 10, 0, 0, 0, 0, 0, 0, 0x10bc])),
    (0xfec5_ff63, Some([0x10c0, 24, 0, 11, 12, 0, 0, 0, 0, 0, 0, 0x8be])),
    // jal on, back to 0, and back below 0
    (0x3441_20ef, Some([0x10c4, 25, 1, 0, 0, 1, 0, 0, 0, 0, 0, 0x0001_3408])),
    (0xf39f_e16f, Some([0x10c8, 25, 2, 0, 0, 1, 0, 0, 0, 0, 0, 0])),
    (0xf31f_e1ef, Some([0x10cc, 25, 3, 0, 0, 1, 0, 0, 0, 0, 0, 1])),
    // jal to x0 on, and the farthest back
    (0x0020_006f, Some([0x10d0, 25, 0, 0, 0, 0, 0, 0, 0, 0, 0, 0x10d2])),
    (0x8000_006f, Some([0x10d4, 25, 0, 0, 0, 0, 0, 0, 0, 0, 0, 1])),
    // jalr, and to x0
    (0xffc3_02e7, Some([0x10d8, 27, 5, 6, 0, 1, 0, 252, 255, 255, 255, 0])),
    (0x0000_8067, Some([0x10dc, 27, 0, 1, 0, 0, 0, 0, 0, 0, 0, 0])),
    // mul, mulh, mulhsu, mulhu
    (0x0231_00b3, Some([0x10e0, 29, 1, 2, 3, 1, 0, 0, 0, 0, 0, 0])),
    (0x0262_9233, Some([0x10e4, 30, 4, 5, 6, 1, 0, 0, 0, 0, 0, 0])),
    (0x0294_23b3, Some([0x10e8, 31, 7, 8, 9, 1, 0, 0, 0, 0, 0, 0])),
    (0x02c5_b533, Some([0x10ec, 32, 10, 11, 12, 1, 0, 0, 0, 0, 0, 0])),
    // div, divu, rem, remu
    (0x02f7_46b3, Some([0x10f0, 33, 13, 14, 15, 1, 0, 0, 0, 0, 0, 0])),
    (0x0328_d833, Some([0x10f4, 34, 16, 17, 18, 1, 0, 0, 0, 0, 0, 0])),
    (0x035a_69b3, Some([0x10f8, 35, 19, 20, 21, 1, 0, 0, 0, 0, 0, 0])),
    (0x038b_fb33, Some([0x10fc, 36, 22, 23, 24, 1, 0, 0, 0, 0, 0, 0])),
    // mul and remu to x0
    (0x0220_8033, Some([0x1100, 39, 0, 0, 0, 0, 0, 0, 0, 0, 0, 0])),
    (0x0220_f033, Some([0x1104, 39, 0, 0, 0, 0, 0, 0, 0, 0, 0, 0])),
    // no instructions: zero, ecall, a terminate with 256, a shift by 32
    (0x0000_0000, None),
    (0x0000_0073, None),
    (0x1000_000b, None),
    (0x0200_9093, None),
    // fence, with rd and rs1 too
    (0x0ff0_000f, Some([0x1118, 39, 0, 0, 0, 0, 0, 0, 0, 0, 0, 0])),
    (0x8333_848f, Some([0x111c, 39, 0, 0, 0, 0, 0, 0, 0, 0, 0, 0])),
    // hint store at x8 + 4 and x0 - 4
    (0x0040_140b, Some([0x1120, 37, 8, 0, 0, 0, 0, 4, 0, 0, 0, 0])),
    (0xffc0_100b, Some([0x1124, 37, 0, 0, 0, 0, 0, 252, 255, 255, 255, 0])),
    // reveal of x7 at x6 - 8
    (0xff83_a30b, Some([0x1128, 38, 6, 7, 0, 0, 0, 248, 255, 255, 255, 0])),
    // SHA block of x11 into x10, and of x0 into x0
    (0x0205_c50b, Some([0x112c, 40, 10, 11, 0, 0, 0, 0, 0, 0, 0, 0])),
    (0x0200_400b, Some([0x1130, 40, 0, 0, 0, 0, 0, 0, 0, 0, 0, 0])),
    // terminate with 42 and 255
    (0x02a0_000b, Some([0x1134, 41, 0, 0, 0, 0, 0, 42, 0, 0, 0, 0])),
    (0x0ff0_000b, Some([0x1138, 41, 0, 0, 0, 0, 0, 255, 0, 0, 0, 0])),
];

/// The text that ends at 2^29.
#[rattlefmt::skip]
const HIGH_TEXT: [Line; 8] = [
    // jal to 2^29 - 4, to 2^29 - 2, to 2^29 and far above
    (0x01c0_00ef, Some([0x1fff_ffe0, 25, 1, 0, 0, 1, 0, 0, 0, 0, 0, 0x1fff_fffc])),
    (0x01a0_006f, Some([0x1fff_ffe4, 25, 0, 0, 0, 0, 0, 0, 0, 0, 0, 0x1fff_fffe])),
    (0x0180_00ef, Some([0x1fff_ffe8, 25, 1, 0, 0, 1, 0, 0, 0, 0, 0, 1])),
    (0x7fff_f06f, Some([0x1fff_ffec, 25, 0, 0, 0, 0, 0, 0, 0, 0, 0, 1])),
    // beq to 2^29 - 4 and to 2^29, bltu far above
    (0x0041_8663, Some([0x1fff_fff0, 19, 0, 3, 4, 0, 0, 0, 0, 0, 0, 0x1fff_fffc])),
    (0x0041_8663, Some([0x1fff_fff4, 19, 0, 3, 4, 0, 0, 0, 0, 0, 0, 1])),
    (0x7e62_efe3, Some([0x1fff_fff8, 22, 0, 5, 6, 0, 0, 0, 0, 0, 0, 1])),
    // bgeu back
    (0x8083_f063, Some([0x1fff_fffc, 24, 0, 7, 8, 0, 0, 0, 0, 0, 0, 0x1fff_effc])),
];

/// The header of a file whose one load is its text, up to the entry, and from there on up to the load's address.
#[rattlefmt::skip]
const HEADERS: ([u8; 24], [u8; 32]) = (
    [
        0x7f, b'E', b'L', b'F', 1, 1, 1, 0, 0, 0, 0, 0, 0, 0, 0, 0,
        2, 0, 243, 0, 1, 0, 0, 0,
    ],
    [
        52, 0, 0, 0, 0, 0, 0, 0, 0, 0, 0, 0, 52, 0, 32, 0, 1, 0, 0, 0, 0, 0, 0, 0,
        1, 0, 0, 0, 84, 0, 0, 0,
    ],
);

/// The image of a file whose one load is these words at an address.
pub fn image_of(alloc: Global, base: u32, text: &[u32]) -> Result<Image, ImageError>
    requires { length text.now < 2 ^ 10 }
{
    let size = text.len() as u32 * 4;
    let mut file = HEADERS.0.to_vec(alloc)?;
    file.extend_from_slice(&base.to_le_bytes())?;
    file.extend_from_slice(&HEADERS.1)?;
    for number in [base, base, size, size, 5, 4] {
        file.extend_from_slice(&number.to_le_bytes())?;
    }
    for word in text {
        file.extend_from_slice(&word.to_le_bytes())?;
    }
    read_image(alloc, &file)
}

#[test]
fn rows_of_the_texts(rt: HostRuntime) -> Result<(), Fail> {
    for (base, text) in [(0x1000, &TEXT[..]), (0x1fff_ffe0, &HIGH_TEXT[..])] {
        let mut words = Vec::new(rt.alloc());
        for (word, _) in text {
            words.push(*word)?;
        }
        assert!(rt; words.len() < 1 << 10);
        let program = transpile(rt.alloc(), &image_of(rt.alloc(), base, words.as_slice())?)?;
        let mut pc: u32 = base;
        let mut place: u32 = 0;
        for (word, wanted) in text {
            let row = program.lookup(pc);
            assert_eq!(rt;
                row.map(|row| row.numbers()),
                *wanted,
                "word {word} at {pc}"
            );
            assert_eq!(rt; program.place(pc), wanted.map(|_| place), "pc {pc}");
            assert_eq!(rt; program.lookup(pc.wrapping_add(1)), None, "pc {pc}");
            if wanted.is_some() {
                assert_eq!(rt; program.at(place), row, "place {place}");
                place = place.wrapping_add(1);
            }
            pc = pc.wrapping_add(4);
        }
        assert_eq!(rt; program.len(), place);
        assert_eq!(rt; program.at(place), None);
    }
    Ok(())
}
