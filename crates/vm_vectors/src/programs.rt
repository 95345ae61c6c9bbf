//! Programs, and how they stop. The words were put together outside, from the layout of instruction words, and where
//! each program stops was told by hand.

use rv_run::Cause;

/// How a program stops.
#[derive(Clone, Copy, Debug, PartialEq, Eq)]
pub enum Stop {
    Ends(u8),
    Traps(Cause),
}

/// A program: where its text begins, its words, how many of the hint bytes it has, and how it stops.
pub type Program = (u32, &'static [u32], u8, Stop);

/// The hint bytes, of which each program has the first ones.
pub const HINT_BYTES: [u8; 19] = [
    0x80, 1, 2, 3, 0xff, 0xfe, 6, 7, 8, 9, 10, 11, 12, 13, 14, 15, 16, 17, 18,
];

/// Every operation over a table of pairs, and what writes to x0.
#[rattlefmt::skip]
const OPERATIONS: [u32; 60] = [
    0x0000_0297, 0x0f02_8213, 0x0a02_8293, 0x0002_a303, 0x0042_a383, 0x0073_0433, 0x4073_04b3,
    0x0073_1533, 0x0073_25b3, 0x0073_3633, 0x0073_46b3, 0x0073_5733, 0x4073_57b3, 0x0073_6833,
    0x0073_78b3, 0x0273_0933, 0x0273_19b3, 0x0273_2a33, 0x0273_3ab3, 0x0273_4b33, 0x0273_5bb3,
    0x0273_6c33, 0x0273_7cb3, 0xfff3_0d13, 0x8003_2d93, 0x7ff3_3e13, 0xfff3_4e93, 0x1233_6f13,
    0xf003_7f93, 0x01f3_1d13, 0x01f3_5d93, 0x41f3_5e13, 0x0073_0033, 0x0053_0013, 0x1234_5037,
    0x0000_1017, 0x0ff0_000f, 0x0082_8293, 0xf642_9ae3, 0x0030_000b, 0x0000_0000, 0x0000_0000,
    0x0000_0001, 0x0000_0000, 0xffff_ffff, 0xffff_ffff, 0x8000_0000, 0xffff_ffff, 0x8000_0000,
    0x0000_0001, 0x7fff_ffff, 0x8000_0000, 0x0000_001f, 0x0000_0020, 0xffff_fff9, 0x0000_0002,
    0x0000_0007, 0xffff_fffe, 0x1234_5678, 0x9abc_def0,
];

/// Loads and stores of each width at each place of a block.
#[rattlefmt::skip]
const MOVES: [u32; 37] = [
    0x0000_22b7, 0x80ff_8337, 0xf813_0313, 0x0062_8023, 0x0062_80a3, 0x0062_8123, 0x0062_81a3,
    0x0002_8503, 0x0002_c703, 0x0012_8583, 0x0012_c783, 0x0022_8603, 0x0022_c803, 0x0032_8683,
    0x0032_c883, 0x0062_9223, 0x0062_9323, 0x0062_a423, 0xfe62_9f23, 0x0002_9903, 0x0002_d983,
    0x0022_9903, 0x0022_d983, 0x0042_9903, 0x0042_d983, 0x0062_9903, 0x0062_d983, 0x0002_aa03,
    0x0082_aa83, 0x0082_a003, 0x0032_8003, 0x0002_84a3, 0x2000_03b7, 0xfe63_ae23, 0xffc3_ab03,
    0xfff3_8b83, 0x0000_000b,
];

/// Each branch taken and not taken, and some that are not taken to where none could lead.
#[rattlefmt::skip]
const BRANCHES: [u32; 42] = [
    0xfff0_0293, 0x0010_0313, 0x0062_8463, 0x0013_8393, 0x0053_0463, 0x0013_8393, 0x0052_8463,
    0x0013_8393, 0x0062_9463, 0x0013_8393, 0x0053_1463, 0x0013_8393, 0x0052_9463, 0x0013_8393,
    0x0062_c463, 0x0013_8393, 0x0053_4463, 0x0013_8393, 0x0052_c463, 0x0013_8393, 0x0062_d463,
    0x0013_8393, 0x0053_5463, 0x0013_8393, 0x0052_d463, 0x0013_8393, 0x0062_e463, 0x0013_8393,
    0x0053_6463, 0x0013_8393, 0x0052_e463, 0x0013_8393, 0x0062_f463, 0x0013_8393, 0x0053_7463,
    0x0013_8393, 0x0052_f463, 0x0013_8393, 0x0062_8163, 0x8052_9063, 0x0053_4363, 0x0010_000b,
];

/// JAL and JALR with and without a link, an odd sum, and a link in the base.
#[rattlefmt::skip]
const JUMPS: [u32; 14] = [
    0x0080_00ef, 0x0090_000b, 0x0000_0297, 0x0112_8167, 0x0090_000b, 0x0090_000b, 0x01c2_8067,
    0x0090_000b, 0x0090_000b, 0x0040_006f, 0x0282_82e7, 0x0090_000b, 0x0002_8313, 0x0020_000b,
];

/// SHA blocks whose state and block overlap, across a page of 64 bytes, and at 0.
#[rattlefmt::skip]
const SHA: [u32; 20] = [
    0x0000_2537, 0x1234_5337, 0x0605_0393, 0x0063_0333, 0x0353_0313, 0x0065_2023, 0x0045_0513,
    0xfe75_68e3, 0x0000_25b7, 0x0305_8513, 0x0105_8593, 0x0205_c50b, 0x0205_458b, 0x0205_450b,
    0x0005_0293, 0x0002_a303, 0x0205_c00b, 0x0200_458b, 0x0200_400b, 0x0000_000b,
];

/// A store over the next instruction and a hint store over the one after it.
#[rattlefmt::skip]
const OVER_TEXT: [u32; 8] = [
    0x0000_0297, 0x0002_a423, 0x0090_0313, 0x0100_128b, 0x0080_0393, 0x0082_a403, 0x0102_a483,
    0x0040_000b,
];

/// Hint stores until the hints end, and a reveal at each place.
#[rattlefmt::skip]
const HINT_STORES: [u32; 42] = [
    0x0000_22b7, 0x0000_128b, 0x0040_128b, 0x0000_128b, 0x00c0_100b, 0x0002_a303, 0x0003_0393,
    0x0003_a00b, 0x0013_0393, 0x0043_a00b, 0x0023_0393, 0x0083_a00b, 0x0033_0393, 0x00c3_a00b,
    0x0043_0393, 0x0103_a00b, 0x0053_0393, 0x0143_a00b, 0x0063_0393, 0x0183_a00b, 0x0073_0393,
    0x01c3_a00b, 0x0083_0393, 0x0203_a00b, 0x0093_0393, 0x0243_a00b, 0x00a3_0393, 0x0283_a00b,
    0x00b3_0393, 0x02c3_a00b, 0x00c3_0393, 0x0303_a00b, 0x00d3_0393, 0x0343_a00b, 0x00e3_0393,
    0x0383_a00b, 0x00f3_0393, 0x03c3_a00b, 0x03c0_200b, 0x0400_0413, 0xfc03_240b, 0x0080_128b,
];

/// Programs for each instruction and each trap.
#[rattlefmt::skip]
pub const PROGRAMS: [Program; 40] = [
    (0x1000, &OPERATIONS, 0, Stop::Ends(3)),
    (0x1000, &MOVES, 0, Stop::Ends(0)),
    (0x1000, &BRANCHES, 0, Stop::Ends(1)),
    (0x1000, &JUMPS, 0, Stop::Ends(2)),
    (0x1000, &SHA, 0, Stop::Ends(0)),
    (0x1000, &OVER_TEXT, 4, Stop::Ends(4)),
    (0x1000, &HINT_STORES, 19, Stop::Traps(Cause::HintsEnd)),
    // a jump out of the text, to 0x2000
    (0x1000, &[0x0000_22b7, 0x0002_80e7], 0, Stop::Traps(Cause::NotText)),
    // JAL out of the text
    (0x1000, &[0x1000_00ef], 0, Stop::Traps(Cause::NotText)),
    // the end of the text
    (0x1000, &[0x0070_0293], 0, Stop::Traps(Cause::NotText)),
    // targets that are 2 modulo 4
    (0x1000, &[0x0020_00ef], 0, Stop::Traps(Cause::MisalignedTarget)),
    (0x1000, &[0x0000_12b7, 0x0022_80e7], 0, Stop::Traps(Cause::MisalignedTarget)),
    (0x1000, &[0x0000_0363], 0, Stop::Traps(Cause::MisalignedTarget)),
    // targets from 2^29 on, aligned and not
    (0x1000, &[0x800f_e0ef], 0, Stop::Traps(Cause::NotText)),
    (0x1000, &[0xffff_d0ef], 0, Stop::Traps(Cause::MisalignedTarget)),
    (0x1000, &[0x2000_02b7, 0x0002_80e7], 0, Stop::Traps(Cause::NotText)),
    (0x1000, &[0x2000_02b7, 0x0032_80e7], 0, Stop::Traps(Cause::MisalignedTarget)),
    (0x800, &[0x8000_0063], 0, Stop::Traps(Cause::NotText)),
    // pc + 4 is 2^29
    (0x1ffffff8, &[0x0010_0293, 0x0020_0313], 0, Stop::Traps(Cause::NotText)),
    // a word that is no instruction, after a jump to it
    (0x1000, &[0x0080_00ef, 0x0000_000b, 0xffff_ffff], 0, Stop::Traps(Cause::Undecoded)),
    (0x1000, &[0x0010_1303], 0, Stop::Traps(Cause::Misaligned)),
    (0x1000, &[0x0020_2303], 0, Stop::Traps(Cause::Misaligned)),
    (0x1000, &[0xffc0_2003], 0, Stop::Traps(Cause::OutOfRange)),
    (0x1000, &[0x2000_02b7, 0x0002_8003], 0, Stop::Traps(Cause::OutOfRange)),
    (0x1000, &[0x2000_02b7, 0x0002_c303], 0, Stop::Traps(Cause::OutOfRange)),
    (0x1000, &[0x0060_11a3], 0, Stop::Traps(Cause::Misaligned)),
    (0x1000, &[0x0060_20a3], 0, Stop::Traps(Cause::Misaligned)),
    (0x1000, &[0xfe60_0fa3], 0, Stop::Traps(Cause::OutOfRange)),
    (0x1000, &[0x0020_100b], 0, Stop::Traps(Cause::Misaligned)),
    (0x1000, &[0xffc0_100b], 0, Stop::Traps(Cause::OutOfRange)),
    (0x1000, &[0x0020_200b], 0, Stop::Traps(Cause::PublicIndex)),
    (0x1000, &[0x0400_200b], 0, Stop::Traps(Cause::PublicIndex)),
    (0x1000, &[0xffc0_200b], 0, Stop::Traps(Cause::PublicIndex)),
    (0x1000, &[0x0020_0293, 0x0200_428b], 0, Stop::Traps(Cause::Misaligned)),
    (0x1000, &[0x0020_0293, 0x0202_c00b], 0, Stop::Traps(Cause::Misaligned)),
    (0x1000, &[0x2000_02b7, 0xfe42_8293, 0x0200_428b], 0, Stop::Traps(Cause::OutOfRange)),
    (0x1000, &[0x2000_02b7, 0xfc42_8293, 0x0202_c00b], 0, Stop::Traps(Cause::OutOfRange)),
    (0x1000, &[0x2000_02b7, 0x0200_428b], 0, Stop::Traps(Cause::OutOfRange)),
    (0x1000, &[0x2000_02b7, 0x0202_c00b], 0, Stop::Traps(Cause::OutOfRange)),
    // the last places of a SHA block
    (0x1000, &[0x2000_02b7, 0xfe02_8313, 0xfc02_8393, 0x0203_c30b, 0x0000_000b], 0, Stop::Ends(0)),
];

/// A step of each instruction, in a loop that is run twice, and terminate 3. Its text begins at 0x1000.
///
/// It takes eight hint bytes, sets public word 1, and reaches memory from 0x2000 to 0x203F.
#[rattlefmt::skip]
pub const EACH_INSTRUCTION: [u32; 42] = [
    0x0000_22b7, 0x001e_0e13, 0x0020_0e93, 0x0000_128b, 0x0002_a303, 0x4033_5393, 0x0273_2433,
    0x0062_84a3, 0x0092_8483, 0x4064_8533, 0x0065_25b3, 0x0293_4633, 0x03c3_76b3, 0x0073_0263,
    0x0062_9723, 0x00e2_d703, 0x00e2_9783, 0x00f2_c803, 0x00f7_48b3, 0x00e7_b933, 0x00e7_c263,
    0x00e7_f263, 0x0267_89b3, 0x0267_9a33, 0x0267_bab3, 0x0ff0_000f, 0x03c7_db33, 0x0267_ebb3,
    0x01c3_1c33, 0x01c3_5cb3, 0x019c_6d33, 0x019c_7db3, 0x01a2_a823, 0x004d_200b, 0x0000_0f17,
    0x008f_00e7, 0x0040_016f, 0x0202_c28b, 0x01de_6263, 0x01de_5263, 0xf7de_12e3, 0x0030_000b,
];
