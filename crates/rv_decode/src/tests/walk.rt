//! A second decoder, which walks the listing as data, line by line.
use super::*;

#[derive(Clone, Copy)]
enum Format {
    R,
    I,
    S,
    B,
    U,
    J,
}

// A word is on a line where its bits under the mask are those of the line.
#[derive(Clone, Copy)]
struct Line {
    mask: u32,
    bits: u32,
    format: Format,
    instr: Instr,
}

macro_rules! lines {
    ($($mask:literal, $bits:literal, $format:ident => $instr:expr,)*) => {
        [$(Line { mask: $mask, bits: $bits, format: Format::$format, instr: $instr }),*]
    };
}

// Mask, bits, format, and the instruction with each field 0.
const LINES: [Line; 50] = lines! {
    0x0000_007f, 0x0000_0037, U => Instr::Lui { rd: 0, imm: 0 },
    0x0000_007f, 0x0000_0017, U => Instr::Auipc { rd: 0, imm: 0 },
    0x0000_007f, 0x0000_006f, J => Instr::Jal { rd: 0, offset: 0 },
    0x0000_707f, 0x0000_0067, I => Instr::Jalr { rd: 0, rs1: 0, imm: 0 },
    0x0000_707f, 0x0000_0063, B => Instr::Branch { kind: BranchKind::Beq, rs1: 0, rs2: 0, offset: 0 },
    0x0000_707f, 0x0000_1063, B => Instr::Branch { kind: BranchKind::Bne, rs1: 0, rs2: 0, offset: 0 },
    0x0000_707f, 0x0000_4063, B => Instr::Branch { kind: BranchKind::Blt, rs1: 0, rs2: 0, offset: 0 },
    0x0000_707f, 0x0000_5063, B => Instr::Branch { kind: BranchKind::Bge, rs1: 0, rs2: 0, offset: 0 },
    0x0000_707f, 0x0000_6063, B => Instr::Branch { kind: BranchKind::Bltu, rs1: 0, rs2: 0, offset: 0 },
    0x0000_707f, 0x0000_7063, B => Instr::Branch { kind: BranchKind::Bgeu, rs1: 0, rs2: 0, offset: 0 },
    0x0000_707f, 0x0000_0003, I => Instr::Load { kind: LoadKind::Lb, rd: 0, rs1: 0, imm: 0 },
    0x0000_707f, 0x0000_1003, I => Instr::Load { kind: LoadKind::Lh, rd: 0, rs1: 0, imm: 0 },
    0x0000_707f, 0x0000_2003, I => Instr::Load { kind: LoadKind::Lw, rd: 0, rs1: 0, imm: 0 },
    0x0000_707f, 0x0000_4003, I => Instr::Load { kind: LoadKind::Lbu, rd: 0, rs1: 0, imm: 0 },
    0x0000_707f, 0x0000_5003, I => Instr::Load { kind: LoadKind::Lhu, rd: 0, rs1: 0, imm: 0 },
    0x0000_707f, 0x0000_0023, S => Instr::Store { kind: StoreKind::Sb, rs1: 0, rs2: 0, imm: 0 },
    0x0000_707f, 0x0000_1023, S => Instr::Store { kind: StoreKind::Sh, rs1: 0, rs2: 0, imm: 0 },
    0x0000_707f, 0x0000_2023, S => Instr::Store { kind: StoreKind::Sw, rs1: 0, rs2: 0, imm: 0 },
    0x0000_707f, 0x0000_0013, I => Instr::AluImm { op: AluOp::Add, rd: 0, rs1: 0, imm: 0 },
    0x0000_707f, 0x0000_2013, I => Instr::AluImm { op: AluOp::Slt, rd: 0, rs1: 0, imm: 0 },
    0x0000_707f, 0x0000_3013, I => Instr::AluImm { op: AluOp::Sltu, rd: 0, rs1: 0, imm: 0 },
    0x0000_707f, 0x0000_4013, I => Instr::AluImm { op: AluOp::Xor, rd: 0, rs1: 0, imm: 0 },
    0x0000_707f, 0x0000_6013, I => Instr::AluImm { op: AluOp::Or, rd: 0, rs1: 0, imm: 0 },
    0x0000_707f, 0x0000_7013, I => Instr::AluImm { op: AluOp::And, rd: 0, rs1: 0, imm: 0 },
    0xfe00_707f, 0x0000_1013, R => Instr::AluImm { op: AluOp::Sll, rd: 0, rs1: 0, imm: 0 },
    0xfe00_707f, 0x0000_5013, R => Instr::AluImm { op: AluOp::Srl, rd: 0, rs1: 0, imm: 0 },
    0xfe00_707f, 0x4000_5013, R => Instr::AluImm { op: AluOp::Sra, rd: 0, rs1: 0, imm: 0 },
    0xfe00_707f, 0x0000_0033, R => Instr::Alu { op: AluOp::Add, rd: 0, rs1: 0, rs2: 0 },
    0xfe00_707f, 0x4000_0033, R => Instr::Alu { op: AluOp::Sub, rd: 0, rs1: 0, rs2: 0 },
    0xfe00_707f, 0x0000_1033, R => Instr::Alu { op: AluOp::Sll, rd: 0, rs1: 0, rs2: 0 },
    0xfe00_707f, 0x0000_2033, R => Instr::Alu { op: AluOp::Slt, rd: 0, rs1: 0, rs2: 0 },
    0xfe00_707f, 0x0000_3033, R => Instr::Alu { op: AluOp::Sltu, rd: 0, rs1: 0, rs2: 0 },
    0xfe00_707f, 0x0000_4033, R => Instr::Alu { op: AluOp::Xor, rd: 0, rs1: 0, rs2: 0 },
    0xfe00_707f, 0x0000_5033, R => Instr::Alu { op: AluOp::Srl, rd: 0, rs1: 0, rs2: 0 },
    0xfe00_707f, 0x4000_5033, R => Instr::Alu { op: AluOp::Sra, rd: 0, rs1: 0, rs2: 0 },
    0xfe00_707f, 0x0000_6033, R => Instr::Alu { op: AluOp::Or, rd: 0, rs1: 0, rs2: 0 },
    0xfe00_707f, 0x0000_7033, R => Instr::Alu { op: AluOp::And, rd: 0, rs1: 0, rs2: 0 },
    0xfe00_707f, 0x0200_0033, R => Instr::MulDiv { op: MulDivOp::Mul, rd: 0, rs1: 0, rs2: 0 },
    0xfe00_707f, 0x0200_1033, R => Instr::MulDiv { op: MulDivOp::Mulh, rd: 0, rs1: 0, rs2: 0 },
    0xfe00_707f, 0x0200_2033, R => Instr::MulDiv { op: MulDivOp::Mulhsu, rd: 0, rs1: 0, rs2: 0 },
    0xfe00_707f, 0x0200_3033, R => Instr::MulDiv { op: MulDivOp::Mulhu, rd: 0, rs1: 0, rs2: 0 },
    0xfe00_707f, 0x0200_4033, R => Instr::MulDiv { op: MulDivOp::Div, rd: 0, rs1: 0, rs2: 0 },
    0xfe00_707f, 0x0200_5033, R => Instr::MulDiv { op: MulDivOp::Divu, rd: 0, rs1: 0, rs2: 0 },
    0xfe00_707f, 0x0200_6033, R => Instr::MulDiv { op: MulDivOp::Rem, rd: 0, rs1: 0, rs2: 0 },
    0xfe00_707f, 0x0200_7033, R => Instr::MulDiv { op: MulDivOp::Remu, rd: 0, rs1: 0, rs2: 0 },
    0x0000_707f, 0x0000_000f, I => Instr::Fence,
    0xf00f_ffff, 0x0000_000b, I => Instr::Terminate { code: 0 },
    0x000f_f07f, 0x0000_100b, I => Instr::HintStore { base: 0, imm: 0 },
    0x0000_707f, 0x0000_200b, I => Instr::Reveal { base: 0, rs1: 0, imm: 0 },
    0xfff0_707f, 0x0200_400b, R => Instr::ShaBlock { state: 0, block: 0 },
};

#[test]
fn decodes_as_listed(rt: HostRuntime) {
    for opcode in 0..128 {
        for funct3 in 0..8 {
            for funct7 in 0..128 {
                for (rd, rs1, rs2) in [(0, 0, 0), (31, 31, 31), (1, 2, 0), (10, 0, 21)] {
                    let low = opcode | rd << 7 | funct3 << 12;
                    let word = low | rs1 << 15 | rs2 << 20 | funct7 << 25;
                    assert_eq!(rt; decode(word), walked(word), "at {word}");
                }
            }
        }
    }
}

fn walked(word: u32) -> Option<Instr> {
    for line in &LINES {
        if word & line.mask == line.bits {
            return Some(filled(line.instr, word, immediate(line.format, word)));
        }
    }
    None
}

fn immediate(format: Format, word: u32) -> u32 {
    let sign = if word >> 31 == 1 { u32::MAX } else { 0 };
    match format {
        Format::R => word >> 20 & 0x1f,
        Format::I => sign << 12 | word >> 20,
        Format::S => sign << 12 | word >> 20 & 0xfe0 | word >> 7 & 0x1f,
        Format::B => sign << 12 | word << 4 & 0x800 | word >> 20 & 0x7e0 | word >> 7 & 0x1e,
        Format::U => word & 0xffff_f000,
        Format::J => sign << 20 | word & 0xf_f000 | word >> 9 & 0x800 | word >> 20 & 0x7fe,
    }
}

fn filled(instr: Instr, word: u32, imm: u32) -> Instr {
    let rd = (word >> 7 & 0x1f) as u8;
    let rs1 = (word >> 15 & 0x1f) as u8;
    let rs2 = (word >> 20 & 0x1f) as u8;
    match instr {
        Instr::Lui { .. } => Instr::Lui { rd, imm },
        Instr::Auipc { .. } => Instr::Auipc { rd, imm },
        Instr::Jal { .. } => Instr::Jal { rd, offset: imm },
        Instr::Jalr { .. } => Instr::Jalr { rd, rs1, imm },
        Instr::Branch { kind, .. } => Instr::Branch {
            kind,
            rs1,
            rs2,
            offset: imm,
        },
        Instr::Load { kind, .. } => Instr::Load { kind, rd, rs1, imm },
        Instr::Store { kind, .. } => Instr::Store {
            kind,
            rs1,
            rs2,
            imm,
        },
        Instr::AluImm { op, .. } => Instr::AluImm { op, rd, rs1, imm },
        Instr::Alu { op, .. } => Instr::Alu { op, rd, rs1, rs2 },
        Instr::MulDiv { op, .. } => Instr::MulDiv { op, rd, rs1, rs2 },
        Instr::Fence => Instr::Fence,
        Instr::Terminate { .. } => Instr::Terminate {
            code: (imm & 0xff) as u8,
        },
        Instr::HintStore { .. } => Instr::HintStore { base: rd, imm },
        Instr::Reveal { .. } => Instr::Reveal { base: rd, rs1, imm },
        Instr::ShaBlock { .. } => Instr::ShaBlock {
            state: rd,
            block: rs1,
        },
    }
}
