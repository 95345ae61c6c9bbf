//! The opcodes of program rows.

ghost use Rattle.std.specs.Prelude.{◌≡◌};
ghost use Rattle.vm_isa.specs.Opcodes.{has_meaning as has_meaning_of};
ghost use Rattle.vm_isa.specs.Slots.{slots_of};

pub const ADD: u8 = 1;

pub const SUB: u8 = 2;

pub const XOR: u8 = 3;

pub const OR: u8 = 4;

pub const AND: u8 = 5;

pub const SLT: u8 = 6;

pub const SLTU: u8 = 7;

pub const SLL: u8 = 8;

pub const SRL: u8 = 9;

pub const SRA: u8 = 10;

pub const LB: u8 = 11;

pub const LH: u8 = 12;

pub const LW: u8 = 13;

pub const LBU: u8 = 14;

pub const LHU: u8 = 15;

pub const SB: u8 = 16;

pub const SH: u8 = 17;

pub const SW: u8 = 18;

pub const BEQ: u8 = 19;

pub const BNE: u8 = 20;

pub const BLT: u8 = 21;

pub const BLTU: u8 = 22;

pub const BGE: u8 = 23;

pub const BGEU: u8 = 24;

pub const JAL: u8 = 25;

pub const LUI: u8 = 26;

pub const JALR: u8 = 27;

pub const AUIPC: u8 = 28;

pub const MUL: u8 = 29;

pub const MULH: u8 = 30;

pub const MULHSU: u8 = 31;

pub const MULHU: u8 = 32;

pub const DIV: u8 = 33;

pub const DIVU: u8 = 34;

pub const REM: u8 = 35;

pub const REMU: u8 = 36;

/// Stores a word that the host gives.
pub const HINT: u8 = 37;
/// Puts a word among the public bytes.
pub const REVEAL: u8 = 38;
/// Does nothing but go on: FENCE, and what would write only x0.
pub const NOP: u8 = 39;
/// Compresses one block of SHA-256.
pub const SHA: u8 = 40;
/// Ends the program with an exit code.
pub const TERMINATE: u8 = 41;

/// The greatest opcode.
pub const GREATEST: u8 = TERMINATE;

/// Whether an opcode is one of steps: all but TERMINATE are, and what is no opcode isn't.
pub fn has_meaning(op: u8) -> bool
    ensures { result ≡ has_meaning_of op }
{
    op >= ADD && op <= SHA
}

/// The slots of an opcode: its step at time t has its accesses at t and after, and the next step is
/// at t plus the slots. TERMINATE, which is no step, and what is no opcode have none.
pub fn slots(op: u8) -> u32
    ensures { result ≡ slots_of op }
{
    match op {
        ADD..=SW | MUL..=REMU | REVEAL => 3,
        BEQ..=BGEU | JALR | HINT => 2,
        JAL | LUI | AUIPC | NOP => 1,
        SHA => 26,
        _ => 0,
    }
}
