//! The instructions that a word can be.

use vm_word::operation::{AluOp, BranchKind, LoadKind, MulDivOp, StoreKind};

/// A decoded instruction. Registers are numbers below 32, immediates and offsets are sign-extended words.
#[derive(Clone, Copy, Debug, PartialEq, Eq)]
pub enum Instr {
    /// Puts the immediate into `rd`.
    Lui {
        rd: u8,
        imm: u32,
    },
    /// Puts the instruction's address plus the immediate into `rd`.
    Auipc {
        rd: u8,
        imm: u32,
    },
    /// Puts the next instruction's address into `rd`, and goes on at its own address plus the offset.
    Jal {
        rd: u8,
        offset: u32,
    },
    /// Puts the next instruction's address into `rd`, and goes on at `rs1` plus the immediate, bit 0 cleared.
    Jalr {
        rd: u8,
        rs1: u8,
        imm: u32,
    },
    /// Goes on at its own address plus the offset if `rs1` and `rs2` compare so.
    Branch {
        kind: BranchKind,
        rs1: u8,
        rs2: u8,
        offset: u32,
    },
    /// Puts what memory has at `rs1` plus the immediate into `rd`.
    Load {
        kind: LoadKind,
        rd: u8,
        rs1: u8,
        imm: u32,
    },
    /// Puts `rs2` into memory at `rs1` plus the immediate.
    Store {
        kind: StoreKind,
        rs1: u8,
        rs2: u8,
        imm: u32,
    },
    /// Puts the result of the operation on `rs1` and the immediate into `rd`. The immediate of a shift is
    /// its amount, below 32. `Sub` has no such form.
    AluImm {
        op: AluOp,
        rd: u8,
        rs1: u8,
        imm: u32,
    },
    /// Puts the result of the operation on `rs1` and `rs2` into `rd`.
    Alu {
        op: AluOp,
        rd: u8,
        rs1: u8,
        rs2: u8,
    },
    /// Puts the result of the operation on `rs1` and `rs2` into `rd`.
    MulDiv {
        op: MulDivOp,
        rd: u8,
        rs1: u8,
        rs2: u8,
    },
    /// Does nothing.
    Fence,
    /// Ends the run with this exit code.
    Terminate {
        code: u8,
    },
    /// Puts the next four hint bytes into memory at `base` plus the immediate.
    HintStore {
        base: u8,
        imm: u32,
    },
    /// Puts the word in `rs1` into the public bytes from the place `base` plus the immediate.
    Reveal {
        base: u8,
        rs1: u8,
        imm: u32,
    },
    /// Compresses the 64 bytes at `block` into the eight state words at `state` (FIPS 180-4, section 6.2.2).
    ShaBlock {
        state: u8,
        block: u8,
    },
}
