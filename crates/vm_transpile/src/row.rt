//! The program row of an instruction, form by form.
ghost use Rattle.std.specs.Prelude.{◌≡◌};
ghost use Rattle.vm_transpile.specs.Rows.{branch_form, hint_row, immediate_form, jal_row, load_form, register_form, reveal_row, row_of, sha_row, store_form, target_of, terminate_row, upper_form};
ghost use Rattle.vm_transpile.specs.Rows.{bare as bare_row, or_nop as row_or_nop};

use crate::operation::{alu_op, branch_op, load_op, mul_div_op, store_op};
use rv_decode::Instr;
use vm_isa::{VmInstr, opcode};
use vm_word::limbs;

/// The program row of the instruction at a pc.
pub fn instr_row(pc: u32, instr: Instr) -> VmInstr
    ensures { result ≡ row_of pc instr }
{
    match instr {
        Instr::Lui { rd, imm } => upper(pc, opcode::LUI, rd, imm),
        Instr::Auipc { rd, imm } => upper(pc, opcode::AUIPC, rd, imm),
        Instr::Jal { rd, offset } => jal(pc, rd, offset),
        Instr::Jalr { rd, rs1, imm } => load(pc, opcode::JALR, rd, rs1, imm),
        Instr::Branch {
            kind,
            rs1,
            rs2,
            offset,
        } => branch(pc, branch_op(kind), rs1, rs2, offset),
        Instr::Load { kind, rd, rs1, imm } => load(pc, load_op(kind), rd, rs1, imm),
        Instr::Store {
            kind,
            rs1,
            rs2,
            imm,
        } => store(pc, store_op(kind), rs1, rs2, imm),
        Instr::AluImm { op, rd, rs1, imm } => immediate(pc, alu_op(op), rd, rs1, imm),
        Instr::Alu { op, rd, rs1, rs2 } => register(pc, alu_op(op), rd, rs1, rs2),
        Instr::MulDiv { op, rd, rs1, rs2 } => register(pc, mul_div_op(op), rd, rs1, rs2),
        Instr::Fence => bare(pc, opcode::NOP),
        Instr::Terminate { code } => terminate(pc, code),
        Instr::HintStore { base, imm } => hint(pc, base, imm),
        Instr::Reveal { base, rs1, imm } => reveal(pc, base, rs1, imm),
        Instr::ShaBlock { state, block } => sha(pc, state, block),
    }
}

// A row that names its pc and its opcode alone.
fn bare(pc: u32, op: u8) -> VmInstr
    ensures { result ≡ bare_row pc op }
{
    VmInstr {
        pc,
        op,
        rd: 0,
        rs1: 0,
        rs2: 0,
        write: false,
        use_imm: false,
        imm: [0; 4],
        target: 0,
    }
}

fn or_nop(row: VmInstr) -> VmInstr
    ensures { result ≡ row_or_nop row }
{
    if row.rd == 0 {
        bare(row.pc, opcode::NOP)
    } else {
        row
    }
}

// The pc that an offset leads to, or 1 where no program row can be.
fn target(pc: u32, offset: u32) -> u32
    ensures { result ≡ target_of pc offset }
{
    match pc.wrapping_add(offset) {
        address if address < 1 << 29 => address,
        _ => 1,
    }
}

fn register(pc: u32, op: u8, rd: u8, rs1: u8, rs2: u8) -> VmInstr
    ensures { result ≡ register_form pc op rd rs1 rs2 }
{
    or_nop(VmInstr {
        rd,
        rs1,
        rs2,
        write: true,
        ..bare(pc, op)
    })
}

fn immediate(pc: u32, op: u8, rd: u8, rs1: u8, imm: u32) -> VmInstr
    ensures { result ≡ immediate_form pc op rd rs1 imm }
{
    or_nop(VmInstr {
        rd,
        rs1,
        write: true,
        use_imm: true,
        imm: limbs(imm),
        ..bare(pc, op)
    })
}

// LUI and AUIPC.
fn upper(pc: u32, op: u8, rd: u8, imm: u32) -> VmInstr
    ensures { result ≡ upper_form pc op rd imm }
{
    or_nop(VmInstr {
        rd,
        write: true,
        imm: limbs(imm),
        ..bare(pc, op)
    })
}

// Loads and JALR.
fn load(pc: u32, op: u8, rd: u8, rs1: u8, imm: u32) -> VmInstr
    ensures { result ≡ load_form pc op rd rs1 imm }
{
    VmInstr {
        rd,
        rs1,
        write: rd != 0,
        imm: limbs(imm),
        ..bare(pc, op)
    }
}

fn jal(pc: u32, rd: u8, offset: u32) -> VmInstr
    ensures { result ≡ jal_row pc rd offset }
{
    VmInstr {
        rd,
        write: rd != 0,
        target: target(pc, offset),
        ..bare(pc, opcode::JAL)
    }
}

fn store(pc: u32, op: u8, rs1: u8, rs2: u8, imm: u32) -> VmInstr
    ensures { result ≡ store_form pc op rs1 rs2 imm }
{
    VmInstr {
        rs1,
        rs2,
        imm: limbs(imm),
        ..bare(pc, op)
    }
}

fn branch(pc: u32, op: u8, rs1: u8, rs2: u8, offset: u32) -> VmInstr
    ensures { result ≡ branch_form pc op rs1 rs2 offset }
{
    VmInstr {
        rs1,
        rs2,
        target: target(pc, offset),
        ..bare(pc, op)
    }
}

fn hint(pc: u32, base: u8, imm: u32) -> VmInstr
    ensures { result ≡ hint_row pc base imm }
{
    VmInstr {
        rd: base,
        imm: limbs(imm),
        ..bare(pc, opcode::HINT)
    }
}

fn reveal(pc: u32, base: u8, rs1: u8, imm: u32) -> VmInstr
    ensures { result ≡ reveal_row pc base rs1 imm }
{
    VmInstr {
        rd: base,
        rs1,
        imm: limbs(imm),
        ..bare(pc, opcode::REVEAL)
    }
}

fn sha(pc: u32, state: u8, block: u8) -> VmInstr
    ensures { result ≡ sha_row pc state block }
{
    VmInstr {
        rd: state,
        rs1: block,
        ..bare(pc, opcode::SHA)
    }
}

fn terminate(pc: u32, code: u8) -> VmInstr
    ensures { result ≡ terminate_row pc code }
{
    VmInstr {
        imm: [code, 0, 0, 0],
        ..bare(pc, opcode::TERMINATE)
    }
}
