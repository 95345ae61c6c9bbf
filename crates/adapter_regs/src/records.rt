//! Records of steps of the form, which rows can be filled from: for tests of its tables.

ghost use Rattle.std.specs.Prelude.{◌≡◌, ◌+◌, ◌*◌, ◌<◌, ◌≤◌, true, false, if◌then◌else◌, IfOk, [], ◌∷◌};
ghost use Rattle.vm_word.specs.Word.{limbs_of};
ghost use Rattle.vm_isa.specs.Opcodes.{is_alu, is_register};
ghost use Rattle.vm_isa.specs.Means.{Fillable};

use std::alloc::Global;
use vm_isa::{Access, AccessList, OutOfMemory, StepRecord, TimedAccess, VmInstr, space};
use vm_word::limbs;

/// An operation on the word of x6 and that of x7, or an immediate.
#[derive(Clone, Copy, Debug)]
pub struct Operation {
    pub op: u8,
    pub left: u32,
    pub right: u32,
    /// Whether the second word is an immediate.
    pub use_imm: bool,
    /// The register that is written.
    pub rd: u8,
}

fn access(register: u8, old: u32, new: u32, time: u32, before: u32) -> TimedAccess
    ensures { result ≡ record { access = record { space = 1; pointer = 4 * register; old = limbs_of old; new = limbs_of new }; time = time; before = before } }
{
    TimedAccess {
        access: Access {
            space: space::REGISTERS,
            pointer: 4 * register as u32,
            old: limbs(old),
            new: limbs(new),
        },
        time,
        before,
    }
}

/// The word that is in the written register.
fn old_word(operation: &Operation) -> u32 {
    match operation.rd {
        6 => operation.left,
        7 if !operation.use_imm => operation.right,
        _ => 0x0607_0809,
    }
}

/// When the written register was accessed before.
fn last_access(operation: &Operation, time: u32) -> u32
    requires { time ≤ 70000 }
    ensures { result < time + 2 }
{
    match operation.rd {
        6 => time,
        7 if !operation.use_imm => time + 1,
        _ => 0,
    }
}

fn instruction(operation: &Operation) -> VmInstr
    ensures { result ≡ record {
      pc = 4096;
      op = operation.now.op;
      rd = operation.now.rd;
      rs1 = 6;
      rs2 = if operation.now.use_imm then 0 else 7;
      write = true;
      use_imm = operation.now.use_imm;
      imm = if operation.now.use_imm then limbs_of operation.now.right else limbs_of 0;
      target = 0;
    } }
{
    VmInstr {
        pc: 4096,
        op: operation.op,
        rd: operation.rd,
        rs1: 6,
        rs2: if operation.use_imm { 0 } else { 7 },
        write: true,
        use_imm: operation.use_imm,
        imm: if operation.use_imm {
            limbs(operation.right)
        } else {
            limbs(0)
        },
        target: 0,
    }
}

fn of_registers(alloc: Global, time: u32, operation: &Operation) -> Result<StepRecord, OutOfMemory>
    requires form { operation.now.use_imm ≡ false }
    requires owned { is_register operation.now.op ≡ true }
    requires register { operation.now.rd < 32 }
    requires time { (100 ≤ time) × (time ≤ 70000) }
    ensures { IfOk result (λ done. (done.instr.op ≡ operation.now.op) × Fillable 24 done) }
{
    let new = vm_isa::result(operation.op, operation.left, operation.right);
    let mut accesses = AccessList::new(alloc);
    accesses.push(access(6, operation.left, operation.left, time, 90))?;
    accesses.push(access(7, operation.right, operation.right, time + 1, 50))?;
    accesses.push(access(
        operation.rd,
        old_word(operation),
        new,
        time + 2,
        last_access(operation, time),
    ))?;
    Ok(StepRecord {
        instr: instruction(operation),
        time,
        accesses,
        next: 4100,
    })
}

fn of_immediate(alloc: Global, time: u32, operation: &Operation) -> Result<StepRecord, OutOfMemory>
    requires form { operation.now.use_imm ≡ true }
    requires alu { is_alu operation.now.op ≡ true }
    requires owned { is_register operation.now.op ≡ true }
    requires register { operation.now.rd < 32 }
    requires time { (100 ≤ time) × (time ≤ 70000) }
    ensures { IfOk result (λ done. (done.instr.op ≡ operation.now.op) × Fillable 24 done) }
{
    let new = vm_isa::result(operation.op, operation.left, operation.right);
    let mut accesses = AccessList::new(alloc);
    accesses.push(access(6, operation.left, operation.left, time, 90))?;
    accesses.push(access(
        operation.rd,
        old_word(operation),
        new,
        time + 2,
        last_access(operation, time),
    ))?;
    Ok(StepRecord {
        instr: instruction(operation),
        time,
        accesses,
        next: 4100,
    })
}

/// The step of an operation at the pc 4096 and this time. Both words were accessed before, at 90 and at 50.
pub fn step(alloc: Global, time: u32, operation: &Operation) -> Result<StepRecord, OutOfMemory>
    requires owned { is_register operation.now.op ≡ true }
    requires immediate { operation.now.use_imm ≡ true → is_alu operation.now.op ≡ true }
    requires register { operation.now.rd < 32 }
    requires time { (100 ≤ time) × (time ≤ 70000) }
    ensures { IfOk result (λ done. (done.instr.op ≡ operation.now.op) × Fillable 24 done) }
{
    if operation.use_imm {
        of_immediate(alloc, time, operation)
    } else {
        of_registers(alloc, time, operation)
    }
}
