// What each instruction does.
ghost use Rattle.std.specs.Prelude.{◌≡◌, ◌<◌, ◌≤◌, ◌+◌, ◌%◌, ◌^◌, IfOk, OnOk, OnErr};
ghost use Rattle.rv_decode.specs.Ranges.{HasFieldsInRange};
ghost use Rattle.rv_decode.specs.declared.instr.Instr.TheVariants.{Jal, Jalr, Branch, Reveal};
ghost use Rattle.rv_run.specs.Step.{goes_on, jumps, make_public, put as put_word};
ghost use Rattle.vm_word.specs.Arithmetic.{word_sum};
ghost use Rattle.rv_run.specs.State.{machine_of, program_of, IsStepBy};

use super::State;
use crate::OutOfMemory;
use crate::obstacles::{at_public, at_target};
use crate::outcome::Stepped;
use rv_decode::{BranchKind, Instr};
use vm_word::operation::jump_target;

impl<'a> State<'a> {
    /// Does what an instruction does, or traps.
    #[inline(always)]
    pub fn execute(&mut self, instr: Instr) -> Result<Stepped, OutOfMemory>
        requires { HasFieldsInRange instr }
        ensures step { IfOk result (IsStepBy instr (machine_of self.old) (machine_of self.new)) }
        ensures err { OnErr result (machine_of self.new ≡ machine_of self.old) }
        ensures program { program_of self.new ≡ program_of self.old }
    {
        match instr {
            Instr::Lui { rd, imm } => Ok(self.put_and_go_on(rd, imm)),
            Instr::Auipc { rd, imm } => Ok(self.put_and_go_on(rd, self.pc.wrapping_add(imm))),
            Instr::Jal { rd, offset } => Ok(self.jal(rd, offset)),
            Instr::Jalr { rd, rs1, imm } => Ok(self.jalr(rd, rs1, imm)),
            Instr::Branch {
                kind,
                rs1,
                rs2,
                offset,
            } => Ok(self.branch(kind, rs1, rs2, offset)),
            Instr::Load { kind, rd, rs1, imm } => Ok(self.load_register(kind, rd, rs1, imm)),
            Instr::Store {
                kind,
                rs1,
                rs2,
                imm,
            } => self.store_register(kind, rs1, rs2, imm),
            Instr::AluImm { op, rd, rs1, imm } => {
                Ok(self.put_and_go_on(rd, op.result(self.register(rs1), imm)))
            }
            Instr::Alu { op, rd, rs1, rs2 } => {
                Ok(self.put_and_go_on(rd, op.result(self.register(rs1), self.register(rs2))))
            }
            Instr::MulDiv { op, rd, rs1, rs2 } => {
                Ok(self.put_and_go_on(rd, op.result(self.register(rs1), self.register(rs2))))
            }
            Instr::Fence => Ok(self.go_on()),
            Instr::Terminate { code } => Ok(Stepped::Ended(code)),
            Instr::HintStore { base, imm } => self.hint_store(base, imm),
            Instr::Reveal { base, rs1, imm } => Ok(self.reveal(base, rs1, imm)),
            Instr::ShaBlock { state, block } => self.sha_block(state, block),
        }
    }
}

impl<'a> State<'a> {
    pub fn put_and_go_on(&mut self, rd: u8, word: u32) -> Stepped
        requires { rd < 32 }
        ensures went { result ≡ Stepped.Went }
        ensures machine { machine_of self.new ≡ goes_on (put_word rd word (machine_of self.old)) }
        ensures program { program_of self.new ≡ program_of self.old }
    {
        self.put(rd, word);
        self.go_on()
    }

    fn link_and_jump(&mut self, rd: u8, target: u32) -> Stepped
        requires { rd < 32 }
        ensures went { result ≡ Stepped.Went }
        ensures machine { machine_of self.new ≡ jumps target (put_word rd (word_sum (machine_of self.old).pc 4) (machine_of self.old)) }
        ensures program { program_of self.new ≡ program_of self.old }
    {
        self.put(rd, self.pc.wrapping_add(4));
        self.jump(target)
    }

    fn jal(&mut self, rd: u8, offset: u32) -> Stepped
        requires { rd < 32 }
        ensures step { IsStepBy (Jal rd offset) (machine_of self.old) (machine_of self.new) result }
        ensures program { program_of self.new ≡ program_of self.old }
    {
        let target = self.pc.wrapping_add(offset);
        match at_target(target) {
            Some(cause) => self.trap(cause),
            None => self.link_and_jump(rd, target),
        }
    }

    fn jalr(&mut self, rd: u8, rs1: u8, imm: u32) -> Stepped
        requires rd { rd < 32 }
        requires rs1 { rs1 < 32 }
        ensures step { IsStepBy (Jalr rd rs1 imm) (machine_of self.old) (machine_of self.new) result }
        ensures program { program_of self.new ≡ program_of self.old }
    {
        let target = jump_target(self.register(rs1), imm);
        match at_target(target) {
            Some(cause) => self.trap(cause),
            None => self.link_and_jump(rd, target),
        }
    }

    fn branch(&mut self, kind: BranchKind, rs1: u8, rs2: u8, offset: u32) -> Stepped
        requires rs1 { rs1 < 32 }
        requires rs2 { rs2 < 32 }
        ensures step { IsStepBy (Branch kind rs1 rs2 offset) (machine_of self.old) (machine_of self.new) result }
        ensures program { program_of self.new ≡ program_of self.old }
    {
        if !kind.holds(self.register(rs1), self.register(rs2)) {
            return self.go_on();
        }
        let target = self.pc.wrapping_add(offset);
        match at_target(target) {
            Some(cause) => self.trap(cause),
            None => self.jump(target),
        }
    }

    fn reveal(&mut self, base: u8, rs1: u8, imm: u32) -> Stepped
        requires base { base < 32 }
        requires rs1 { rs1 < 32 }
        ensures step { IsStepBy (Reveal base rs1 imm) (machine_of self.old) (machine_of self.new) result }
        ensures program { program_of self.new ≡ program_of self.old }
    {
        let place = self.register(base).wrapping_add(imm);
        match at_public(place) {
            Some(cause) => self.trap(cause),
            None => {
                self.make_public(place as usize, self.register(rs1));
                self.go_on()
            }
        }
    }

    // Puts a word into the public bytes from a place on.
    fn make_public(&mut self, place: usize, word: u32)
        requires { place + 4 ≤ 64 }
        ensures machine { machine_of self.new ≡ make_public place word (machine_of self.old) }
        ensures program { program_of self.new ≡ program_of self.old }
    {
        self.public_bytes[place..place + 4].copy_from_slice(&word.to_le_bytes());
    }
}
