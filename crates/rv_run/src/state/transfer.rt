// Instructions that load from memory or store to it.
ghost use Rattle.std.specs.Prelude.{◌≡◌, ◌<◌, ◌%◌, IfOk, OnErr};
ghost use Rattle.rv_decode.specs.declared.instr.Instr.TheVariants.{Load, Store, HintStore, ShaBlock};
ghost use Rattle.rv_run.specs.Memory.{number_at};
ghost use Rattle.vm_word.specs.Operations.{load_extended, load_width};
ghost use Rattle.rv_run.specs.State.{machine_of, program_of, IsStepBy};

use super::State;
use crate::OutOfMemory;
use crate::obstacles::{at_address, at_block};
use crate::outcome::{Cause, Stepped};
use rv_decode::{LoadKind, StoreKind};
use sha_words::compress;

impl<'a> State<'a> {
    pub fn load_register(&mut self, kind: LoadKind, rd: u8, rs1: u8, imm: u32) -> Stepped
        requires rd { rd < 32 }
        requires rs1 { rs1 < 32 }
        ensures step { IsStepBy (Load kind rd rs1 imm) (machine_of self.old) (machine_of self.new) result }
        ensures program { program_of self.new ≡ program_of self.old }
    {
        let address = self.register(rs1).wrapping_add(imm);
        match at_address(kind.width(), address) {
            Some(cause) => self.trap(cause),
            None => {
                let word = self.loaded(kind, address);
                self.put_and_go_on(rd, word)
            }
        }
    }

    // The word that a load puts into its register.
    fn loaded(&self, kind: LoadKind, address: u32) -> u32
        requires { address % load_width kind ≡ 0 }
        ensures { result ≡ load_extended kind (number_at (machine_of self.now).memory address (load_width kind)) }
    {
        let number = match kind {
            LoadKind::Lb | LoadKind::Lbu => u32::from(self.memory.byte(address)),
            LoadKind::Lh | LoadKind::Lhu => u32::from(self.memory.half(address)),
            LoadKind::Lw => self.memory.word(address),
        };
        kind.extend(number)
    }

    pub fn store_register(
        &mut self,
        kind: StoreKind,
        rs1: u8,
        rs2: u8,
        imm: u32,
    ) -> Result<Stepped, OutOfMemory>
        requires rs1 { rs1 < 32 }
        requires rs2 { rs2 < 32 }
        ensures step { IfOk result (IsStepBy (Store kind rs1 rs2 imm) (machine_of self.old) (machine_of self.new)) }
        ensures err { OnErr result (machine_of self.new ≡ machine_of self.old) }
        ensures program { program_of self.new ≡ program_of self.old }
    {
        let address = self.register(rs1).wrapping_add(imm);
        if let Some(cause) = at_address(kind.width(), address) {
            return Ok(self.trap(cause));
        }
        let word = self.register(rs2);
        self.memory.store_number(kind, address, word)?;
        Ok(self.go_on())
    }

    pub fn hint_store(&mut self, base: u8, imm: u32) -> Result<Stepped, OutOfMemory>
        requires { base < 32 }
        ensures step { IfOk result (IsStepBy (HintStore base imm) (machine_of self.old) (machine_of self.new)) }
        ensures err { OnErr result (machine_of self.new ≡ machine_of self.old) }
        ensures program { program_of self.new ≡ program_of self.old }
    {
        let address = self.register(base).wrapping_add(imm);
        if let Some(cause) = at_address(4, address) {
            return Ok(self.trap(cause));
        }
        let left = self.hints.left();
        if left.len() < 4 {
            return Ok(self.trap(Cause::HintsEnd));
        }
        self.memory.store(address, &left[..4])?;
        self.hints.advance(4);
        Ok(self.go_on())
    }

    pub fn sha_block(&mut self, state: u8, block: u8) -> Result<Stepped, OutOfMemory>
        requires state { state < 32 }
        requires block { block < 32 }
        ensures step { IfOk result (IsStepBy (ShaBlock state block) (machine_of self.old) (machine_of self.new)) }
        ensures err { OnErr result (machine_of self.new ≡ machine_of self.old) }
        ensures program { program_of self.new ≡ program_of self.old }
    {
        let (state, block) = (self.register(state), self.register(block));
        if let Some(cause) = at_block(state, block) {
            return Ok(self.trap(cause));
        }
        let words = compress(self.memory.words(state), &self.memory.block(block));
        self.memory.store_words(state, &words)?;
        Ok(self.go_on())
    }
}
