//! An instruction as a program row.

ghost use Rattle.std.specs.Prelude.{◌≡◌};
ghost use Rattle.vm_isa.specs.Instr.{numbers_of};

/// One instruction at its place in the program. A number that its opcode has no use for is 0.
#[derive(Clone, Copy, Debug, PartialEq, Eq)]
pub struct VmInstr {
    pub pc: u32,
    /// One of `opcode`.
    pub op: u8,
    pub rd: u8,
    pub rs1: u8,
    pub rs2: u8,
    /// Whether rd is written.
    pub write: bool,
    /// Whether the immediate stands for the word of rs2.
    pub use_imm: bool,
    /// Lowest byte first.
    pub imm: [u8; 4],
    /// The pc that a branch or a jump goes to.
    pub target: u32,
}

impl VmInstr {
    /// The numbers of its program row, in the order of the fields.
    #[tactic(auto, unfolding(crate::specs::Instr::numbers_of))]
    pub fn numbers(&self) -> [u32; 12]
        ensures { result ≡ numbers_of self.now }
    {
        [
            self.pc,
            self.op as u32,
            self.rd as u32,
            self.rs1 as u32,
            self.rs2 as u32,
            self.write as u32,
            self.use_imm as u32,
            self.imm[0] as u32,
            self.imm[1] as u32,
            self.imm[2] as u32,
            self.imm[3] as u32,
            self.target,
        ]
    }
}
