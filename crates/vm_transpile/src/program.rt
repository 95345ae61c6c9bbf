// Program rows, found by place and by pc.
ghost use Rattle.std.specs.Prelude.{◌≡◌, ◌==◌, ◌↔◌, [], length, slice_get, find, position, IsTrue};

use std::marker::Model;
use vm_isa::VmInstr;

/// The rows of a program in rising order of pc, each in range, seen as their list. The place of a row counts from 0.
#[derive(Debug, Drop)]
pub struct Program {
    rows: Vec<VmInstr>,
}

impl Model for Program {
    ghost use Rattle.std.specs.Prelude.{List};
    ghost use Rattle.vm_isa.specs.declared.instr.VmInstr.{VmInstr as Row};

    ghost Value = { List Row };

    ghost use Rattle.vm_transpile.specs.Order.{RisesFrom};

    ghost view = { λ program. program.rows.items };

    ghost use Rattle.std.specs.Prelude.{All};
    ghost use Rattle.vm_isa.specs.Instr.{InRange};

    ghost invariant = { λ program. RisesFrom 0 program.rows.items × All InRange program.rows.items };
}

impl Program {
    ghost use Rattle.std.specs.Prelude.{All};
    ghost use Rattle.vm_isa.specs.Instr.{InRange};
    ghost use Rattle.vm_transpile.specs.Order.{RisesFrom};

    pub(crate) fn new(rows: Vec<VmInstr>) -> Program
        requires rises { RisesFrom 0 rows.items }
        requires in_range { All InRange rows.items }
        ensures { result ≡ rows.items }
    {
        Program { rows }
    }

    /// Law: each row is in range.
    pub fn rows_are_in_range(&self)
        ensures { All InRange self.now }
    {
        let _ = &self.rows;
    }

    /// Law: the rows stand in rising order of pc.
    pub fn rows_rise(&self)
        ensures { RisesFrom 0 self.now }
    {
        let _ = &self.rows;
    }

    /// How many rows there are: fewer than text words, where some are no instructions.
    pub fn len(&self) -> u32
        ensures { result ≡ length self.now }
    {
        self.rows.len() as u32
    }

    pub fn is_empty(&self) -> bool
        ensures { IsTrue result ↔ (self.now ≡ []) }
    {
        self.rows.is_empty()
    }

    /// The row at a place, by which a table file names it.
    pub fn at(&self, place: u32) -> Option<VmInstr>
        ensures { result ≡ slice_get self.now place }
    {
        self.rows.get(place as usize).copied()
    }

    /// The row with this pc, found by halving.
    pub fn lookup(&self, pc: u32) -> Option<VmInstr>
        ensures { result ≡ find (λ row. row.pc == pc) self.now }
    {
        self.at(self.place(pc)?)
    }

    /// The place of the row with this pc, found by halving.
    pub fn place(&self, pc: u32) -> Option<u32>
        ensures { result ≡ position (λ row. row.pc == pc) self.now }
    {
        match self.rows.binary_search_by_key(&pc, |row| row.pc) {
            Ok(place) => Some(place as u32),
            Err(_) => None,
        }
    }
}
