//! A segment, made of its records.
ghost use Rattle.std.specs.Prelude.{◌≡◌, ℕ, List, IfOk};
ghost use Rattle.vm_trace.specs.File.{Segment};
ghost use Rattle.page_tree.specs.Kept.{leaves_of};
ghost use Rattle.vm_executor.specs.State.{machine_of, program_of};
ghost use Rattle.vm_prover.specs.Segments.{IsMade, IsReadyFor, Run};

use crate::OutOfMemory;
use crate::laws::segments_go_on;
use crate::opening::{Opening, open_pages};
use crate::records::take_records;
use air_core::Extension;
use page_tree::Tree;
use std::alloc::Global;
use table_format::item::Connector;
use vm_executor::Machine;
use vm_filler::fill_segment;
use vm_trace::{Tables, Touched};
use vm_transpile::Program;

/// What a segment is written from.
#[derive(Drop)]
pub struct Parts {
    pub connector: Connector,
    pub opening: Opening,
    pub tables: Tables,
    pub pages: Vec<Touched>,
}

/// Runs a machine for so many steps, makes a segment of them, and puts its pages into the tree of its memory.
pub fn make_segment<E: Extension>(
    alloc: Global,
    ext: &E,
    program: &Program,
    machine: &mut Machine<'_>,
    tree: &mut Tree,
    count: u32,
    ends: bool,
) -> Result<Parts, OutOfMemory>
    requires same { program_of machine.old ≡ program.now }
    requires ready { (run : Run (E.system ext.now)) × ((segments : List Segment) × ((lengths : List ℕ) × IsReadyFor run program.now (machine_of machine.old) (leaves_of tree.old) segments lengths count)) }
    ensures program { program_of machine.new ≡ program_of machine.old }
    ensures made { IfOk result (λ parts. (run : Run (E.system ext.now)) (segments : List Segment) (lengths : List ℕ) → IsReadyFor run program.now (machine_of machine.old) (leaves_of tree.old) segments lengths count
        → IsMade run ends segments lengths count (machine_of machine.new) (leaves_of tree.new) parts) }
{
    segments_go_on::<E>();
    let pc_start = machine.pc();
    let records = take_records(alloc, machine, count)?;
    let tables = fill_segment(alloc, ext, program, &records)?;
    let pages = machine.touched()?;
    let opening = open_pages(alloc, tree, &pages)?;
    let connector = Connector {
        pc_start,
        pc_end: machine.pc(),
        end_time: machine.time(),
        ends,
    };
    Ok(Parts {
        connector,
        opening,
        tables,
        pages,
    })
}
