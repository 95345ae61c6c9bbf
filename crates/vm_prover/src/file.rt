//! The file of a run, segment by segment.
ghost use Rattle.std.specs.Prelude.{◌≡◌, ℕ, true, OnOk};
ghost use Rattle.vm_trace.specs.File.{Segment};
ghost use Rattle.page_tree.specs.Kept.{leaves_of};
ghost use Rattle.vm_executor.specs.State.{machine_of, program_of};
ghost use Rattle.vm_isa.specs.Words.{IsBytes};
ghost use Rattle.vm_transpile.specs.Program.{program_of as rows_of};
ghost use Rattle.acceptance.specs.Example.{IsVersion};
ghost use Rattle.vm_prover.specs.Progress.{CanProve, OwnsRows};
ghost use Rattle.vm_prover.specs.Segments.{GoesOnWriting, IsBegun, IsEnding, IsSegmentOfParts, IsToWrite, IsWholeFile, IsWriting, IsWritten, Run, WritesFile, WritesPiece};

use crate::plan::Ending;
use crate::segment::{Parts, make_segment};
use air_core::Extension;
use elf_image::Image;
use page_tree::Tree;
use std::alloc::Global;
use table_format::TableWriter;
use table_format::item::Claim;
use vm_executor::Machine;
use vm_host::{Host, HostError};
use vm_transpile::{Program, transpile};

fn write_parts<H: Host>(
    writer: &mut TableWriter,
    host: &mut H,
    parts: &Parts,
) -> Result<(), HostError>
    requires open { (H.state host.old).output.creating ≡ true }
    requires segment { (version : ℕ) × (IsWriting version writer.old × ((segment : Segment) × IsSegmentOfParts version parts.now segment)) }
    ensures writes { GoesOnWriting (H.state host.old) (H.state host.new) result }
    ensures written { OnOk result ((version : ℕ) (segment : Segment) → IsWriting version writer.old → IsSegmentOfParts version parts.now segment
        → WritesPiece version segment writer.new (H.state host.old) (H.state host.new)) }
{
    writer.segment(
        host,
        &parts.connector,
        &parts.opening.start,
        &parts.opening.end,
        &parts.tables,
        &parts.pages,
        &parts.opening.siblings,
    )
}

// Runs a machine, and writes its segments, which have so many steps. The last of them says that it ends.
fn write_segments<E: Extension, H: Host>(
    alloc: Global,
    ext: &E,
    program: &Program,
    machine: &mut Machine<'_>,
    tree: &mut Tree,
    lengths: &[u32],
    writer: &mut TableWriter,
    host: &mut H,
) -> Result<(), HostError>
    requires same { program_of machine.old ≡ program.now }
    requires ready { (run : Run (E.system ext.now)) × IsToWrite run program.now lengths.now (machine_of machine.old) (leaves_of tree.old) writer.old (H.state host.old) }
    ensures writes { GoesOnWriting (H.state host.old) (H.state host.new) result }
    ensures written { OnOk result ((run : Run (E.system ext.now)) → IsToWrite run program.now lengths.now (machine_of machine.old) (leaves_of tree.old) writer.old (H.state host.old)
        → IsWritten run true lengths.now (machine_of machine.new) (leaves_of tree.new) writer.new (H.state host.new)) }
{
    let mut begun = 0;
    for count in lengths {
        begun += 1;
        let ends = begun == lengths.len();
        let parts = make_segment(alloc, ext, program, machine, tree, *count, ends)?;
        write_parts(writer, host, &parts)?;
    }
    Ok(())
}

// Runs an image to its end, and writes what stands behind the head.
fn write_run<E: Extension, H: Host>(
    alloc: Global,
    ext: &E,
    image: &Image,
    program: &Program,
    hints: Vec<u8>,
    ending: &Ending,
    writer: &mut TableWriter,
    host: &mut H,
) -> Result<(), HostError>
    requires over { program.now ≡ rows_of image.now }
    requires can { CanProve (E.system ext.now) writer.old.version image.now hints.items }
    requires ends { IsEnding image.now hints.items ending.now }
    requires begun { IsBegun writer.old (H.state host.old) }
    ensures writes { GoesOnWriting (H.state host.old) (H.state host.new) result }
    ensures whole { OnOk result (IsWholeFile (E.system ext.now) writer.old.version image.now hints.items ending.now (H.state host.new)) }
{
    let mut machine = Machine::new(alloc, program, image, hints);
    let mut tree = Tree::of_image(alloc, image)?;
    let lengths = ending.lengths.as_slice();
    write_segments(
        alloc,
        ext,
        program,
        &mut machine,
        &mut tree,
        lengths,
        writer,
        host,
    )?;
    let claim = Claim {
        code: ending.code,
        public: ending.public,
        path: tree.public_path(),
    };
    writer.finish(host, &claim)
}

// The elements of a vector of bytes are bytes.
fn are_bytes(bytes: &Vec<u8>)
    ensures { IsBytes bytes.now.items }
{
    let _ = bytes;
}

/// Writes the file of a run that ends so, under this name.
pub fn write_file<E: Extension, H: Host>(
    alloc: Global,
    ext: &E,
    version: u32,
    image: &Image,
    hints: Vec<u8>,
    ending: &Ending,
    host: &mut H,
    name: &str,
) -> Result<(), HostError>
    requires version { IsVersion version (E.system ext.now).time_bits }
    requires owns { OwnsRows (E.system ext.now) (rows_of image.now) }
    requires ends { IsEnding image.now hints.items ending.now }
    ensures { WritesFile (E.system ext.now) version image.now hints.items ending.now name.now (H.state host.old) (H.state host.new) result }
{
    image.is_of_a_file();
    are_bytes(&hints);
    let program = transpile(alloc, image)?;
    let mut writer = TableWriter::begin_as(alloc, version, host, name)?;
    write_run(
        alloc,
        ext,
        image,
        &program,
        hints,
        ending,
        &mut writer,
        host,
    )
}
