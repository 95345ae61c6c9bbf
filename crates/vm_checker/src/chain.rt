// The segments of a file, one after another.
ghost use Rattle.std.specs.Prelude.{◌≡◌, ◌+◌, ◌<◌, ◌^◌, true, None, IfOk};
ghost use Rattle.vm_host.specs.declared.Slot.TheVariants.{Second};
ghost use Rattle.readings.specs.Readings.{by_mark};
ghost use Rattle.readings.specs.Told.{Is};
ghost use Rattle.vm_transpile.specs.Program.{program_of};
ghost use Rattle.table_format.specs.Stream.{ReadsBy};
ghost use Rattle.vm_checker.specs.Chain.{IsEmptyChain, GoesOn, KeepsSegments};
ghost use Rattle.vm_checker.specs.FirstReason.{open_test, segment_alone};
ghost use Rattle.vm_checker.specs.Items.{mark_of, more_test, segments_of};

use crate::Before;
use crate::segment::check_segment;
use air_core::{Extension, OutOfMemory};
use elf_image::Image;
use page_tree::Tree;
use readings::Stop;
use std::alloc::Global;
use table_format::{Reason, Stream};
use vm_host::Host;
use vm_transpile::Program;

/// How many segments a file may have.
const MOST_SEGMENTS: u32 = 4096;

/// What is kept of the segments that were read.
#[derive(Drop)]
pub(crate) struct Chain {
    /// Where the next one is to begin.
    pub(crate) next: Before,
    /// Whether the last one says that it ends.
    pub(crate) ended: bool,
    pub(crate) segments: u32,
    /// The bytes of the hints that they spell.
    pub(crate) hints: Vec<u8>,
}

// None yet: the first one is to begin at the image's own start.
fn begin(alloc: Global, image: &Image) -> Result<Chain, OutOfMemory>
    ensures { IfOk result (λ chain. IsEmptyChain image.now chain) }
{
    let tree = Tree::of_image(alloc, image)?;
    let root = tree.root();
    Ok(Chain {
        next: Before {
            root,
            pc: image.entry(),
        },
        ended: false,
        segments: 0,
        hints: Vec::new(alloc),
    })
}

// Why a mark is refused that says whether one more segment follows.
fn mark_reason(ended: bool, segments: u32, more: bool) -> Option<Reason>
    ensures { result ≡ by_mark (more_test ended segments) (open_test ended) more }
{
    if !more {
        return if ended { None } else { Some(Reason::NoEnd) };
    }
    if segments == MOST_SEGMENTS {
        return Some(Reason::TooManySegments);
    }
    if ended {
        Some(Reason::EarlyEnd {
            segment: segments.saturating_sub(1),
        })
    } else {
        None
    }
}

// Whether one more segment follows.
fn take_mark<H: Host>(
    stream: &mut Stream,
    host: &mut H,
    ended: bool,
    segments: u32,
) -> Result<bool, Stop<Reason>>
    requires open { ((H.state host.old).input Second).is_open ≡ true }
    ensures reads { ReadsBy (mark_of ended segments) Is stream.old stream.new (H.state host.old) (H.state host.new) result }
    ensures passes { IfOk result (λ more. by_mark (more_test ended segments) (open_test ended) more ≡ None) }
{
    let more = stream.flag(host)?;
    match mark_reason(ended, segments, more) {
        Some(reason) => Err(Stop::Refused(reason)),
        None => Ok(more),
    }
}

// One more segment, which begins where the last one ended.
fn take_segment<E: Extension, H: Host>(
    alloc: Global,
    stream: &mut Stream,
    host: &mut H,
    ext: &E,
    version: u32,
    program: &Program,
    chain: &mut Chain,
) -> Result<(), Stop<Reason>>
    requires open { ((H.state host.old).input Second).is_open ≡ true }
    requires counted { chain.old.segments + 1 < 2 ^ 32 }
    ensures { ReadsBy (segment_alone (E.system ext.now) program.now version (Some chain.old.next) chain.old.segments) (λ s unit. GoesOn (E.system ext.now) s chain.old chain.new)
        stream.old stream.new (H.state host.old) (H.state host.new) result }
{
    let facts = check_segment(
        alloc,
        ext,
        version,
        program,
        stream,
        host,
        chain.segments,
        Some(chain.next),
    )?;
    chain.hints.extend_from_slice(facts.hints.as_slice())?;
    let root = facts.end;
    chain.next = Before {
        root,
        pc: facts.connector.pc_end,
    };
    chain.ended = facts.connector.ends;
    chain.segments += 1;
    Ok(())
}

/// All segments of a file, up to the mark that no more follow.
pub(crate) fn take_segments<E: Extension, H: Host>(
    alloc: Global,
    stream: &mut Stream,
    host: &mut H,
    ext: &E,
    version: u32,
    image: &Image,
    program: &Program,
) -> Result<Chain, Stop<Reason>>
    requires open { ((H.state host.old).input Second).is_open ≡ true }
    requires program { program.now ≡ program_of image.now }
    ensures { ReadsBy (segments_of (E.system ext.now) image.now version) (KeepsSegments (E.system ext.now) image.now)
        stream.old stream.new (H.state host.old) (H.state host.new) result }
{
    let mut chain = begin(alloc, image)?;
    for _ in 0..MOST_SEGMENTS {
        if !take_mark(stream, host, chain.ended, chain.segments)? {
            return Ok(chain);
        }
        take_segment(alloc, stream, host, ext, version, program, &mut chain)?;
    }
    take_mark(stream, host, chain.ended, chain.segments)?;
    Ok(chain)
}
