// The events of a page at both ends of a segment.
ghost use Rattle.std.specs.Prelude.{◌≡◌, ◌<◌, ◌≤◌, ◌++◌, ◌∷◌, [], OnErr, OnOk};
ghost use Rattle.air_core.specs.Sink.{Handed, HandedSome};
ghost use Rattle.offline_memory.specs.MemoryEvents.{block_events, boundary_events};
ghost use Rattle.offline_memory.specs.Pages.{block_of};
ghost use Rattle.vm_trace.specs.Pages.{block_pointer, block_word, page_space};

use crate::{OutOfMemory, Touched};
use air_core::{Event, EventSink, Side, Tuple, hand_counted};
use vm_trace::SPACE_PAGES;

// The bus on which memory is met.
const MEMORY_BUS: u8 = 2;

// A block of a page with the word that it has in these bytes, as the memory bus says it.
fn cell(page: &Touched, bytes: &[u8; 64], block: u32, time: u32) -> Tuple
    requires { block < 16 }
    ensures { result ≡ page_space page.now.label ∷ block_pointer page.now.label block ∷ (block_word bytes.now block ++ time ∷ []) }
{
    let space = page.label / SPACE_PAGES;
    let pointer = 64 * (page.label % SPACE_PAGES) + 4 * block;
    let place = 4 * block as usize;
    Tuple::of(&[
        space,
        pointer,
        bytes[place] as u32,
        bytes[place + 1] as u32,
        bytes[place + 2] as u32,
        bytes[place + 3] as u32,
        time,
    ])
}

// A block's old word sent at time 0, and its new word received at its final time.
fn block_ends(page: &Touched, block: u32) -> [Event; 2]
    requires { block < 16 }
    ensures { result ≡ block_events (block_of page.now block) }
{
    let time = page.times[block as usize];
    [
        Event {
            bus: MEMORY_BUS,
            side: Side::Send,
            tuple: cell(page, &page.old, block, 0),
            count: 1,
        },
        Event {
            bus: MEMORY_BUS,
            side: Side::Receive,
            tuple: cell(page, &page.new, block, time),
            count: 1,
        },
    ]
}

/// Hands the events of a page's blocks to a sink, block by block: the old word is sent at time 0, and
/// the new word received at the block's final time. It fails only where the sink does.
pub fn boundary_events<S: EventSink>(page: &Touched, sink: &mut S) -> Result<(), OutOfMemory>
    requires { 32 ≤ S.room sink.old }
    ensures ok { OnOk result (Handed S.holds S.room sink.old sink.new (boundary_events page.now)) }
    ensures err { OnErr result (HandedSome S.holds S.room sink.old sink.new (boundary_events page.now)) }
{
    for block in 0..16 {
        hand_counted(&block_ends(page, block), sink)?;
    }
    Ok(())
}
