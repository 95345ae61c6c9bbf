// The pages of a segment and the siblings that open them.
ghost use Rattle.std.specs.Prelude.{◌≡◌, ◌^◌, ◌<◌, ◌≤◌, List, flat_map, length, true, None, IfOk};
ghost use Rattle.std.specs.List.Sorted.{IsStrictlyIncreasing};
ghost use Rattle.vm_host.specs.declared.Slot.TheVariants.{Second};
ghost use Rattle.air_core.specs.declared.event.Event.{Event as AnEvent};
ghost use Rattle.air_core.specs.Sink.{Handed};
ghost use Rattle.offline_memory.specs.MemoryEvents.{boundary_events};
ghost use Rattle.page_tree.specs.Opening.{AreLabels, siblings_needed};
ghost use Rattle.page_tree.specs.Parts.{labels_of};
ghost use Rattle.readings.specs.Told.{Is};
ghost use Rattle.table_format.specs.Stream.{ReadsBy};
ghost use Rattle.vm_checker.specs.Items.{number_of, page_of, pages_of, siblings_of};
ghost use Rattle.vm_checker.specs.FirstReason.{page_test};
ghost use Rattle.vm_checker.specs.Heard.{Hears, room_left};

use crate::said::Said;
use crate::whole::{balance_reason, number_reason, page_reason};
use offline_memory::boundary_events;
use page_tree::Digest;
use readings::Stop;
use std::alloc::Global;
use table_format::{Reason, Stream};
use vm_host::Host;
use vm_trace::Touched;

// A page at its place, whose label is at least so much.
fn take_page<H: Host>(
    stream: &mut Stream,
    host: &mut H,
    said: &mut Said,
    segment: u32,
    number: u32,
    least: u64,
) -> Result<Touched, Stop<Reason>>
    requires open { ((H.state host.old).input Second).is_open ≡ true }
    requires room { 32 ≤ room_left said.old }
    ensures reads { ReadsBy (page_of segment (record { number = number; least = least })) (λ page k. (k ≡ page) × Handed Hears room_left said.old said.new (boundary_events page))
        stream.old stream.new (H.state host.old) (H.state host.new) result }
    ensures passes { IfOk result (λ page. page_test segment (record { number = number; least = least }) page ≡ None) }
{
    let page = stream.page(host)?;
    if let Some(reason) = page_reason(segment, number, least, &page) {
        return Err(Stop::Refused(reason));
    }
    boundary_events(&page, said)?;
    Ok(page)
}

/// The pages, in rising order of their labels.
pub(crate) fn take_pages<H: Host>(
    alloc: Global,
    stream: &mut Stream,
    host: &mut H,
    said: &mut Said,
    segment: u32,
) -> Result<Vec<Touched>, Stop<Reason>>
    requires open { ((H.state host.old).input Second).is_open ≡ true }
    requires room { 2 ^ 37 ≤ room_left said.old }
    ensures reads { ReadsBy (pages_of segment) (λ pages k. (k.items ≡ pages) × Handed Hears room_left said.old said.new (flat_map boundary_events pages))
        stream.old stream.new (H.state host.old) (H.state host.new) result }
    ensures rising { IfOk result (λ pages. IsStrictlyIncreasing (labels_of pages.items)) }
    ensures labels { IfOk result (λ pages. AreLabels (labels_of pages.items)) }
{
    let count = stream.number(host)?;
    let mut pages = Vec::new(alloc);
    let mut least = 0;
    for number in 0..count {
        let page = take_page(stream, host, said, segment, number, least)?;
        least = page.label as u64 + 1;
        pages.push(page)?;
    }
    Ok(pages)
}

// The number of siblings, where the buses balance and the opening needs so many.
fn take_number<H: Host>(
    alloc: Global,
    stream: &mut Stream,
    host: &mut H,
    said: &Said,
    pages: &[Touched],
    segment: u32,
) -> Result<u32, Stop<Reason>>
    requires open { ((H.state host.old).input Second).is_open ≡ true }
    requires rising { IsStrictlyIncreasing (labels_of pages.now) }
    requires in_tree { AreLabels (labels_of pages.now) }
    ensures reads { (events : List AnEvent) → Hears said.now events → ReadsBy (number_of segment events pages.now) Is stream.old stream.new (H.state host.old) (H.state host.new) result }
    ensures right { IfOk result (λ number. number ≡ siblings_needed (labels_of pages.now)) }
{
    let given = stream.number(host)?;
    if let Some(reason) = balance_reason(said, segment) {
        return Err(Stop::Refused(reason));
    }
    match number_reason(alloc, pages, given, segment)? {
        Some(reason) => Err(Stop::Refused(reason)),
        None => Ok(given),
    }
}

/// The siblings, as many as the opening needs.
pub(crate) fn take_siblings<H: Host>(
    alloc: Global,
    stream: &mut Stream,
    host: &mut H,
    said: &Said,
    pages: &[Touched],
    segment: u32,
) -> Result<Vec<Digest>, Stop<Reason>>
    requires open { ((H.state host.old).input Second).is_open ≡ true }
    requires rising { IsStrictlyIncreasing (labels_of pages.now) }
    requires in_tree { AreLabels (labels_of pages.now) }
    requires heard { (events : List AnEvent) × Hears said.now events }
    ensures reads { (events : List AnEvent) → Hears said.now events → ReadsBy (siblings_of segment events pages.now) (λ digests k. k.items ≡ digests)
        stream.old stream.new (H.state host.old) (H.state host.new) result }
    ensures right { IfOk result (λ siblings. length siblings.items ≡ siblings_needed (labels_of pages.now)) }
    ensures few { IfOk result (λ siblings. length siblings.items < 2 ^ 32) }
{
    let count = take_number(alloc, stream, host, said, pages, segment)?;
    let mut siblings = Vec::new(alloc);
    for _ in 0..count {
        let digest = stream.digest(host)?;
        siblings.push(digest)?;
    }
    Ok(siblings)
}
