// A segment, tested as it is read.
ghost use Rattle.std.specs.Prelude.{◌≡◌, ◌^◌, ◌<◌, ◌≤◌, [], length, true, IfOk, OnOk};
ghost use Rattle.std.specs.List.{AllByRecursion};
ghost use Rattle.std.specs.List.Sorted.{IsStrictlyIncreasing};
ghost use Rattle.vm_host.specs.declared.Slot.TheVariants.{Second};
ghost use Rattle.page_tree.specs.Opening.{AreLabels, siblings_needed};
ghost use Rattle.page_tree.specs.Parts.{labels_of};
ghost use Rattle.vm_trace.specs.Limits.{limits_of};
ghost use Rattle.table_format.specs.Items.{bounds_in};
ghost use Rattle.table_format.specs.Stream.{ReadsBy};
ghost use Rattle.air_core.specs.Sink.{Handed};
ghost use Rattle.exec_path.specs.PathEvents.{connector_events};
ghost use Rattle.vm_checker.specs.Heard.{Hears, room_left};
ghost use Rattle.vm_checker.specs.Facts.{AreFacts, IsSegment, code_at};
ghost use Rattle.vm_checker.specs.FirstReason.{segment_alone};
ghost use Rattle.vm_checker.specs.Items.{inside_of};
ghost use Rattle.vm_checker.specs.Inside.{IsInside};

use crate::Before;
use crate::counts::take_counts;
use crate::heights::take_codes;
use crate::hints::HintBytes;
use crate::pages::{take_pages, take_siblings};
use crate::spelled::push_hints;
use crate::tables::take_tables;
use crate::tally::Tally;
use crate::whole::{exit_code, whole_reason};
use air_core::bus::EXECUTION;
use air_core::{Event, EventSink, Extension, OutOfMemory, Side, Tuple};
use page_tree::Digest;
use readings::Stop;
use std::alloc::Global;
use table_format::item::{Bounds, Connector};
use table_format::{Reason, Stream};
use vm_host::Host;
use vm_trace::Touched;
use vm_transpile::Program;

// What is kept of a segment behind its codes.
#[derive(Drop)]
pub(crate) struct Taken {
    pub(crate) tally: Tally,
    pub(crate) pages: Vec<Touched>,
    pub(crate) siblings: Vec<Digest>,
}

// The start is sent at time 1, and the end received.
fn hand_connector<S: EventSink>(connector: &Connector, sink: &mut S) -> Result<(), OutOfMemory>
    requires { 2 ≤ S.room sink.old }
    ensures { OnOk result (Handed S.holds S.room sink.old sink.new (connector_events (record { pc = connector.now.pc_start; time = 1 }) (record { pc = connector.now.pc_end; time = connector.now.end_time }))) }
{
    sink.take(&Event {
        bus: EXECUTION,
        side: Side::Send,
        tuple: Tuple::of(&[connector.pc_start, 1]),
        count: 1,
    })?;
    sink.take(&Event {
        bus: EXECUTION,
        side: Side::Receive,
        tuple: Tuple::of(&[connector.pc_end, connector.end_time]),
        count: 1,
    })
}

// A tally that has heard the connector.
fn begin(alloc: Global, connector: &Connector) -> Result<Tally, OutOfMemory>
    ensures said { IfOk result (λ tally. Hears tally.said (connector_events (record { pc = connector.now.pc_start; time = 1 }) (record { pc = connector.now.pc_end; time = connector.now.end_time }))) }
    ensures room { IfOk result (λ tally. 2 ^ 95 ≤ room_left tally.said) }
    ensures hints { IfOk result (λ tally. tally.hints.items ≡ []) }
    ensures valid { IfOk result (λ tally. tally.valid ≡ 0) }
{
    let mut tally = Tally::new(alloc);
    hand_connector(connector, &mut tally.said)?;
    Ok(tally)
}

// What stands behind the codes: the rows of all tables, the counts, the pages and the siblings.
pub(crate) fn take_inside<E: Extension, H: Host>(
    alloc: Global,
    stream: &mut Stream,
    host: &mut H,
    ext: &E,
    program: &Program,
    bounds: &Bounds,
    codes: &[u8],
    segment: u32,
) -> Result<Taken, Stop<Reason>>
    requires open { ((H.state host.old).input Second).is_open ≡ true }
    requires number { length codes.now ≡ length (E.system ext.now).parts }
    requires low { AllByRecursion (λ code. code ≤ 25) codes.now }
    ensures reads { ReadsBy (inside_of (E.system ext.now) program.now segment (bounds_in bounds.now) codes.now) (IsInside (E.system ext.now))
        stream.old stream.new (H.state host.old) (H.state host.new) result }
    ensures opens { IfOk result (λ inside. IsStrictlyIncreasing (labels_of inside.pages.items) × (AreLabels (labels_of inside.pages.items) × ((length inside.siblings.items ≡ siblings_needed (labels_of inside.pages.items)) × (length inside.siblings.items < 2 ^ 32)))) }
{
    let mut tally = begin(alloc, &bounds.connector)?;
    take_tables(alloc, stream, host, ext, codes, &mut tally, segment)?;
    take_counts(stream, host, program, &mut tally.said)?;
    let pages = take_pages(alloc, stream, host, &mut tally.said, segment)?;
    let siblings = take_siblings(alloc, stream, host, &tally.said, &pages, segment)?;
    Ok(Taken {
        tally,
        pages,
        siblings,
    })
}

/// What a segment that stands says.
#[derive(Debug, Drop)]
pub struct SegmentFacts {
    pub connector: Connector,
    /// The roots of the tree of pages before and after it.
    pub start: Digest,
    pub end: Digest,
    /// The exit code of the TERMINATE at its end, where it says that it ends.
    pub code: Option<u8>,
    /// How many of its rows are valid.
    pub rows: u64,
    /// The hint bytes that its rows write, in the order of their times.
    pub hints: HintBytes,
}

// The greatest code of a height in a version.
fn greatest_code(version: u32) -> u8
    ensures greatest { result ≡ (limits_of version).greatest_code }
    ensures small { result ≤ 25 }
{
    if version == 1 { 21 } else { 25 }
}

fn end_code(program: &Program, connector: &Connector) -> Option<u8>
    ensures { result ≡ code_at program.now connector.now }
{
    if connector.ends {
        exit_code(program, connector.pc_end)
    } else {
        None
    }
}

fn facts_of(
    alloc: Global,
    program: &Program,
    bounds: &Bounds,
    tally: &Tally,
) -> Result<SegmentFacts, OutOfMemory>
    ensures { IfOk result (λ facts. AreFacts program.now bounds.now tally.now facts) }
{
    let mut hints = Vec::new(alloc);
    push_hints(alloc, &mut hints, &tally.hints)?;
    let start = bounds.start;
    let end = bounds.end;
    Ok(SegmentFacts {
        connector: bounds.connector,
        start,
        end,
        code: end_code(program, &bounds.connector),
        rows: tally.valid,
        hints: HintBytes::of(hints),
    })
}

/// Reads and tests one segment of a version, from the first byte behind its mark, and answers with what it says.
///
/// `place` is its number among the segments of a file, which reasons name. `before` is where it is to begin, if that is
/// known. It is refused with the first test that fails. `Fault` comes only where the host's count of faults rose.
pub fn check_segment<E: Extension, H: Host>(
    alloc: Global,
    ext: &E,
    version: u32,
    program: &Program,
    stream: &mut Stream,
    host: &mut H,
    place: u32,
    before: Option<Before>,
) -> Result<SegmentFacts, Stop<Reason>>
    requires open { ((H.state host.old).input Second).is_open ≡ true }
    ensures { ReadsBy (segment_alone (E.system ext.now) program.now version before place) (IsSegment (E.system ext.now) program.now)
        stream.old stream.new (H.state host.old) (H.state host.new) result }
{
    let bounds = stream.bounds(host)?;
    let codes = take_codes(alloc, stream, host, ext, greatest_code(version), place)?;
    let inside = take_inside(alloc, stream, host, ext, program, &bounds, &codes, place)?;
    if let Some(reason) = whole_reason(
        program,
        before,
        place,
        &bounds,
        &inside.pages,
        &inside.siblings,
    ) {
        return Err(Stop::Refused(reason));
    }
    let facts = facts_of(alloc, program, &bounds, &inside.tally)?;
    Ok(facts)
}
