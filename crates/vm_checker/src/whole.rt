// The tests of a segment, and the reasons for which they fail.
ghost use Rattle.std.specs.Prelude.{◌≡◌, ◌<◌, ◌^◌, List, length, IfOk};
ghost use Rattle.std.specs.List.{AllByRecursion};
ghost use Rattle.std.specs.List.Sorted.{IsStrictlyIncreasing};
ghost use Rattle.air_core.specs.declared.event.Event.{Event as AnEvent};
ghost use Rattle.page_tree.specs.Opening.{AreLabels, siblings_needed};
ghost use Rattle.page_tree.specs.Parts.{labels_of};
ghost use Rattle.vm_checker.specs.FirstReason.{balance_test, end_root_test, end_test, exit_code, has_pc, has_root, is_machine_label, number_test, page_test, slots_of, slots_test, start_pc_test, start_root_test};
ghost use Rattle.vm_checker.specs.Heard.{Hears};
ghost use Rattle.vm_checker.specs.Items.{bounds_test};

use crate::Before;
use crate::said::Said;
use air_core::{Extension, OutOfMemory};
use page_tree::{Digest, roots_of, sibling_count};
use std::alloc::Global;
use table_format::Reason;
use table_format::item::Bounds;
use vm_isa::opcode::TERMINATE;
use vm_trace::{MEMORY_LABEL, PUBLIC_LABEL, REGISTER_LABEL, Touched};
use vm_transpile::Program;

/// The exit code of the TERMINATE at a pc, where one stands there.
pub(crate) fn exit_code(program: &Program, pc: u32) -> Option<u8>
    ensures { result ≡ exit_code program.now pc }
{
    let row = program.lookup(pc)?;
    if row.op == TERMINATE {
        Some(row.imm[0])
    } else {
        None
    }
}

fn is_machine_label(label: u32) -> bool
    ensures { result ≡ is_machine_label label }
{
    label == REGISTER_LABEL
        || label == REGISTER_LABEL + 1
        || (MEMORY_LABEL <= label && label < PUBLIC_LABEL)
        || label == PUBLIC_LABEL
}

/// Why a page is refused at its place, where labels are at least so much.
pub(crate) fn page_reason(segment: u32, number: u32, least: u64, page: &Touched) -> Option<Reason>
    ensures { result ≡ page_test segment (record { number = number; least = least }) page.now }
{
    if (page.label as u64) < least {
        Some(Reason::PageOrder {
            segment,
            page: number,
        })
    } else if is_machine_label(page.label) {
        None
    } else {
        Some(Reason::PageSpace {
            segment,
            page: number,
        })
    }
}

/// Why the buses don't balance.
pub(crate) fn balance_reason(said: &Said, segment: u32) -> Option<Reason>
    ensures { (events : List AnEvent) → Hears said.now events → result ≡ balance_test segment events }
{
    let found = said.least_unbalanced()?;
    Some(Reason::Unbalanced {
        segment,
        bus: found.bus,
        tuple: found.tuple,
        sent: found.sent,
        received: found.received,
    })
}

#[tactic(auto, unfolding(page_tree::specs::Parts::labels_of))]
fn labels(alloc: Global, pages: &[Touched]) -> Result<Vec<u32>, OutOfMemory>
    ensures { IfOk result (λ labels. labels.items ≡ labels_of pages.now) }
{
    let mut labels = Vec::new(alloc);
    for page in pages {
        labels.push(page.label)?;
    }
    Ok(labels)
}

/// Why so many siblings can't open these pages.
pub(crate) fn number_reason(
    alloc: Global,
    pages: &[Touched],
    given: u32,
    segment: u32,
) -> Result<Option<Reason>, OutOfMemory>
    requires rising { IsStrictlyIncreasing (labels_of pages.now) }
    requires in_tree { AreLabels (labels_of pages.now) }
    ensures { IfOk result (λ reason. reason ≡ number_test segment pages.now given) }
{
    let labels = labels(alloc, pages)?;
    let needed = sibling_count(&labels);
    if given == needed {
        Ok(None)
    } else {
        Ok(Some(Reason::Siblings {
            segment,
            needed,
            given,
        }))
    }
}

// Whether a segment begins at this root, where it is known at which it is to begin.
fn has_root(before: Option<Before>, root: &Digest) -> bool
    ensures { result ≡ has_root before root.now }
{
    match before {
        Some(before) => *root == before.root,
        None => true,
    }
}

fn has_pc(before: Option<Before>, pc: u32) -> bool
    ensures { result ≡ has_pc before pc }
{
    match before {
        Some(before) => pc == before.pc,
        None => true,
    }
}

/// Why a segment that was read whole is refused. It is to begin where the one before it ended, if that is known.
pub(crate) fn whole_reason(
    program: &Program,
    before: Option<Before>,
    segment: u32,
    bounds: &Bounds,
    pages: &[Touched],
    siblings: &[Digest],
) -> Option<Reason>
    requires rising { IsStrictlyIncreasing (labels_of pages.now) }
    requires in_tree { AreLabels (labels_of pages.now) }
    requires number { length siblings.now ≡ siblings_needed (labels_of pages.now) }
    requires few { length siblings.now < 2 ^ 32 }
    ensures { result ≡ bounds_test program.now before segment bounds.now pages.now siblings.now }
{
    let Ok(roots) = roots_of(pages, siblings) else {
        unreachable!()
    };
    let connector = &bounds.connector;
    if !has_root(before, &bounds.start) || bounds.start != roots.0 {
        return Some(Reason::RootStart { segment });
    }
    if bounds.end != roots.1 {
        return Some(Reason::RootEnd { segment });
    }
    if !has_pc(before, connector.pc_start) {
        return Some(Reason::PcChain { segment });
    }
    if connector.ends && exit_code(program, connector.pc_end).is_none() {
        return Some(Reason::NotTerminate { segment });
    }
    None
}
