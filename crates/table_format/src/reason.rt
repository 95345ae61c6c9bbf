//! Why a table file is rejected.

ghost use Rattle.std.specs.Prelude.{◌≡◌, IfOk, string_bytes};
ghost use Rattle.table_format.specs.Reasons.{reason_text, tuple_text};

use air_core::Tuple;
use std::alloc::{AllocError, Global};

/// The first test that fails, in the order of the file. Offsets count bytes from the file's start; segments,
/// tables, rows, constraints and pages count from 0.
#[derive(Clone, Copy, Debug, PartialEq, Eq)]
pub enum Reason {
    /// The file ends inside the item being read. The offset is that of the first missing byte.
    Cut {
        offset: u64,
    },
    /// The first eight bytes aren't the form's name.
    Magic,
    /// There is no such version.
    Version {
        version: u32,
    },
    /// A mark is neither 0 nor 1.
    Marker {
        offset: u64,
    },
    /// A segment follows 4,096 others.
    TooManySegments,
    /// A segment follows one that says that it is the last.
    EarlyEnd {
        segment: u32,
    },
    /// A pc, a time or a value of a row is the field's prime or more.
    NotCanonical {
        offset: u64,
    },
    /// The code of a height is above the version's greatest.
    Height {
        segment: u32,
        table: u32,
    },
    /// The tables have more slots than the version has times.
    SlotSum {
        segment: u32,
    },
    /// A constraint isn't 0 on a row.
    Row {
        segment: u32,
        table: u32,
        row: u32,
        constraint: u32,
    },
    /// An entry's count is 0, or its place isn't above the one before it or isn't in its table.
    CountEntry {
        offset: u64,
    },
    /// A label isn't above the one before it.
    PageOrder {
        segment: u32,
        page: u32,
    },
    /// A label is none of the machine's.
    PageSpace {
        segment: u32,
        page: u32,
    },
    /// A bus and a tuple are not sent as often as received.
    Unbalanced {
        segment: u32,
        bus: u8,
        tuple: Tuple,
        sent: u128,
        received: u128,
    },
    /// The opening needs another number of siblings.
    Siblings {
        segment: u32,
        needed: u32,
        given: u32,
    },
    /// The start root isn't the one before it, or isn't the opening's.
    RootStart {
        segment: u32,
    },
    /// The end root isn't the opening's.
    RootEnd {
        segment: u32,
    },
    /// The segment doesn't begin where the one before it ended.
    PcChain {
        segment: u32,
    },
    /// The last segment doesn't end at a TERMINATE.
    NotTerminate {
        segment: u32,
    },
    /// No segment says that it is the last.
    NoEnd,
    /// The claimed exit code isn't the TERMINATE's.
    ExitCode {
        stated: u8,
        found: u8,
    },
    /// The path of the public bytes doesn't lead to the last root.
    Public,
    /// A byte follows the claim.
    Trailing {
        offset: u64,
    },
}

impl Reason {
    /// The reason in words and decimal numbers, without a newline. It fails only where memory is out.
    pub fn text(&self, alloc: Global) -> Result<String, AllocError>
        ensures { IfOk result (λ text. string_bytes text ≡ reason_text self.now) }
    {
        match self {
            Reason::Cut { offset } => format!(in alloc; "cut {offset}"),
            Reason::Magic => String::from_str(alloc, "magic"),
            Reason::Version { version } => format!(in alloc; "version {version}"),
            Reason::Marker { offset } => format!(in alloc; "marker {offset}"),
            Reason::TooManySegments => String::from_str(alloc, "too-many-segments"),
            Reason::EarlyEnd { segment } => format!(in alloc; "early-end {segment}"),
            Reason::NotCanonical { offset } => format!(in alloc; "not-canonical {offset}"),
            Reason::Height { segment, table } => format!(in alloc; "height {segment} {table}"),
            Reason::SlotSum { segment } => format!(in alloc; "slot-sum {segment}"),
            Reason::Row {
                segment,
                table,
                row,
                constraint,
            } => { format!(in alloc; "row {segment} {table} {row} {constraint}") }
            Reason::CountEntry { offset } => format!(in alloc; "count-entry {offset}"),
            Reason::PageOrder { segment, page } => format!(in alloc; "page-order {segment} {page}"),
            Reason::PageSpace { segment, page } => format!(in alloc; "page-space {segment} {page}"),
            Reason::Unbalanced {
                segment,
                bus,
                tuple,
                sent,
                received,
            } => {
                let tuple = tuple_text(alloc, tuple.as_slice())?;
                format!(in alloc; "unbalanced {segment} {bus} {tuple} {sent} {received}")
            }
            Reason::Siblings {
                segment,
                needed,
                given,
            } => { format!(in alloc; "siblings {segment} {needed} {given}") }
            Reason::RootStart { segment } => format!(in alloc; "root-start {segment}"),
            Reason::RootEnd { segment } => format!(in alloc; "root-end {segment}"),
            Reason::PcChain { segment } => format!(in alloc; "pc-chain {segment}"),
            Reason::NotTerminate { segment } => format!(in alloc; "not-terminate {segment}"),
            Reason::NoEnd => String::from_str(alloc, "no-end"),
            Reason::ExitCode { stated, found } => format!(in alloc; "exit-code {stated} {found}"),
            Reason::Public => String::from_str(alloc, "public"),
            Reason::Trailing { offset } => format!(in alloc; "trailing {offset}"),
        }
    }
}

// A tuple in round brackets, its numbers parted by commas.
fn tuple_text(alloc: Global, numbers: &[u32]) -> Result<String, AllocError>
    ensures { IfOk result (λ text. string_bytes text ≡ tuple_text numbers.now) }
{
    let Some(first) = numbers.first() else {
        return String::from_str(alloc, "()");
    };
    let mut text = format!(in alloc; "({first}")?;
    for number in &numbers[1..] {
        let digits = format!(in alloc; ",{number}")?;
        text.push_str(&digits)?;
    }
    text.push_str(")")?;
    Ok(text)
}
