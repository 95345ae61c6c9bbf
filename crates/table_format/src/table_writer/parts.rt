//! The parts of a segment, and the claim.
ghost use Rattle.std.specs.Prelude.{◌≡◌, ◌<◌, ◌^◌, true, length, slice_index_or, []};
ghost use Rattle.std.specs.List.{flat_map};
ghost use Rattle.vm_trace.specs.Contents.{table_at, counts_of};
ghost use Rattle.table_format.specs.Texts.{number_text, entry_text, rows_text, page_text, raw_text, counted_text};
ghost use Rattle.table_format.specs.Writing.{Puts, AreCountable, bounds_text, digits, code_text, table_text, lists_text, end_text};

use super::put::{put, put_byte, put_digests, put_flag, put_number, put_numbers, put_row};
use crate::item::{Claim, Connector};
use byteorder::{ByteOrder, LittleEndian};
use vm_host::{Host, HostError};
use vm_trace::{CountEntry, CountList, Digest, Tables, Touched};

pub(super) fn put_bounds<H: Host>(
    host: &mut H,
    waiting: &mut Vec<u8>,
    connector: &Connector,
    start: &Digest,
    end: &Digest,
) -> Result<(), HostError>
    requires open { (H.state host.old).output.creating ≡ true }
    ensures { Puts (bounds_text connector.now start.now end.now) waiting.old.items waiting.new.items (H.state host.old) (H.state host.new) result }
{
    put_number(host, waiting, connector.pc_start)?;
    put_number(host, waiting, connector.pc_end)?;
    put_number(host, waiting, connector.end_time)?;
    put_flag(host, waiting, connector.ends)?;
    put(host, waiting, start)?;
    put(host, waiting, end)
}

// The code of a height, which is 0 or a power of two: the number of its binary digits.
fn code_of(height: u32) -> u8
    ensures { result ≡ digits height }
{
    (32 - height.leading_zeros()) as u8
}

pub(super) fn put_codes<H: Host>(
    host: &mut H,
    waiting: &mut Vec<u8>,
    tables: &Tables,
) -> Result<(), HostError>
    requires open { (H.state host.old).output.creating ≡ true }
    ensures { Puts (flat_map code_text tables.now.tables) waiting.old.items waiting.new.items (H.state host.old) (H.state host.new) result }
{
    'tables: for table in 0..tables.tables() {
        let code = code_of(tables.height(table));
        put_byte(host, waiting, code)?;
    }
    Ok(())
}

fn put_row_at<H: Host>(
    host: &mut H,
    waiting: &mut Vec<u8>,
    tables: &Tables,
    table: u32,
    place: u32,
) -> Result<(), HostError>
    requires open { (H.state host.old).output.creating ≡ true }
    requires known { place < length (table_at tables.now table).rows }
    ensures { Puts (flat_map number_text (slice_index_or (table_at tables.now table).rows place [])) waiting.old.items waiting.new.items (H.state host.old) (H.state host.new) result }
{
    match tables.row(table, place) {
        Some(row) => put_row(host, waiting, row),
        None => Ok(()),
    }
}

fn put_rows<H: Host>(
    host: &mut H,
    waiting: &mut Vec<u8>,
    tables: &Tables,
    table: u32,
) -> Result<(), HostError>
    requires open { (H.state host.old).output.creating ≡ true }
    requires known { table < length tables.now.tables }
    ensures { Puts (rows_text (table_at tables.now table).rows) waiting.old.items waiting.new.items (H.state host.old) (H.state host.new) result }
{
    'rows: for place in 0..tables.height(table) {
        put_row_at(host, waiting, tables, table, place)?;
    }
    Ok(())
}

pub(super) fn put_tables<H: Host>(
    host: &mut H,
    waiting: &mut Vec<u8>,
    tables: &Tables,
) -> Result<(), HostError>
    requires open { (H.state host.old).output.creating ≡ true }
    ensures { Puts (flat_map table_text tables.now.tables) waiting.old.items waiting.new.items (H.state host.old) (H.state host.new) result }
{
    'tables: for table in 0..tables.tables() {
        put_rows(host, waiting, tables, table)?;
    }
    Ok(())
}

fn entry_bytes(entry: &CountEntry) -> [u8; 8]
    ensures { result ≡ entry_text entry.now }
{
    let mut text = [0u8; 8];
    LittleEndian::write_u32(&mut text, entry.place);
    LittleEndian::write_u32(&mut text[4..], entry.count);
    text
}

fn put_entry<H: Host>(
    host: &mut H,
    waiting: &mut Vec<u8>,
    entry: &CountEntry,
) -> Result<(), HostError>
    requires open { (H.state host.old).output.creating ≡ true }
    ensures { Puts (entry_text entry.now) waiting.old.items waiting.new.items (H.state host.old) (H.state host.new) result }
{
    let text = entry_bytes(entry);
    put(host, waiting, &text)
}

fn put_each_entry<H: Host>(
    host: &mut H,
    waiting: &mut Vec<u8>,
    entries: &[CountEntry],
) -> Result<(), HostError>
    requires open { (H.state host.old).output.creating ≡ true }
    ensures { Puts (flat_map entry_text entries.now) waiting.old.items waiting.new.items (H.state host.old) (H.state host.new) result }
{
    'entries: for entry in entries {
        put_entry(host, waiting, entry)?;
    }
    Ok(())
}

fn put_entries<H: Host>(
    host: &mut H,
    waiting: &mut Vec<u8>,
    entries: &[CountEntry],
) -> Result<(), HostError>
    requires open { (H.state host.old).output.creating ≡ true }
    requires few { length entries.now < 2 ^ 32 }
    ensures { Puts (counted_text entry_text entries.now) waiting.old.items waiting.new.items (H.state host.old) (H.state host.new) result }
{
    put_number(host, waiting, entries.len() as u32)?;
    put_each_entry(host, waiting, entries)
}

fn put_list<H: Host>(
    host: &mut H,
    waiting: &mut Vec<u8>,
    tables: &Tables,
    list: CountList,
) -> Result<(), HostError>
    requires open { (H.state host.old).output.creating ≡ true }
    requires few { length (counts_of tables.now list) < 2 ^ 32 }
    ensures { Puts (counted_text entry_text (counts_of tables.now list)) waiting.old.items waiting.new.items (H.state host.old) (H.state host.new) result }
{
    put_entries(host, waiting, tables.counts(list))
}

pub(super) fn put_counts<H: Host>(
    host: &mut H,
    waiting: &mut Vec<u8>,
    tables: &Tables,
) -> Result<(), HostError>
    requires open { (H.state host.old).output.creating ≡ true }
    requires few { AreCountable tables.now }
    ensures { Puts (lists_text tables.now) waiting.old.items waiting.new.items (H.state host.old) (H.state host.new) result }
{
    put_list(host, waiting, tables, CountList::Program)?;
    put_list(host, waiting, tables, CountList::Xor)?;
    put_list(host, waiting, tables, CountList::Range)?;
    put_list(host, waiting, tables, CountList::ShaConst)
}

fn put_page<H: Host>(host: &mut H, waiting: &mut Vec<u8>, page: &Touched) -> Result<(), HostError>
    requires open { (H.state host.old).output.creating ≡ true }
    ensures { Puts (page_text page.now) waiting.old.items waiting.new.items (H.state host.old) (H.state host.new) result }
{
    put_number(host, waiting, page.label)?;
    put(host, waiting, &page.old)?;
    put(host, waiting, &page.new)?;
    put_numbers(host, waiting, &page.times)
}

fn put_each_page<H: Host>(
    host: &mut H,
    waiting: &mut Vec<u8>,
    pages: &[Touched],
) -> Result<(), HostError>
    requires open { (H.state host.old).output.creating ≡ true }
    ensures { Puts (flat_map page_text pages.now) waiting.old.items waiting.new.items (H.state host.old) (H.state host.new) result }
{
    'pages: for page in pages {
        put_page(host, waiting, page)?;
    }
    Ok(())
}

pub(super) fn put_pages<H: Host>(
    host: &mut H,
    waiting: &mut Vec<u8>,
    pages: &[Touched],
) -> Result<(), HostError>
    requires open { (H.state host.old).output.creating ≡ true }
    requires few { length pages.now < 2 ^ 32 }
    ensures { Puts (counted_text page_text pages.now) waiting.old.items waiting.new.items (H.state host.old) (H.state host.new) result }
{
    put_number(host, waiting, pages.len() as u32)?;
    put_each_page(host, waiting, pages)
}

pub(super) fn put_siblings<H: Host>(
    host: &mut H,
    waiting: &mut Vec<u8>,
    siblings: &[Digest],
) -> Result<(), HostError>
    requires open { (H.state host.old).output.creating ≡ true }
    requires few { length siblings.now < 2 ^ 32 }
    ensures { Puts (counted_text raw_text siblings.now) waiting.old.items waiting.new.items (H.state host.old) (H.state host.new) result }
{
    put_number(host, waiting, siblings.len() as u32)?;
    put_digests(host, waiting, siblings)
}

pub(super) fn put_end<H: Host>(
    host: &mut H,
    waiting: &mut Vec<u8>,
    claim: &Claim,
) -> Result<(), HostError>
    requires open { (H.state host.old).output.creating ≡ true }
    ensures { Puts (end_text claim.now) waiting.old.items waiting.new.items (H.state host.old) (H.state host.new) result }
{
    put_flag(host, waiting, false)?;
    put_byte(host, waiting, claim.code)?;
    put(host, waiting, &claim.public)?;
    put_digests(host, waiting, &claim.path)
}
