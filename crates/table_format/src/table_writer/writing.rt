//! The calls of a writer.
ghost use Rattle.std.specs.Prelude.{◌≡◌, ◌<◌, ◌^◌, [], true, false, None, OnOk, length};
ghost use Rattle.vm_trace.specs.File.{Segment};
ghost use Rattle.table_format.specs.Texts.{head_text, piece_text};
ghost use Rattle.table_format.specs.Writing.{Puts, Wrote, Appends, Begins, AreCountable, IsSegmentOf, made_text, end_text};

use super::TableWriter;
use super::parts::{
    put_bounds, put_codes, put_counts, put_end, put_pages, put_siblings, put_tables,
};
use super::put::{PIECE, flush, put, put_flag, put_number};
use crate::error::error_of;
use crate::item::{Claim, Connector};
use crate::take::MAGIC;
use std::alloc::Global;
use vm_host::{Host, HostError};
use vm_trace::{Digest, Tables, Touched};

fn put_head<H: Host>(host: &mut H, waiting: &mut Vec<u8>, version: u32) -> Result<(), HostError>
    requires open { (H.state host.old).output.creating ≡ true }
    ensures { Puts (head_text version) waiting.old.items waiting.new.items (H.state host.old) (H.state host.new) result }
{
    put(host, waiting, &MAGIC)?;
    put_number(host, waiting, version)
}

fn write_head<H: Host>(host: &mut H, waiting: &mut Vec<u8>, version: u32) -> Result<(), HostError>
    requires open { (H.state host.old).output.creating ≡ true }
    requires none { waiting.old.items ≡ [] }
    ensures wrote { Wrote (head_text version) (H.state host.old) (H.state host.new) result }
    ensures creating { (H.state host.new).output.creating ≡ true }
{
    put_head(host, waiting, version)?;
    flush(host, waiting)
}

fn put_segment<H: Host>(
    host: &mut H,
    waiting: &mut Vec<u8>,
    connector: &Connector,
    start: &Digest,
    end: &Digest,
    tables: &Tables,
    pages: &[Touched],
    siblings: &[Digest],
) -> Result<(), HostError>
    requires open { (H.state host.old).output.creating ≡ true }
    requires few { AreCountable tables.now }
    requires few_pages { length pages.now < 2 ^ 32 }
    requires few_siblings { length siblings.now < 2 ^ 32 }
    ensures { Puts (made_text connector.now start.now end.now tables.now pages.now siblings.now) waiting.old.items waiting.new.items (H.state host.old) (H.state host.new) result }
{
    put_flag(host, waiting, true)?;
    put_bounds(host, waiting, connector, start, end)?;
    put_codes(host, waiting, tables)?;
    put_tables(host, waiting, tables)?;
    put_counts(host, waiting, tables)?;
    put_pages(host, waiting, pages)?;
    put_siblings(host, waiting, siblings)
}

fn write_segment<H: Host>(
    host: &mut H,
    waiting: &mut Vec<u8>,
    connector: &Connector,
    start: &Digest,
    end: &Digest,
    tables: &Tables,
    pages: &[Touched],
    siblings: &[Digest],
) -> Result<(), HostError>
    requires open { (H.state host.old).output.creating ≡ true }
    requires none { waiting.old.items ≡ [] }
    requires few { AreCountable tables.now }
    requires few_pages { length pages.now < 2 ^ 32 }
    requires few_siblings { length siblings.now < 2 ^ 32 }
    ensures wrote { Wrote (made_text connector.now start.now end.now tables.now pages.now siblings.now) (H.state host.old) (H.state host.new) result }
    ensures creating { (H.state host.new).output.creating ≡ true }
{
    put_segment(
        host, waiting, connector, start, end, tables, pages, siblings,
    )?;
    flush(host, waiting)
}

// Writes what stands behind the segments, and closes the output.
fn write_end<H: Host>(host: &mut H, waiting: &mut Vec<u8>, claim: &Claim) -> Result<(), HostError>
    requires open { (H.state host.old).output.creating ≡ true }
    requires none { waiting.old.items ≡ [] }
    ensures wrote { Wrote (end_text claim.now) (H.state host.old) (H.state host.new) result }
    ensures closed { OnOk result ((H.state host.new).output.creating ≡ false) }
{
    put_end(host, waiting, claim)?;
    flush(host, waiting)?;
    host.finish()
}

impl TableWriter {
    /// Starts the named output with the head of version 1.
    pub fn begin<H: Host>(alloc: Global, host: &mut H, name: &str) -> Result<TableWriter, HostError>
        ensures { Begins 1 name.now (H.state host.old) (H.state host.new) result }
    {
        TableWriter::begin_as(alloc, 1, host, name)
    }

    /// Starts the named output with the head of a version, which is 1 or more.
    pub fn begin_as<H: Host>(
        alloc: Global,
        version: u32,
        host: &mut H,
        name: &str,
    ) -> Result<TableWriter, HostError>
        ensures { Begins version name.now (H.state host.old) (H.state host.new) result }
    {
        let mut waiting = Vec::with_capacity(alloc, PIECE + 64)?;
        host.create(name)?;
        write_head(host, &mut waiting, version)?;
        waiting.clear();
        Ok(TableWriter {
            version,
            finished: false,
            error: None,
            waiting,
        })
    }

    fn append<H: Host>(
        &mut self,
        host: &mut H,
        connector: &Connector,
        start: &Digest,
        end: &Digest,
        tables: &Tables,
        pages: &[Touched],
        siblings: &[Digest],
    ) -> Result<(), HostError>
        requires open { self.old.error ≡ None → (H.state host.old).output.creating ≡ true }
        requires going { self.old.finished ≡ false }
        requires few { AreCountable tables.now }
        requires few_pages { length pages.now < 2 ^ 32 }
        requires few_siblings { length siblings.now < 2 ^ 32 }
        ensures { Appends (made_text connector.now start.now end.now tables.now pages.now siblings.now) true false self.old self.new (H.state host.old) (H.state host.new) result }
    {
        if let Some(error) = self.error {
            return Err(error);
        }
        self.waiting.clear();
        let result = write_segment(
            host,
            &mut self.waiting,
            connector,
            start,
            end,
            tables,
            pages,
            siblings,
        );
        self.error = error_of(&result);
        result
    }

    /// Writes one segment, its mark before it, behind what was written.
    ///
    /// The parts are those of one segment of the form. After an error a first part of its bytes stands behind what stood
    /// before.
    pub fn segment<H: Host>(
        &mut self,
        host: &mut H,
        connector: &Connector,
        start: &Digest,
        end: &Digest,
        tables: &Tables,
        pages: &[Touched],
        siblings: &[Digest],
    ) -> Result<(), HostError>
        requires open { self.old.error ≡ None → (H.state host.old).output.creating ≡ true }
        requires going { self.old.finished ≡ false }
        requires parts { (v : Segment) × IsSegmentOf self.old.version connector.now start.now end.now tables.now pages.now siblings.now v }
        ensures { (v : Segment) → IsSegmentOf self.old.version connector.now start.now end.now tables.now pages.now siblings.now v
            → Appends (piece_text v) true false self.old self.new (H.state host.old) (H.state host.new) result }
    {
        self.append(host, connector, start, end, tables, pages, siblings)
    }

    /// Writes the mark that no segment follows and the claim, and closes the output.
    pub fn finish<H: Host>(&mut self, host: &mut H, claim: &Claim) -> Result<(), HostError>
        requires open { self.old.error ≡ None → (H.state host.old).output.creating ≡ true }
        requires going { self.old.finished ≡ false }
        ensures { Appends (end_text claim.now) false true self.old self.new (H.state host.old) (H.state host.new) result }
    {
        if let Some(error) = self.error {
            return Err(error);
        }
        self.waiting.clear();
        let result = write_end(host, &mut self.waiting, claim);
        self.finished = result.is_ok();
        self.error = error_of(&result);
        result
    }
}
