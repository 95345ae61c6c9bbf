//! The rows and the counts that a segment is made of.

ghost use Rattle.std.specs.Prelude.{◌≡◌, ◌^◌, ◌<◌, ◌≤◌, Some, None, length, slice_get, OnOk, OnErr, IfOk, MatchOption};
ghost use Rattle.vm_trace.specs.Contents.{counts_of, empty, table_at, with_count, with_row};

use crate::{CountEntry, CountList, OutOfMemory};
use std::alloc::Global;
use std::marker::Model;
use vm_field::Fe;

// The rows of one table.
#[derive(Drop)]
struct Table {
    width: u32,
    rows: Vec<Vec<Fe>>,
}

impl Model for Table {
    ghost use Rattle.std.specs.Prelude.{◌≤◌, ◌^◌, length, map};
    ghost use Rattle.vm_trace.specs.Contents.{TableRows};

    ghost Value = { TableRows };

    ghost view = { λ t. record { width = t.width; rows = map (λ row. row.items) t.rows.items } };

    ghost invariant = { λ t. length t.rows.items ≤ 2 ^ 24 };
}

/// The rows of each table, and the entries of each list of counts, in the order in which they came.
#[derive(Drop)]
pub struct Tables {
    alloc: Global,
    tables: Vec<Table>,
    program: Vec<CountEntry>,
    xor: Vec<CountEntry>,
    range: Vec<CountEntry>,
    constants: Vec<CountEntry>,
}

impl Model for Tables {
    ghost use Rattle.std.specs.Prelude.{◌<◌, ◌^◌, length};
    ghost use Rattle.vm_trace.specs.Contents.{Contents};

    ghost Value = { Contents };

    ghost view = { λ t. record { tables = t.tables.items; program = t.program.items; xor = t.xor.items; range = t.range.items; constants = t.constants.items } };

    ghost invariant = { λ t. length t.tables.items < 2 ^ 32 };
}

impl Tables {
    /// Tables of these widths, without rows and entries.
    pub fn new(alloc: Global, widths: &[u32]) -> Result<Tables, OutOfMemory>
        requires { length widths.now < 2 ^ 32 }
        ensures { IfOk result (λ made. made ≡ empty widths.now) }
    {
        let mut tables = Vec::new(alloc);
        for width in widths {
            tables.push(Table {
                width: *width,
                rows: Vec::new(alloc),
            })?;
        }
        Ok(Tables {
            alloc,
            tables,
            program: Vec::new(alloc),
            xor: Vec::new(alloc),
            range: Vec::new(alloc),
            constants: Vec::new(alloc),
        })
    }

    /// How many tables there are.
    pub fn tables(&self) -> u32
        ensures { result ≡ length self.now.tables }
    {
        self.tables.len() as u32
    }

    /// How many rows a table has.
    pub fn height(&self, table: u32) -> u32
        requires { table < length self.now.tables }
        ensures { result ≡ length (table_at self.now table).rows }
    {
        self.tables[table as usize].rows.len() as u32
    }

    /// A row of a table, and None where there is no such row.
    pub fn row(&self, table: u32, place: u32) -> Option<&[Fe]>
        ensures { MatchOption result (slice_get (table_at self.now table).rows place ≡ None) (λ row. slice_get (table_at self.now table).rows place ≡ Some row.now) }
    {
        let table = self.tables.get(table as usize)?;
        let row = table.rows.get(place as usize)?;
        Some(row)
    }

    /// The entries of a list.
    pub fn counts(&self, list: CountList) -> &[CountEntry]
        ensures { result.now ≡ counts_of self.now list }
    {
        match list {
            CountList::Program => &self.program,
            CountList::Xor => &self.xor,
            CountList::Range => &self.range,
            CountList::ShaConst => &self.constants,
        }
    }

    /// Puts a row behind the last of its table.
    pub fn push_row(&mut self, table: u32, row: &[Fe]) -> Result<(), OutOfMemory>
        requires known { table < length self.old.tables }
        requires few { length (table_at self.old table).rows < 2 ^ 24 }
        requires wide { length row.now ≡ (table_at self.old table).width }
        ensures ok { OnOk result (self.new ≡ with_row self.old table row.now) }
        ensures err { OnErr result (self.new ≡ self.old) }
    {
        let row = row.to_vec(self.alloc)?;
        self.tables[table as usize].rows.push(row)?;
        Ok(())
    }

    /// Puts an entry behind the last of its list.
    pub fn push_count(&mut self, list: CountList, entry: CountEntry) -> Result<(), OutOfMemory>
        ensures ok { OnOk result (self.new ≡ with_count self.old list entry) }
        ensures err { OnErr result (self.new ≡ self.old) }
    {
        match list {
            CountList::Program => self.program.push(entry)?,
            CountList::Xor => self.xor.push(entry)?,
            CountList::Range => self.range.push(entry)?,
            CountList::ShaConst => self.constants.push(entry)?,
        }
        Ok(())
    }
}
