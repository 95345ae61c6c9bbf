//! A check of whole tables, for every extension.

ghost use Rattle.std.specs.Prelude.{◌≡◌, ℕ, ◌+◌, ◌*◌, ◌^◌, ◌<◌, ◌≤◌, ◌↔◌, List, length, All, IsTrue, IfOk, OnOk};
ghost use Rattle.std.specs.List.{AllByRecursion};
ghost use Rattle.air_core.specs.declared.event.Event.{Event as AnEvent};
ghost use Rattle.air_core.specs.Balance.{Balanced};
ghost use Rattle.air_core.specs.System.{EachRow, sheet_at};
ghost use Rattle.bus_core.specs.Sums.{Holds};
ghost use Rattle.extension_tests.specs.Rows.{lists, all_lists, rows_in, IsWide, RowsHanded, HoldsAndBalances, RowsMean};

use air_core::{Event, EventSink, Extension, OutOfMemory, hand_counted};
use bus_core::Balance;
use std::alloc::Global;
use vm_field::Fe;

/// Hands over what the rows of a table say, and tells whether each of them holds.
pub fn hand_rows<E: Extension, S: EventSink>(
    ext: &E,
    table: u32,
    rows: &[Vec<Fe>],
    sink: &mut S,
) -> Result<bool, OutOfMemory>
    requires known { table < length (E.system ext.now).parts }
    requires wide { All (λ row. length row.items ≡ (sheet_at (E.system ext.now) table).width) rows.now }
    requires room { 256 * length rows.now ≤ S.room sink.old }
    ensures left { OnOk result (S.room sink.old ≤ S.room sink.new + 256 * length rows.now) }
    ensures rows { IfOk result (λ yes. RowsHanded S.holds S.room sink.old sink.new (sheet_at (E.system ext.now) table) (lists rows.now) yes) }
{
    let mut all = true;
    for row in rows {
        if ext.first_broken(table, row).is_some() {
            all = false;
        }
        ext.events(table, row, sink)?;
    }
    Ok(all)
}

/// Whether every row holds, and all that the rows and `others` say balances.
///
/// The others are what stands beside an extension: the ends of its path, the rows that are looked up,
/// and the memory before and after it. They are on none of its private buses.
pub fn check_tables<E: Extension>(
    alloc: Global,
    ext: &E,
    tables: &[Vec<Vec<Fe>>],
    others: &[Event],
) -> Result<bool, OutOfMemory>
    requires count { length tables.now ≡ length (E.system ext.now).parts }
    requires wide { EachRow IsWide (E.system ext.now).parts (all_lists tables.now) }
    requires others { AllByRecursion (λ e. e.bus < 6) others.now }
    requires few { length others.now + 256 * rows_in (all_lists tables.now) ≤ 2 ^ 96 }
    ensures exact { IfOk result (λ yes. IsTrue yes ↔ HoldsAndBalances (E.system ext.now) (all_lists tables.now) others.now) }
    ensures meaning { IfOk result (λ yes. IsTrue yes → RowsMean (E.system ext.now) (all_lists tables.now)) }
{
    let mut balance = Balance::new(alloc);
    hand_counted(others, &mut balance)?;
    for table in 0..ext.tables() {
        if !hand_rows(ext, table, &tables[table as usize], &mut balance)? {
            return Ok(false);
        }
    }
    Ok(is_balanced(&balance))
}

fn is_balanced(balance: &Balance) -> bool
    ensures { (events : List AnEvent) → Holds balance.now events → (IsTrue result ↔ Balanced events) }
{
    balance.least_unbalanced().is_none()
}
