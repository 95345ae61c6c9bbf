//! What the laws of an extension say of its calls. The functions do nothing: their contracts are proved.

ghost use Rattle.std.specs.Prelude.{◌≡◌, ◌≢◌, ◌<◌, ◌≤◌, ℕ, true, List, Some, None, length};
ghost use Rattle.vm_isa.specs.declared.record.StepRecord.{StepRecord as ARecord};
ghost use Rattle.vm_isa.specs.Means.{Fillable};
ghost use Rattle.air_core.specs.Laws.{Recorded};
ghost use Rattle.air_core.specs.System.{Whole, EachRow, all_events, is_owned, owner_in, rows_at, sheet_at, tables_for};
ghost use Rattle.air_core.specs.ExtensionLaws.{SoundRow};

use crate::Extension;

/// A record of an opcode that the extension owns fills one row of the owner, none of another table
/// that has slots, and at most 64 of any; of another opcode it fills none.
pub fn rows_of_a_record<E: Extension>()
    ensures owner { (ext : E) (done : ARecord) (table : ℕ) → owner_in (E.system ext).parts done.instr.op ≡ Some table → rows_at (E.system ext) table done ≡ 1 }
    ensures others { (ext : E) (done : ARecord) (table other : ℕ) → owner_in (E.system ext).parts done.instr.op ≡ Some table → other ≢ table
        → other < length (E.system ext).parts → 1 ≤ (sheet_at (E.system ext) other).slots → rows_at (E.system ext) other done ≡ 0 }
    ensures few { (ext : E) (done : ARecord) (table : ℕ) → table < length (E.system ext).parts → rows_at (E.system ext) table done ≤ 64 }
    ensures none { (ext : E) (done : ARecord) (table : ℕ) → owner_in (E.system ext).parts done.instr.op ≡ None → table < length (E.system ext).parts → rows_at (E.system ext) table done ≡ 0 }
{}

/// All rows that a record fills say the record once on the machine's buses.
pub fn a_record_is_said_once<E: Extension>()
    ensures { (ext : E) (done : ARecord) → is_owned (E.system ext).parts done.instr.op ≡ true → Fillable (E.system ext).time_bits done
        → Recorded done (all_events (E.system ext).parts (tables_for done (E.system ext).parts)) }
{}

/// Where rows of all tables hold with good lookups, balance on the private buses and have different
/// times, each row of a table that owns opcodes says nothing or is its instruction's meaning.
pub fn whole_rows_mean<E: Extension>()
    ensures { (ext : E) (tables : List (List (List ℕ))) → Whole (E.system ext) tables → EachRow SoundRow (E.system ext).parts tables }
{}
