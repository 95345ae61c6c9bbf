// The hint bytes of a segment.
ghost use Rattle.std.specs.Prelude.{◌≡◌, ◌++◌, List, flat_map, map, IfOk, OnOk};
ghost use Rattle.air_core.specs.declared.hint.HintWord.{HintWord as AHint};
ghost use Rattle.acceptance.specs.Spelled.{low_byte};
ghost use Rattle.vm_checker.specs.Kept.{IsSorted, bytes_of, timed_hint};

use air_core::{HintWord, OutOfMemory};
use exec_path::{PathRow, order_rows};
use std::alloc::Global;
use vm_field::Fe;

// A hint as a row of the execution bus that begins at its time.
fn timed(hint: &HintWord) -> PathRow
    ensures { result ≡ timed_hint hint.now }
{
    PathRow {
        from_pc: 0,
        from_time: hint.time.value(),
        to_pc: 0,
        to_time: 0,
    }
}

fn times(alloc: Global, hints: &[HintWord]) -> Result<Vec<PathRow>, OutOfMemory>
    ensures { IfOk result (λ rows. rows.items ≡ map timed_hint hints.now) }
{
    let mut rows = Vec::new(alloc);
    for hint in hints {
        rows.push(timed(hint))?;
    }
    Ok(rows)
}

// The low bytes of a word.
fn push_word(bytes: &mut Vec<u8>, word: &[Fe]) -> Result<(), OutOfMemory>
    ensures { OnOk result (bytes.new.items ≡ bytes.old.items ++ map low_byte word.now) }
{
    for limb in word {
        bytes.push((limb.value() % 256) as u8)?;
    }
    Ok(())
}

fn push_hint(bytes: &mut Vec<u8>, hint: &HintWord) -> Result<(), OutOfMemory>
    ensures { OnOk result (bytes.new.items ≡ bytes.old.items ++ bytes_of hint.now) }
{
    if hint.next {
        Ok(())
    } else {
        push_word(bytes, &hint.word)
    }
}

/// Adds the bytes of hints in the order of their times, of each word the low bytes.
pub(crate) fn push_hints(
    alloc: Global,
    bytes: &mut Vec<u8>,
    hints: &[HintWord],
) -> Result<(), OutOfMemory>
    ensures { OnOk result ((sorted : List AHint) × IsSorted hints.now sorted × (bytes.new.items ≡ bytes.old.items ++ flat_map bytes_of sorted)) }
{
    let rows = times(alloc, hints)?;
    let places = order_rows(alloc, &rows)?;
    for place in &places {
        if let Some(hint) = hints.get(*place) {
            push_hint(bytes, hint)?;
        }
    }
    Ok(())
}
