// The rows of the execution bus in the order of time.
ghost use Rattle.std.specs.Prelude.{◌≡◌, IfOk};
ghost use Rattle.exec_path.specs.Order.{IsOrder, time_at};

use crate::OutOfMemory;
use std::alloc::Global;

/// Where a row of the execution bus begins, and where it goes.
#[derive(Clone, Copy, Debug, PartialEq, Eq)]
pub struct PathRow {
    /// The pc of its instruction.
    pub from_pc: u32,
    /// The time of its first slot.
    pub from_time: u32,
    /// The pc that follows.
    pub to_pc: u32,
    /// The time of the slot that follows its own.
    pub to_time: u32,
}

/// The places of the rows in rising order of `from_time`, equal times by place. It fails only where
/// memory is out.
pub fn order_rows(alloc: Global, rows: &[PathRow]) -> Result<Vec<usize>, OutOfMemory>
    ensures { IfOk result (λ places. IsOrder rows.now places.items) }
{
    let mut places = Vec::new(alloc);
    for place in 0..rows.len() {
        places.push(place)?;
    }
    places.sort_by_key(|place| start_time(rows, *place))?;
    Ok(places)
}

fn start_time(rows: &[PathRow], place: usize) -> u32
    ensures { result ≡ time_at rows.now place }
{
    rows.get(place).map_or(0, |row| row.from_time)
}
