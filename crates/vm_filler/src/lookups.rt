// How often rows of the lookup tables are sent.
ghost use Rattle.std.specs.Prelude.{◌≡◌, ◌<◌, ◌≤◌, ℕ, List, [], ◌∷◌, ◌++◌, length, replicate, IfOk};
ghost use Rattle.air_core.specs.declared.event.Event.{Event as AnEvent};
ghost use Rattle.air_core.specs.Sheet.{event};
ghost use Rattle.lookup_tables.specs.Places.{rows_of};
ghost use Rattle.vm_filler.specs.Lookups.{AreSized, CountLookups, events_left, used_at, used_on};

use crate::OutOfMemory;
use air_core::bus::{RANGE, XOR};
use air_core::{Event, EventSink, Side};
use lookup_tables::{count_place, place_of_elements};
use std::alloc::Global;
use std::marker::Model;
use vm_field::Fe;

// The counts of the rows of one table, by their places, seen as their list.
#[derive(Drop)]
struct Counts {
    items: Vec<u32>,
}

impl Model for Counts {
    ghost use Rattle.std.specs.Prelude.{List, ℕ};

    ghost Value = { List ℕ };

    ghost view = { λ c. c.items.items };
}

impl Counts {
    // So many zeros.
    fn new(alloc: Global, rows: usize) -> Result<Counts, OutOfMemory>
        ensures { IfOk result (λ made. made ≡ replicate rows 0) }
    {
        let mut items = Vec::new(alloc);
        items.resize(rows, 0)?;
        Ok(Counts { items })
    }

    fn as_slice(&self) -> &[u32]
        ensures { result.now ≡ self.now }
    {
        &self.items
    }

    // Adds to the count at a place, which stops at the greatest number.
    fn add(&mut self, place: u32, count: u32)
        requires { place < length self.old }
        ensures { self.new ≡ used_at self.old place count }
    {
        let place = place as usize;
        self.items[place] = self.items[place].saturating_add(count);
    }
}

/// The counts of the rows of the three lookup tables, as a sink of events.
///
/// A count that would be more than a `u32` has stays at the greatest. No segment has so many lookups.
#[derive(Drop)]
pub(crate) struct Lookups {
    xor: Counts,
    range: Counts,
    constants: Counts,
    taken: u64,
}

impl Model for Lookups {
    ghost use Rattle.std.specs.Prelude.{◌≡◌, ◌^◌, ◌≤◌, length};
    ghost use Rattle.vm_filler.specs.Lookups.{LookupCounts};

    ghost Value = { LookupCounts };

    ghost view = { λ l. record { xor = l.xor; range = l.range; constants = l.constants; taken = l.taken } };

    ghost invariant = { λ l. (length l.xor ≡ 65536) × (length l.range ≡ 131071) × (length l.constants ≡ 64) × (l.taken ≤ 2 ^ 63) };
}

impl EventSink for Lookups {
    ghost holds = { CountLookups };

    ghost room = { events_left };

    fn take(&mut self, event: &Event) -> Result<(), OutOfMemory> {
        self.add(event);
        self.taken += 1;
        Ok(())
    }

    fn take_parts(
        &mut self,
        bus: u8,
        side: Side,
        count: u32,
        numbers: &[Fe],
    ) -> Result<(), OutOfMemory> {
        self.add_parts(bus, side, count, numbers);
        self.taken += 1;
        Ok(())
    }
}

impl Lookups {
    /// The counts of no events.
    pub(crate) fn new(alloc: Global) -> Result<Lookups, OutOfMemory>
        ensures holds { IfOk result (λ made. CountLookups made []) }
        ensures room { IfOk result (λ made. made.taken ≡ 0) }
    {
        Ok(Lookups {
            xor: Counts::new(alloc, 65_536)?,
            range: Counts::new(alloc, 131_071)?,
            constants: Counts::new(alloc, 64)?,
            taken: 0,
        })
    }

    // Counts a use of the row at a place of the table of a bus.
    fn count(&mut self, bus: u8, place: u32, count: u32)
        requires { place < rows_of bus }
        ensures used { self.new ≡ used_on self.old bus place count }
        ensures sized { AreSized self.old }
    {
        if bus == XOR {
            self.xor.add(place, count);
        } else if bus == RANGE {
            self.range.add(place, count);
        } else {
            self.constants.add(place, count);
        }
    }

    // Counts an event, if it sends a row of a lookup table.
    fn add(&mut self, event: &Event)
        ensures counted { (events : List AnEvent) → CountLookups self.old events → CountLookups self.new (events ++ event.now ∷ []) }
        ensures taken { self.new.taken ≡ self.old.taken }
    {
        if event.side == Side::Send {
            if let Some(place) = count_place(event.bus, &event.tuple) {
                self.count(event.bus, place, event.count);
            }
        }
    }

    // The same of an event's parts.
    fn add_parts(&mut self, bus: u8, side: Side, count: u32, numbers: &[Fe])
        requires few { length numbers.now ≤ 50 }
        ensures counted { (events : List AnEvent) → CountLookups self.old events → CountLookups self.new (events ++ event bus side count numbers.now ∷ []) }
        ensures taken { self.new.taken ≡ self.old.taken }
    {
        if side == Side::Send {
            if let Some(place) = place_of_elements(bus, numbers) {
                self.count(bus, place, count);
            }
        }
    }

    pub(crate) fn xor(&self) -> &[u32]
        ensures counts { result.now ≡ self.now.xor }
        ensures size { length result.now ≡ 65536 }
    {
        self.xor.as_slice()
    }

    pub(crate) fn range(&self) -> &[u32]
        ensures counts { result.now ≡ self.now.range }
        ensures size { length result.now ≡ 131071 }
    {
        self.range.as_slice()
    }

    pub(crate) fn constants(&self) -> &[u32]
        ensures counts { result.now ≡ self.now.constants }
        ensures size { length result.now ≡ 64 }
    {
        self.constants.as_slice()
    }
}
