//! The balance of the buses: whether each tuple is sent as often as it is received.
#![tactic(auto)]

ghost use Rattle.std.specs.Prelude.{◌≡◌, ◌≢◌, ◌+◌, ◌^◌, ◌<◌, ◌≤◌, ◌↔◌, List, [], ◌∷◌, Some, OnOk, OnErr, IsNone, IfSome, IsTrue, IsFalse, length};
ghost use Rattle.air_core.specs.declared.event.Event.{Event as AnEvent};
ghost use Rattle.air_core.specs.Balance.{Balanced};
ghost use Rattle.air_core.specs.Sheet.{event};
ghost use Rattle.air_core.specs.Sink.{Handed};
ghost use Rattle.bus_core.specs.Sums.{Holds, room_of, sum_on, add_on};
ghost use Rattle.bus_core.specs.Least.{IsBefore, IsLeastUnbalanced, lesser_of, least_uneven, unbalanced_at};

mod short;
#[cfg(test)]
mod tests;

use air_core::{Event, EventSink, OutOfMemory, Side, Tuple};
use indexmap::IndexMap;
use short::ShortTuple;
use std::alloc::Global;
use std::marker::Model;
use vm_field::Fe;

/// A tuple that isn't sent on a bus as often as it is received there. Both sums are whole numbers.
#[derive(Clone, Copy, Debug, PartialEq, Eq)]
pub struct Unbalanced {
    pub bus: u8,
    pub tuple: Tuple,
    pub sent: u128,
    pub received: u128,
}

/// A bus, and a tuple on it.
#[derive(Clone, Copy, PartialEq, Eq, Hash)]
struct Place<T> {
    bus: u8,
    tuple: T,
}

/// The counts of a place, summed as whole numbers.
#[derive(Clone, Copy)]
struct Sums {
    sent: u128,
    received: u128,
}

/// What is sent and received on the buses, as a sink of events.
#[derive(Drop)]
pub struct Balance {
    short: IndexMap<Place<ShortTuple>, Sums>,
    long: IndexMap<Place<Tuple>, Sums>,
    count: u128,
}

impl Model for Balance {
    ghost use Rattle.bus_core.specs.Sums.{Kept, IsSound};

    ghost Value = { Kept };

    ghost view = { λ balance. record { short = balance.short.entries; long = balance.long.entries; count = balance.count } };

    ghost invariant = { λ balance. IsSound balance.short.entries balance.long.entries balance.count };
}

impl EventSink for Balance {
    ghost holds = { Holds };

    ghost room = { room_of };

    fn take(&mut self, event: &Event) -> Result<(), OutOfMemory> {
        self.add(event)
    }

    fn take_parts(
        &mut self,
        bus: u8,
        side: Side,
        count: u32,
        numbers: &[Fe],
    ) -> Result<(), OutOfMemory> {
        match ShortTuple::of_elements(numbers) {
            Some(tuple) => self.add_short(bus, side, count, tuple),
            None => self.add_long_elements(bus, side, count, numbers),
        }
    }
}

impl Balance {
    /// A balance of no events.
    pub fn new(alloc: Global) -> Balance
        ensures { Holds result [] }
    {
        Balance {
            short: IndexMap::new(alloc),
            long: IndexMap::new(alloc),
            count: 0,
        }
    }

    pub fn add(&mut self, event: &Event) -> Result<(), OutOfMemory>
        requires { 1 ≤ room_of self.old }
        ensures ok { OnOk result (Handed Holds room_of self.old self.new (event.now ∷ [])) }
        ensures err { OnErr result (self.new ≡ self.old) }
    {
        match ShortTuple::of(&event.tuple) {
            Some(tuple) => self.add_short(event.bus, event.side, event.count, tuple),
            None => {
                let place = Place {
                    bus: event.bus,
                    tuple: event.tuple,
                };
                self.add_long(&place, event.side, event.count)
            }
        }
    }

    fn add_short(
        &mut self,
        bus: u8,
        side: Side,
        count: u32,
        tuple: ShortTuple,
    ) -> Result<(), OutOfMemory>
        requires room { 1 ≤ room_of self.old }
        requires short { length tuple ≤ 8 }
        ensures ok { OnOk result (Handed Holds room_of self.old self.new (event bus side count tuple ∷ [])) }
        ensures err { OnErr result (self.new ≡ self.old) }
    {
        let place = Place { bus, tuple };
        let sums = self.short.entry(place)?.or_insert(NO_SUMS);
        sums.add(side, count);
        self.count += 1;
        Ok(())
    }

    // Apart from the others, so that they don't pay for the room of a long tuple.
    #[inline(never)]
    fn add_long_elements(
        &mut self,
        bus: u8,
        side: Side,
        count: u32,
        numbers: &[Fe],
    ) -> Result<(), OutOfMemory>
        requires room { 1 ≤ room_of self.old }
        requires few { length numbers.now ≤ 50 }
        requires long { 8 < length numbers.now }
        ensures ok { OnOk result (Handed Holds room_of self.old self.new (event bus side count numbers.now ∷ [])) }
        ensures err { OnErr result (self.new ≡ self.old) }
    {
        let place = Place {
            bus,
            tuple: Tuple::of_elements(numbers),
        };
        self.add_long(&place, side, count)
    }

    // A place that is there is only looked up: its 204 bytes are moved where it is new.
    fn add_long(&mut self, place: &Place<Tuple>, side: Side, count: u32) -> Result<(), OutOfMemory>
        requires room { 1 ≤ room_of self.old }
        requires long { 8 < length place.now.tuple }
        ensures ok { OnOk result (Handed Holds room_of self.old self.new (event place.now.bus side count place.now.tuple ∷ [])) }
        ensures err { OnErr result (self.new ≡ self.old) }
    {
        if let Some(sums) = self.long.get_mut(place) {
            sums.add(side, count);
        } else {
            let mut sums = NO_SUMS;
            sums.add(side, count);
            self.long.insert(*place, sums)?;
        }
        self.count += 1;
        Ok(())
    }

    /// The first bus and tuple whose two sums differ, by the bus and then by the tuple.
    pub fn least_unbalanced(&self) -> Option<Unbalanced>
        ensures balanced { (events : List AnEvent) → Holds self.now events → (IsNone result ↔ Balanced events) }
        ensures least { IfSome result (λ found. (events : List AnEvent) → Holds self.now events → IsLeastUnbalanced events found) }
        ensures is { (events : List AnEvent) → Holds self.now events → result ≡ least_uneven events }
    {
        let mut least = None;
        for (place, sums) in &self.short {
            if sums.differ() {
                least = Some(lesser(least, sums.at(place.bus, place.tuple.tuple())));
            }
        }
        for (place, sums) in &self.long {
            if sums.differ() {
                least = Some(lesser(least, sums.at(place.bus, place.tuple)));
            }
        }
        least
    }
}

const NO_SUMS: Sums = Sums {
    sent: 0,
    received: 0,
};

impl Sums {
    fn add(&mut self, side: Side, count: u32)
        requires { sum_on side self.old + count < 2 ^ 128 }
        ensures { self.new ≡ add_on side count self.old }
    {
        match side {
            Side::Send => self.sent += count as u128,
            Side::Receive => self.received += count as u128,
        }
    }

    fn differ(&self) -> bool
        ensures differ { IsTrue result → self.now.sent ≢ self.now.received }
        ensures same { IsFalse result → self.now.sent ≡ self.now.received }
    {
        self.sent != self.received
    }

    fn at(&self, bus: u8, tuple: Tuple) -> Unbalanced
        ensures { result ≡ unbalanced_at bus tuple self.now.sent self.now.received }
    {
        Unbalanced {
            bus,
            tuple,
            sent: self.sent,
            received: self.received,
        }
    }
}

// The one that stands first.
fn lesser(least: Option<Unbalanced>, found: Unbalanced) -> Unbalanced
    ensures { result ≡ lesser_of least found }
{
    match least {
        Some(least) if !stands_before(&found, &least) => least,
        _ => found,
    }
}

fn stands_before(one: &Unbalanced, other: &Unbalanced) -> bool
    ensures { IsTrue result ↔ IsBefore one.now.bus one.now.tuple other.now.bus other.now.tuple }
{
    (one.bus, one.tuple) < (other.bus, other.tuple)
}
