//! Where events go.

ghost use Rattle.std.specs.Prelude.{◌≡◌, ℕ, ◌+◌, ◌<◌, ◌≤◌, List, [], ◌∷◌, ◌++◌, length, OnOk, OnErr};
ghost use Rattle.air_core.specs.declared.event.Event.{Event as AnEvent};
ghost use Rattle.air_core.specs.Sheet.{event};
ghost use Rattle.air_core.specs.Sink.{Handed, HandedSome};

use crate::{Event, OutOfMemory, Side, Tuple};
use vm_field::Fe;

/// Takes events one by one. A sink may keep the events, or only what it needs of them, as sums.
pub trait EventSink {
    /// That the sink holds this list of events, in the form in which it keeps them.
    ghost holds: { Self → List AnEvent → Type 0 };

    /// How many events it can still take.
    ghost room: { Self → ℕ };

    fn take(&mut self, event: &Event) -> Result<(), OutOfMemory>
        requires { 1 ≤ room self.old }
        ensures ok { OnOk result (Handed holds room self.old self.new (event.now ∷ [])) }
        ensures err { OnErr result (Handed holds room self.old self.new []) };

    /// Takes an event by its parts: the cost of a sink that makes no `Event` of them goes with the
    /// numbers that there are, at most fifty.
    fn take_parts(
        &mut self,
        bus: u8,
        side: Side,
        count: u32,
        numbers: &[Fe],
    ) -> Result<(), OutOfMemory>
        requires few { length numbers.now ≤ 50 }
        requires room { 1 ≤ room self.old }
        ensures ok { OnOk result (Handed holds room self.old self.new (event bus side count numbers.now ∷ [])) }
        ensures err { OnErr result (Handed holds room self.old self.new []) }
    {
        self.take(&Event {
            bus,
            side,
            tuple: Tuple::of_elements(numbers),
            count,
        })
    }
}
