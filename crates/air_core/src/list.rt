//! A sink that keeps its events.

ghost use Rattle.std.specs.Prelude.{◌≡◌, ◌-◌, ◌^◌, [], length};

use crate::{Event, EventSink, OutOfMemory};
use std::alloc::Global;
use std::marker::Model;

/// The events that were handed over, in order, seen as their list.
#[derive(Drop)]
pub struct EventList {
    events: Vec<Event>,
}

impl Model for EventList {
    ghost use Rattle.std.specs.Prelude.{List};
    ghost use Rattle.air_core.specs.declared.event.Event.{Event as AnEvent};

    ghost Value = { List AnEvent };

    ghost view = { λ l. l.events.items };
}

impl EventList {
    pub fn new(alloc: Global) -> EventList
        ensures { result ≡ [] }
    {
        EventList {
            events: Vec::new(alloc),
        }
    }

    pub fn as_slice(&self) -> &[Event]
        ensures { result.now ≡ self.now }
    {
        &self.events
    }
}

impl EventSink for EventList {
    ghost holds = { λ sink list. sink ≡ list };

    ghost room = { λ sink. 2 ^ 64 - length sink };

    fn take(&mut self, event: &Event) -> Result<(), OutOfMemory> {
        self.events.push(*event)?;
        Ok(())
    }
}
