// A sink of what the rows of a segment say.
ghost use Rattle.std.specs.Prelude.{◌≡◌, List, []};
ghost use Rattle.air_core.specs.declared.event.Event.{Event as AnEvent};
ghost use Rattle.bus_core.specs.Least.{least_uneven};
ghost use Rattle.vm_checker.specs.Heard.{Hears};

use air_core::bus::EXECUTION;
use air_core::{Event, EventSink, OutOfMemory, Side};
use bus_core::{Balance, Unbalanced};
use std::alloc::Global;
use std::marker::Model;
use vm_field::Fe;

/// The balance of events, and how many of them were on the execution bus.
#[derive(Drop)]
pub(crate) struct Said {
    balance: Balance,
    path: u128,
}

impl Model for Said {
    ghost use Rattle.std.specs.Prelude.{◌≤◌};
    ghost use Rattle.vm_checker.specs.Heard.{Heard};

    ghost Value = { Heard };

    ghost view = { λ said. record { kept = said.balance; path = said.path } };

    ghost invariant = { λ said. said.path ≤ said.balance.count };
}

impl EventSink for Said {
    ghost use Rattle.vm_checker.specs.Heard.{room_left};

    ghost holds = { Hears };

    ghost room = { room_left };

    fn take(&mut self, event: &Event) -> Result<(), OutOfMemory> {
        self.balance.add(event)?;
        if event.bus == EXECUTION {
            self.path += 1;
        }
        Ok(())
    }

    fn take_parts(
        &mut self,
        bus: u8,
        side: Side,
        count: u32,
        numbers: &[Fe],
    ) -> Result<(), OutOfMemory> {
        self.balance.take_parts(bus, side, count, numbers)?;
        if bus == EXECUTION {
            self.path += 1;
        }
        Ok(())
    }
}

impl Said {
    pub(crate) fn new(alloc: Global) -> Said
        ensures { Hears result [] }
    {
        Said {
            balance: Balance::new(alloc),
            path: 0,
        }
    }

    /// How many events were on the execution bus.
    pub(crate) fn path(&self) -> u128
        ensures { result ≡ self.now.path }
    {
        self.path
    }

    /// The first bus and tuple whose sums differ.
    pub(crate) fn least_unbalanced(&self) -> Option<Unbalanced>
        ensures { (events : List AnEvent) → Hears self.now events → result ≡ least_uneven events }
    {
        self.balance.least_unbalanced()
    }
}
