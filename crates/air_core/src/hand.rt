//! Events that stand in an array, handed to a sink.

ghost use Rattle.std.specs.Prelude.{◌≡◌, ℕ, ◌+◌, ◌^◌, ◌<◌, ◌≤◌, List, [], ◌∷◌, ◌++◌, length, OnOk, OnErr};
ghost use Rattle.air_core.specs.Sheet.{counted};
ghost use Rattle.air_core.specs.Sink.{Handed, HandedSome};

use crate::{Event, EventSink, OutOfMemory};

/// Hands the events over whose count isn't 0, in order.
pub fn hand_counted<S: EventSink>(events: &[Event], sink: &mut S) -> Result<(), OutOfMemory>
    requires { length events.now ≤ S.room sink.old }
    ensures ok { OnOk result (Handed S.holds S.room sink.old sink.new (counted events.now)) }
    ensures err { OnErr result (HandedSome S.holds S.room sink.old sink.new (counted events.now)) }
{
    for event in events {
        if event.count != 0 {
            sink.take(event)?;
        }
    }
    Ok(())
}
