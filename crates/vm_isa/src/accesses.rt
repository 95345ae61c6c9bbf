//! The accesses of a step.

ghost use Rattle.std.specs.Prelude.{◌≡◌, ◌<◌, ◌↔◌, [], ◌∷◌, ◌++◌, length, slice_get, IsTrue, OnOk, OnErr};

use crate::{OutOfMemory, TimedAccess};
use smallvec::SmallVec;
use std::alloc::Global;
use std::marker::Model;

/// How many accesses a step has at most.
pub const MAX_ACCESSES: usize = 64;

/// The accesses of one step in order of time, at most 64, seen as their list. Three take no memory: of all steps only
/// SHA's have more.
#[derive(Debug, Drop)]
pub struct AccessList {
    items: SmallVec<TimedAccess, 3>,
}

impl Model for AccessList {
    ghost use Rattle.std.specs.Prelude.{List, ◌≤◌, length};
    ghost use Rattle.vm_isa.specs.declared.access.TimedAccess.{TimedAccess as Timed};

    ghost Value = { List Timed };

    ghost view = { λ l. l.items.items };

    ghost invariant = { λ l. length l.items.items ≤ 64 };
}

impl AccessList {
    pub fn new(alloc: Global) -> AccessList
        ensures { result ≡ [] }
    {
        AccessList {
            items: SmallVec::new(alloc),
        }
    }

    pub fn push(&mut self, access: TimedAccess) -> Result<(), OutOfMemory>
        requires { length self.old < MAX_ACCESSES }
        ensures ok { OnOk result (self.new ≡ self.old ++ access ∷ []) }
        ensures err { OnErr result (self.new ≡ self.old) }
    {
        self.items.push(access)?;
        Ok(())
    }

    pub fn len(&self) -> u32
        ensures { result ≡ length self.now }
    {
        self.items.len() as u32
    }

    pub fn is_empty(&self) -> bool
        ensures { IsTrue result ↔ (self.now ≡ []) }
    {
        self.items.is_empty()
    }

    /// The access at a place, from 0 on.
    pub fn at(&self, place: u32) -> Option<TimedAccess>
        ensures { result ≡ slice_get self.now place }
    {
        self.items.get(place as usize).copied()
    }
}
