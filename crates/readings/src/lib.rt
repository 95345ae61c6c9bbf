//! Readings of bytes from left to right: what is read, in which order, and which test fails first.
#![tactic(auto)]

ghost use Rattle.std.specs.Prelude.{◌≡◌};

use std::alloc::{AllocError, AllocFailed};

/// Why a call that reads gives no value.
#[derive(Clone, Copy, Debug, PartialEq, Eq)]
pub enum Stop<R> {
    /// A test of the format failed.
    Refused(R),
    /// The outside failed.
    Fault,
    /// There was no memory.
    OutOfMemory,
}

impl<R: Drop> From<AllocError> for Stop<R> {
    ghost use Rattle.readings.specs.declared.Stop.TheVariants.{OutOfMemory as NoMemory};

    ghost from_gives = { λ _ error. error ≡ NoMemory };

    fn from(_error: AllocError) -> Self {
        Stop::OutOfMemory
    }
}

impl<R: Drop, T: Drop> From<AllocFailed<T>> for Stop<R> {
    ghost use Rattle.readings.specs.declared.Stop.TheVariants.{OutOfMemory as NoMemory};

    ghost from_gives = { λ _ error. error ≡ NoMemory };

    fn from(_error: AllocFailed<T>) -> Self {
        Stop::OutOfMemory
    }
}
