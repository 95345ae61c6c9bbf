//! Why a row is not taken.

use crate::OutOfMemory;

/// Why a row was not taken.
#[derive(Clone, Copy, Debug, PartialEq, Eq)]
pub enum RowError {
    /// This constraint is not 0 on the row, and none of a lower number.
    Broken(u32),
    /// There was no memory.
    OutOfMemory,
}

impl From<OutOfMemory> for RowError {
    ghost use Rattle.air_core.specs.declared.row_error.RowError.TheVariants.{OutOfMemory as NoMemory};
    ghost use Rattle.std.specs.Prelude.{◌≡◌};

    ghost from_gives = { λ _ error. error ≡ NoMemory };

    fn from(_error: OutOfMemory) -> RowError {
        RowError::OutOfMemory
    }
}
