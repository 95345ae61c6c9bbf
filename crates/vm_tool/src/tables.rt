// The tables that the program checks with.
ghost use Rattle.std.specs.Prelude.{◌≡◌};
ghost use Rattle.vm_tool.specs.Tables.{program_tables};

use air_core::Extension;
use vm_config::{Full, full};

/// The tables of version 1.
pub fn program_tables() -> Full
    ensures { ⟦<Full as Extension>⟧.system result ≡ program_tables }
{
    full()
}
