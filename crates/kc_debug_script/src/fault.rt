ghost use Rattle.std.specs.Prelude.{◌≡◌};
ghost use Rattle.kc_debug_script.specs.declared.fault.DebugFault.TheVariants as faults;

use kc_base::NoMemory;
use thiserror::Error;

/// Why a debugger refuses, with the number of a line, counted from 1.
#[derive(Clone, Copy, Debug, PartialEq, Eq, Error)]
pub enum DebugFault {
    #[error("line {0} of the script is no command")]
    BadCommand(u32),
    #[error("line {0} of the line map is no entry")]
    BadMap(u32),
    #[error("the output failed")]
    WriteFault,
    #[error("memory was wanted and not had")]
    NoMemory,
}

impl From<NoMemory> for DebugFault {
    ghost from_gives = { λ _ e. e ≡ faults.NoMemory };

    fn from(_error: NoMemory) -> DebugFault {
        DebugFault::NoMemory
    }
}
