ghost use Rattle.std.specs.Prelude.{◌≡◌};
ghost use Rattle.kc_addresses.specs.declared.fault.MapFault.TheVariants as faults;

use kc_base::NoMemory;
use thiserror::Error;

/// Why a map is refused, with the number of a line, counted from 1.
#[derive(Clone, Copy, Debug, PartialEq, Eq, Error)]
pub enum MapFault {
    #[error("line {0} is none of a linker's map")]
    BadLine(u32),
    #[error("memory was wanted and not had")]
    NoMemory,
}

impl From<NoMemory> for MapFault {
    ghost from_gives = { λ _ e. e ≡ faults.NoMemory };

    fn from(_error: NoMemory) -> MapFault {
        MapFault::NoMemory
    }
}
