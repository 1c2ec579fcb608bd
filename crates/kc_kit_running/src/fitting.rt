// The further units of each life of a board.
ghost use Rattle.std.specs.Prelude.{◌≡◌, ◌≤◌, ℕ, false, IfOk};
ghost use Rattle.kc_stim.specs.Drives.{Drives};
ghost use Rattle.kc_cycles.specs.Making.{KeepsFrom};
ghost use Rattle.kc_kit_running.specs.Fitted.{fitted_for};

use crate::fitted::{FittedUnit, fitted_unit};
use kc_base::{NoMemory, StateTime};
use kc_convert::Analog;
use kc_cycles::Maker;
use kc_stim::Stimuli;
use std::alloc::Global;

/// Makes the further units of each life: the converter of each has a copy of these values.
#[derive(Drop)]
pub(crate) struct Fitting {
    pub(crate) values: Analog,
}

impl Maker for Fitting {
    type X = FittedUnit;

    ghost use Rattle.std.specs.Prelude.{refl};

    ghost made = { λ fitting drives from. fitted_for fitting.values drives from };

    fn make(
        &self,
        alloc: Global,
        stimuli: &Stimuli,
        from: StateTime,
    ) -> Result<FittedUnit, NoMemory> {
        let later = stimuli.after(alloc, from)?;
        let values = self.values.copy(alloc)?;
        Ok(fitted_unit(&later, values, from))
    }

    ghost leaves_watchdog = { refl };
}
