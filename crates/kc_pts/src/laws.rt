ghost use Rattle.std.specs.Prelude.{◌≡◌};
ghost use Rattle.kc_pts.specs.Counts.{SetupAccesses, TransferAccesses};
ghost use Rattle.kc_pts.specs.Cycles.{setup_states};

use crate::setups::SETUP_STATES;

/// `SETUP_STATES` are the states of a setup.
pub fn states_of_setups()
    ensures { SETUP_STATES ≡ setup_states }
{}

/// No setup makes more than six accesses.
pub fn setup_accesses()
    ensures { SetupAccesses }
{}

/// No transfer, with the end of the cycle after the last, makes more than eight accesses.
pub fn transfer_accesses()
    ensures { TransferAccesses }
{}
