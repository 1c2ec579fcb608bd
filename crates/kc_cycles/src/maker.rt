ghost use Rattle.std.specs.Prelude.{◌≡◌, ◌≤◌, ℕ, false, IfOk};
ghost use Rattle.kc_base.specs.Limits.{max_states};
ghost use Rattle.kc_stim.specs.Drives.{Drives};
ghost use Rattle.kc_cycles.specs.Making.{KeepsFrom};

use kc_base::{NoMemory, StateTime};
use kc_extra::Extra;
use kc_stim::Stimuli;
use std::alloc::Global;

/// Makes the further unit of each life, as it is new then.
pub trait Maker {
    type X: Extra + Drop;

    /// The data of the unit, by the stimuli of the first life and the state at which the life begins.
    ghost made: { Self → Drives → ℕ → Self.X };

    /// The unit of a life that begins at state `from` of these stimuli. The levels that it keeps are those before that state.
    fn make(&self, alloc: Global, stimuli: &Stimuli, from: StateTime) -> Result<Self::X, NoMemory>
        requires { from ≤ max_states }
        ensures value { IfOk result (λ unit. Self.X.plain unit ≡ made self.now stimuli.now from) }
        ensures levels { IfOk result (λ unit. KeepsFrom Self.X.agrees stimuli.now from (Self.X.plain unit)) };

    /// The unit leaves the watchdog its register.
    ghost leaves_watchdog: { Self.X.further.writable 0 10 ≡ false };
}
