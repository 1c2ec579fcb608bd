ghost use Rattle.std.specs.Prelude.{ℕ};
ghost use Rattle.kc_base.specs.declared.types.Edge.{Edge};
ghost use Rattle.kc_base.specs.Pins.{IsPin};

use crate::{Edge, StateTime};

/// What edges of pins are handed to, in the order in which they come.
pub trait EdgeOut {
    /// How an edge at a state time leads from the value before to the value after.
    ghost led: { Self → ℕ → Edge → Self → Type 0 };

    /// Takes an edge of a pin that has a name, at the state time in which it comes.
    fn edge(&mut self, at: StateTime, edge: Edge)
        requires { IsPin edge.pin.0 }
        ensures { led self.old at edge self.new };
}
