ghost use Rattle.std.specs.Prelude.{◌≡◌, ◌<◌, ◌≤◌, ℕ, List, Option, Ok, take, length, IfOk, OnOk, OnErr};
ghost use Rattle.std.specs.Io.KnownBytes.{Consumes, Keeps, IsAtEnd};
ghost use Rattle.kc_base.specs.Causes.{Rose};

/// The source has failed.
#[derive(Clone, Copy, PartialEq, Eq)]
pub struct Failed;

/// Gives bytes in order.
pub trait Source {
    /// The bytes to come, where the source reports them.
    ghost to_come: { Self → Option (List ℕ) };

    /// How often a read has failed.
    ghost faults: { Self → ℕ };

    /// Puts some of the bytes to come at the beginning of the room, and says how many; none where no byte is to come, and else at
    /// least one. What stands behind them in the room is not known.
    fn read(&mut self, room: &mut [u8]) -> Result<usize, Failed>
        requires { 0 < length room.old }
        ensures within { IfOk result (λ count. count ≤ length room.new) }
        ensures given { IfOk result (λ count. Consumes (to_come self.old) (to_come self.new) (take count room.new)) }
        ensures end { result ≡ Ok 0 → IsAtEnd (to_come self.new) }
        ensures refused { OnErr result (Keeps (to_come self.old) (to_come self.new)) }
        ensures failed { OnErr result (Rose (faults self.old) (faults self.new)) }
        ensures calm { OnOk result (faults self.new ≡ faults self.old) }
        ensures later { faults self.old ≤ faults self.new };
}
