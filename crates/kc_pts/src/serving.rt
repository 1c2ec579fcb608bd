ghost use Rattle.std.specs.Prelude.{◌≡◌, ◌<◌, IfOk, None, true};
ghost use Rattle.kc_exec_spec.specs.Effect.{run};
ghost use Rattle.kc_bus.specs.Counting.{KeepsCount};
ghost use Rattle.kc_pts.specs.Cycles.{is_block, served, Serves};

use crate::cycle::{Cycle, Left};
use crate::ends::finish;
use crate::transfers::transfer;
use kc_base::Kind;
use kc_bus::Bus;

/// Makes one transfer of a cycle, and after the last the end of the cycle, of which it gives the new count. Refused as the
/// first access of the transfer that is refused; the bus is then as after the accesses before it, and the cycle as before.
#[tactic(auto, using(kc_exec_spec::proofs::Running::run_bind))]
pub fn serve<B: Bus>(cycle: &mut Cycle, bus: &mut B) -> Result<Option<u8>, Kind>
    requires some { 0 < cycle.old.left }
    requires block { is_block cycle.old.block ≡ true }
    ensures effect { Serves result cycle.old cycle.new (B.held bus.new) (run B.meaning (served cycle.old) (B.held bus.old)) }
    ensures block { cycle.new.block ≡ cycle.old.block }
    ensures more { IfOk result (λ count. count ≡ None → 0 < cycle.new.left) }
    ensures count { KeepsCount B.spent B.held B.allowed B.lent bus.old bus.new }
{
    match transfer(cycle, bus) {
        Ok(Left::More) => Ok(None),
        Ok(Left::Last) => Ok(Some(finish(*cycle, bus))),
        Err(kind) => Err(kind),
    }
}
