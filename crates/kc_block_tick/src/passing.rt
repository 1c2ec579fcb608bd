// One event of the block.
ghost use Rattle.std.specs.Prelude.{◌≡◌, ℕ, ◌+◌, ◌*◌, ◌≤◌, ◌^◌};
ghost use Rattle.kc_block_spec.specs.Costs.{CostsAtMost};
ghost use Rattle.kc_block_spec.specs.Tick.{tick};
ghost use Rattle.kc_block_spec.specs.Touch.{in_state, touched as touched_in};
ghost use Rattle.kc_block_spec.specs.Leading.{Leads};
ghost use Rattle.kc_block_units.specs.Scheduler.{shown_units, IsScheduled, IsPresent};
ghost use Rattle.kc_block_units.specs.Standing.{standing, moves_of};

use crate::asks::ask_touched;
use crate::ticks::tick_all;
use kc_base::{EdgeOut, StateTime, Steps};
use kc_block_units::Scheduler;
use kc_extra::Extra;
use std::sync::ledger::Ledger;

/// The Tick of state `now`, and its edges. Only the units that it touches are called, each three times at most: they are
/// caught up there, ticked, and rescheduled.
#[inline(never)]
#[cold]
pub fn pass<X: Extra, O: EdgeOut, L: Ledger>(
    scheduler: &mut Scheduler<X>,
    now: StateTime,
    out: &mut O,
    steps: &mut Steps<L>,
)
    requires present { IsPresent X.further X.agrees (standing X.plain scheduler.old) now }
    ensures scheduled { IsScheduled X.further X.agrees (standing X.plain scheduler.new) (now + 1) }
    ensures units { shown_units X.further (standing X.plain scheduler.new) (now + 1) ≡ (tick X.further now (shown_units X.further (standing X.plain scheduler.old) now)).units }
    ensures edges { Leads O.led out.old (in_state now (tick X.further now (shown_units X.further (standing X.plain scheduler.old) now)).edges) out.new }
    ensures costs { CostsAtMost (4 * touched_in X.further now (shown_units X.further (standing X.plain scheduler.old) now)) steps.old steps.new (moves_of X.moved scheduler.old) (moves_of X.moved scheduler.new) }
{
    let touched = tick_all(scheduler, now, out, steps);
    ask_touched(scheduler, touched, now + 1, steps);
}
