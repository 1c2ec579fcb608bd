// The way from one event to the next.
ghost use Rattle.std.specs.Prelude.{◌≡◌, ℕ, ◌+◌, ◌-◌, ◌*◌, ◌<◌, ◌≤◌};
ghost use Rattle.kc_base.specs.Limits.{max_states};
ghost use Rattle.kc_span.specs.Span.{after};
ghost use Rattle.kc_block_spec.specs.Costs.{CostsAtMost};
ghost use Rattle.kc_block_spec.specs.Touch.{block_rule, touch, edges_of};
ghost use Rattle.kc_block_spec.specs.Leading.{Leads};
ghost use Rattle.kc_block_units.specs.Scheduler.{shown_units, IsScheduled};
ghost use Rattle.kc_block_units.specs.Standing.{standing, moves_of};

use crate::passing::pass;
use kc_base::{EdgeOut, StateTime, Steps};
use kc_block_units::Scheduler;
use kc_extra::Extra;
use std::sync::ledger::Ledger;

/// Goes on past the next event before `to`, or to `to` where none comes before it. Gives the state that is reached.
fn go<X: Extra, O: EdgeOut, L: Ledger>(
    scheduler: &mut Scheduler<X>,
    now: StateTime,
    to: StateTime,
    out: &mut O,
    steps: &mut Steps<L>,
) -> StateTime
    requires order { now < to }
    requires bound { to ≤ 3 * max_states }
    requires scheduled { IsScheduled X.further X.agrees (standing X.plain scheduler.old) now }
    ensures later { now < result }
    ensures within { result ≤ to }
    ensures scheduled { IsScheduled X.further X.agrees (standing X.plain scheduler.new) result }
    ensures units { shown_units X.further (standing X.plain scheduler.new) result ≡ after (block_rule X.further) now (result - now) (shown_units X.further (standing X.plain scheduler.old) now) }
    ensures edges { Leads O.led out.old (edges_of X.further now (result - now) (shown_units X.further (standing X.plain scheduler.old) now)) out.new }
    ensures costs { CostsAtMost (4 * touch X.further now (result - now) (shown_units X.further (standing X.plain scheduler.old) now)) steps.old steps.new (moves_of X.moved scheduler.old) (moves_of X.moved scheduler.new) }
{
    let at = scheduler.next();
    if at >= to {
        return to;
    }
    pass(scheduler, at, out, steps);
    at + 1
}

/// Goes on from the start of state `now` to the start of state `to`, event by event. The edges come in the order of their states. How
/// often units are called is bounded by how often they are touched (clause `costs`).
pub fn advance<X: Extra, O: EdgeOut, L: Ledger>(
    scheduler: &mut Scheduler<X>,
    now: StateTime,
    to: StateTime,
    out: &mut O,
    steps: &mut Steps<L>,
)
    requires order { now ≤ to }
    requires bound { to ≤ 3 * max_states }
    requires scheduled { IsScheduled X.further X.agrees (standing X.plain scheduler.old) now }
    ensures scheduled { IsScheduled X.further X.agrees (standing X.plain scheduler.new) to }
    ensures units { shown_units X.further (standing X.plain scheduler.new) to ≡ after (block_rule X.further) now (to - now) (shown_units X.further (standing X.plain scheduler.old) now) }
    ensures edges { Leads O.led out.old (edges_of X.further now (to - now) (shown_units X.further (standing X.plain scheduler.old) now)) out.new }
    ensures costs { CostsAtMost (4 * touch X.further now (to - now) (shown_units X.further (standing X.plain scheduler.old) now)) steps.old steps.new (moves_of X.moved scheduler.old) (moves_of X.moved scheduler.new) }
{
    let mut time = now;
    while time < to {
        time = go(scheduler, time, to, out, steps);
    }
}
