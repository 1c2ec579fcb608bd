// Going on in one life of a board with a watchdog: by activities, or to a state or a breakpoint, and no further than to the deadline.
ghost use Rattle.std.specs.Prelude.{◌≡◌, ◌*◌, ◌+◌, ◌-◌, ◌<◌, ◌≤◌, max, None, IfOk, IfSome, OnOk, false};
ghost use Rattle.kc_base.specs.Limits.{max_states};
ghost use Rattle.kc_trace.specs.Counting.{counted_all};
ghost use Rattle.kc_trace.specs.Out.{Puts};
ghost use Rattle.kc_trace.specs.Text.{text_of};
ghost use Rattle.kc_trace.specs.Trace.{out_of};
ghost use Rattle.kc_machine_spec.specs.Text.{HasRun};
ghost use Rattle.kc_cycles.specs.Life.{life_for};
ghost use Rattle.kc_cycles.specs.Making.{deadline_of};
ghost use Rattle.kc_debug.specs.Debugging.{is_before, HasLived, IsAhead, IsInTime, PassesInLife};
ghost use Rattle.kc_debug.specs.Faults.{ReportsFault};
ghost use Rattle.kc_debug.specs.Passing.{IsFollowed, IsKept};
ghost use Rattle.kc_debug.specs.Stops.{states_of_activities, states_until};

use crate::activities::Begun;
use crate::carrying::{pass, pass_activity, pass_state};
use crate::stops::Stops;
use circular_buffer::HeapCircularBuffer;
use kc_base::{Sink, StateTime, Steps};
use kc_cycles::{Watchdog, deadline_in, has_come, span_end};
use kc_extra::{Extra, Pair};
use kc_machine::{Machine, WriteFault};
use kc_trace::TraceOut;
use std::sync::ledger::Ledger;

// Whether a deadline comes before a state.
fn comes_before(deadline: Option<StateTime>, end: StateTime) -> bool
    ensures { result ≡ is_before deadline end }
{
    match deadline {
        Some(at) => at < end,
        None => false,
    }
}

fn states_left(left: u8) -> u64
    ensures same { result ≡ left }
    ensures few { result ≤ 255 }
{
    u64::from(left)
}

// Goes on to the end of the present activity, or by one state of it where the deadline comes before that end; answers how many
// activities are over then.
fn pass_in_life<X: Extra + Drop, S: Sink, L: Ledger>(
    begun: &mut HeapCircularBuffer<Begun>,
    machine: &mut Machine<Pair<X, Watchdog>>,
    out: &mut TraceOut<S>,
    steps: &mut Steps<L>,
) -> Result<u32, WriteFault>
    requires kept { IsKept begun.old }
    requires lives { machine.old.machine.ended ≡ None }
    requires ahead { IsAhead (deadline_of machine.old.machine.board.units.further) machine.old.machine.time }
    requires room { machine.old.machine.time < 2 * max_states }
    requires unbroken { out.old.failed ≡ false }
    ensures few { IfOk result (λ activities. activities ≤ 1) }
    ensures passes { PassesInLife ⟦<Pair<X, Watchdog> as Extra>⟧.further deadline_of machine.old.machine (out_of S.written S.faults out.old) begun.old result machine.new.machine (out_of S.written S.faults out.new) begun.new }
    ensures fault { ReportsFault result out.new.failed }
{
    let left = states_left(machine.current(steps).left);
    let end = machine.now() + left;
    if comes_before(deadline_in(machine), end) {
        match pass_state(begun, machine, out, steps) {
            Ok(()) => Ok(0),
            Err(fault) => Err(fault),
        }
    } else {
        match pass_activity(begun, machine, out, steps) {
            Ok(()) => Ok(1),
            Err(fault) => Err(fault),
        }
    }
}

/// Goes on by so many activities of a life; answers whether the watchdog resets the chip before they are over.
pub fn step_in_life<X: Extra + Drop, S: Sink, L: Ledger>(
    begun: &mut HeapCircularBuffer<Begun>,
    count: u32,
    machine: &mut Machine<Pair<X, Watchdog>>,
    out: &mut TraceOut<S>,
    steps: &mut Steps<L>,
) -> Result<bool, WriteFault>
    requires kept { IsKept begun.old }
    requires in_time { IsInTime (deadline_of machine.old.machine.board.units.further) machine.old.machine.time }
    requires ran { IfSome machine.old.machine.ended (λ how. HasRun how machine.old.machine.time) }
    requires room { machine.old.machine.time + 255 * count ≤ 2 * max_states }
    requires unbroken { out.old.failed ≡ false }
    ensures lines { Puts (out_of S.written S.faults out.old) (text_of (life_for ⟦<Pair<X, Watchdog> as Extra>⟧.further deadline_of (states_of_activities ⟦<Pair<X, Watchdog> as Extra>⟧.further count machine.old.machine) machine.old.machine).ran.records) (out_of S.written S.faults out.new) }
    ensures lived { IfOk result (λ late. HasLived ⟦<Pair<X, Watchdog> as Extra>⟧.further deadline_of (states_of_activities ⟦<Pair<X, Watchdog> as Extra>⟧.further count machine.old.machine) machine.old.machine begun.old late machine.new.machine begun.new) }
    ensures time { machine.new.machine.time ≤ machine.old.machine.time + 255 * count }
    ensures capacity { begun.new.capacity ≡ begun.old.capacity }
    ensures fault { ReportsFault result out.new.failed }
{
    let mut left = count;
    while left > 0 {
        if machine.ended().is_some() {
            return Ok(false);
        }
        if has_come(deadline_in(machine), machine.now()) {
            // (the present activity has a state left, which the chip does not come to)
            return Ok(machine.current(steps).left > 0);
        }
        let passed = pass_in_life(begun, machine, out, steps)?;
        left -= passed;
    }
    Ok(false)
}

/// Goes on to a state of a life, or to the end of the first activity that stops it; answers whether the watchdog resets the chip
/// before.
pub fn go_in_life<X: Extra + Drop, S: Sink, L: Ledger, T: Stops<Pair<X, Watchdog>, S>>(
    begun: &mut HeapCircularBuffer<Begun>,
    stops: &mut T,
    until: StateTime,
    machine: &mut Machine<Pair<X, Watchdog>>,
    out: &mut TraceOut<S>,
    steps: &mut Steps<L>,
) -> Result<bool, WriteFault>
    requires ready { T.Ready stops.old (out_of S.written S.faults out.old) }
    requires kept { IsKept begun.old }
    requires in_time { IsInTime (deadline_of machine.old.machine.board.units.further) machine.old.machine.time }
    requires ran { IfSome machine.old.machine.ended (λ how. HasRun how machine.old.machine.time) }
    requires room { until ≤ 2 * max_states }
    requires unbroken { out.old.failed ≡ false }
    ensures lines { Puts (out_of S.written S.faults out.old) (text_of (life_for ⟦<Pair<X, Watchdog> as Extra>⟧.further deadline_of (states_until ⟦<Pair<X, Watchdog> as Extra>⟧.further (T.stopping stops.old) until machine.old.machine) machine.old.machine).ran.records) (out_of S.written S.faults out.new) }
    ensures lived { IfOk result (λ late. HasLived ⟦<Pair<X, Watchdog> as Extra>⟧.further deadline_of (states_until ⟦<Pair<X, Watchdog> as Extra>⟧.further (T.stopping stops.old) until machine.old.machine) machine.old.machine begun.old late machine.new.machine begun.new) }
    ensures counts { OnOk result (out.new.counts ≡ counted_all (life_for ⟦<Pair<X, Watchdog> as Extra>⟧.further deadline_of (states_until ⟦<Pair<X, Watchdog> as Extra>⟧.further (T.stopping stops.old) until machine.old.machine) machine.old.machine).ran.records out.old.counts) }
    ensures stops { T.settings stops.new ≡ T.settings stops.old }
    ensures followed { OnOk result (IsFollowed ⟦<Pair<X, Watchdog> as Extra>⟧.further (λ states. T.Follows stops.new machine.old.machine (out_of S.written S.faults out.old) states) (machine.new.machine.time - machine.old.machine.time) machine.old.machine) }
    ensures time { machine.new.machine.time ≤ max until machine.old.machine.time }
    ensures capacity { begun.new.capacity ≡ begun.old.capacity }
    ensures fault { ReportsFault result out.new.failed }
{
    stops.begin(machine, out, steps);
    while machine.now() < until {
        if machine.ended().is_some() {
            return Ok(false);
        }
        let now = machine.now();
        let deadline = deadline_in(machine);
        if has_come(deadline, now) {
            return Ok(true);
        }
        let stop = span_end(now, deadline, until);
        pass(begun, stops, stop, machine, out, steps)?;
        if stops.are_met(machine, out, steps) {
            return Ok(false);
        }
    }
    Ok(false)
}
