// The commands that let the machine go on.
ghost use Rattle.std.specs.Prelude.{◌≡◌, ℕ, ◌+◌, ◌-◌, ◌*◌, ◌<◌, ◌≤◌, max, nat_lt, None, IfOk, OnOk, OnErr, false};
ghost use Rattle.kc_base.specs.Limits.{max_states};
ghost use Rattle.kc_trace.specs.Out.{Prints};
ghost use Rattle.kc_trace.specs.Trace.{out_of};
ghost use Rattle.kc_machine_spec.specs.Machine.{current};
ghost use Rattle.kc_machine_spec.specs.Run.{run_for};
ghost use Rattle.kc_machine.specs.Stepping.{IdlesFor};
ghost use Rattle.kc_debug.specs.Faults.{ReportsFault};
ghost use Rattle.kc_debug.specs.Passing.{AreAtOnce, IsFollowed, IsKept, Passed, IsClear, Reported, Stood, Gone, Spends, SpendsLooking};
ghost use Rattle.kc_debug.specs.Stands.{FailsWithin};
ghost use Rattle.kc_debug.specs.Stops.{activity_states, states_at_once, states_of_activities, states_until};

use crate::activities::{Begun, note, note_idle};
use crate::stops::Stops;
use circular_buffer::HeapCircularBuffer;
use kc_base::{Sink, StateTime, Steps};
use kc_extra::Extra;
use kc_machine::{Machine, WriteFault};
use kc_trace::TraceOut;
use std::sync::ledger::Ledger;

/// The most states of an activity.
const ACTIVITY_LIMIT: u64 = 255;

/// Goes on to the end of the present activity, or of the next one.
pub(crate) fn pass_activity<X: Extra + Drop, S: Sink, L: Ledger>(
    begun: &mut HeapCircularBuffer<Begun>,
    machine: &mut Machine<X>,
    out: &mut TraceOut<S>,
    steps: &mut Steps<L>,
) -> Result<(), WriteFault>
    requires kept { IsKept begun.old }
    requires lives { machine.old.machine.ended ≡ None }
    requires room { machine.old.machine.time ≤ 2 * max_states }
    requires unbroken { out.old.failed ≡ false }
    ensures passed { Passed X.further (current machine.old.machine).left machine.old.machine (out_of S.written S.faults out.old) begun.old machine.new.machine (out_of S.written S.faults out.new) begun.new }
    ensures few { (current machine.old.machine).left ≤ 255 }
    ensures spent { Spends X.further (current machine.old.machine).left machine.old steps.old machine.new steps.new }
    ensures fault { ReportsFault result out.new.failed }
{
    note(begun, machine);
    match machine.step_activity(out, steps) {
        Ok(_) => Ok(()),
        Err(fault) => Err(fault),
    }
}

/// Goes on by one state.
pub(crate) fn pass_state<X: Extra + Drop, S: Sink, L: Ledger>(
    begun: &mut HeapCircularBuffer<Begun>,
    machine: &mut Machine<X>,
    out: &mut TraceOut<S>,
    steps: &mut Steps<L>,
) -> Result<(), WriteFault>
    requires kept { IsKept begun.old }
    requires lives { machine.old.machine.ended ≡ None }
    requires room { machine.old.machine.time < 2 * max_states }
    requires unbroken { out.old.failed ≡ false }
    ensures passed { Passed X.further 1 machine.old.machine (out_of S.written S.faults out.old) begun.old machine.new.machine (out_of S.written S.faults out.new) begun.new }
    ensures spent { Spends X.further 1 machine.old steps.old machine.new steps.new }
    ensures fault { ReportsFault result out.new.failed }
{
    note(begun, machine);
    let next = machine.now() + 1;
    match machine.run(next, out, steps) {
        Ok(_) => Ok(()),
        Err(fault) => Err(fault),
    }
}

// Goes on to a state up to which the machine idles.
fn pass_idle<X: Extra + Drop, S: Sink, L: Ledger>(
    begun: &mut HeapCircularBuffer<Begun>,
    end: StateTime,
    machine: &mut Machine<X>,
    out: &mut TraceOut<S>,
    steps: &mut Steps<L>,
) -> Result<(), WriteFault>
    requires kept { IsKept begun.old }
    requires ahead { machine.old.machine.time < end }
    requires room { end ≤ 2 * max_states }
    requires idles { IdlesFor X.further (end - machine.old.machine.time) machine.old.machine }
    requires unbroken { out.old.failed ≡ false }
    ensures reported { Reported X.further (end - machine.old.machine.time) machine.old.machine (out_of S.written S.faults out.old) begun.old (out_of S.written S.faults out.new) begun.new }
    ensures stood { OnOk result (Stood X.further (end - machine.old.machine.time) machine.old.machine machine.new.machine) }
    ensures fails { OnErr result (FailsWithin X.further (λ m. 1) (end - machine.old.machine.time) machine.old.machine (out_of S.written S.faults out.old) machine.new.machine (out_of S.written S.faults out.new)) }
    ensures spent { Spends X.further (end - machine.old.machine.time) machine.old steps.old machine.new steps.new }
    ensures within { machine.new.machine.time ≤ end }
    ensures fault { ReportsFault result out.new.failed }
{
    note_idle(begun, end, machine);
    match machine.run(end, out, steps) {
        Ok(_) => Ok(()),
        Err(fault) => Err(fault),
    }
}

// Goes on by some of so many activities, of which one that is under way is the first, and answers by how many.
fn pass_some<X: Extra + Drop, S: Sink, L: Ledger>(
    begun: &mut HeapCircularBuffer<Begun>,
    left: u32,
    machine: &mut Machine<X>,
    out: &mut TraceOut<S>,
    steps: &mut Steps<L>,
) -> Result<u32, WriteFault>
    requires kept { IsKept begun.old }
    requires lives { machine.old.machine.ended ≡ None }
    requires some { 0 < left }
    requires room { machine.old.machine.time + 255 * left ≤ 2 * max_states }
    requires unbroken { out.old.failed ≡ false }
    ensures passed { (states : ℕ) × (rest : ℕ) × (states_of_activities X.further left machine.old.machine ≡ states + rest) × Reported X.further states machine.old.machine (out_of S.written S.faults out.old) begun.old (out_of S.written S.faults out.new) begun.new × OnErr result (FailsWithin X.further activity_states states machine.old.machine (out_of S.written S.faults out.old) machine.new.machine (out_of S.written S.faults out.new)) × Spends X.further states machine.old steps.old machine.new steps.new × IfOk result (λ passed. Stood X.further states machine.old.machine machine.new.machine × (rest ≡ states_of_activities X.further (left - passed) machine.new.machine)) }
    ensures some { IfOk result (λ passed. (0 < passed) × (passed ≤ left) × (machine.new.machine.time + 255 * (left - passed) ≤ machine.old.machine.time + 255 * left)) }
    ensures time { machine.new.machine.time ≤ machine.old.machine.time + 255 * left }
    ensures fault { ReportsFault result out.new.failed }
{
    let now = machine.now();
    let end = machine.idles_to(now + u64::from(left));
    if now < end {
        match pass_idle(begun, end, machine, out, steps) {
            Ok(()) => Ok((end - now) as u32),
            Err(fault) => Err(fault),
        }
    } else {
        match pass_activity(begun, machine, out, steps) {
            Ok(()) => Ok(1),
            Err(fault) => Err(fault),
        }
    }
}

/// Goes on by so many activities; one that is under way is the first. After a fault of the sink the machine stands at the end of
/// the activity in whose lines that was.
pub fn step<X: Extra + Drop, S: Sink, L: Ledger>(
    begun: &mut HeapCircularBuffer<Begun>,
    count: u32,
    machine: &mut Machine<X>,
    out: &mut TraceOut<S>,
    steps: &mut Steps<L>,
) -> Result<(), WriteFault>
    requires kept { IsKept begun.old }
    requires room { machine.old.machine.time + 255 * count ≤ 2 * max_states }
    requires unbroken { out.old.failed ≡ false }
    ensures lines { Prints (out_of S.written S.faults out.old) (run_for X.further (states_of_activities X.further count machine.old.machine) machine.old.machine).records (out_of S.written S.faults out.new) }
    ensures gone { OnOk result (Gone X.further (states_of_activities X.further count machine.old.machine) machine.old.machine begun.old machine.new.machine begun.new) }
    ensures fails { OnErr result (FailsWithin X.further activity_states (states_of_activities X.further count machine.old.machine) machine.old.machine (out_of S.written S.faults out.old) machine.new.machine (out_of S.written S.faults out.new)) }
    ensures spent { Spends X.further (states_of_activities X.further count machine.old.machine) machine.old steps.old machine.new steps.new }
    ensures time { machine.new.machine.time ≤ machine.old.machine.time + 255 * count }
    ensures capacity { begun.new.capacity ≡ begun.old.capacity }
    ensures fault { ReportsFault result out.new.failed }
{
    let mut left = count;
    while left > 0 {
        if machine.ended().is_some() {
            return Ok(());
        }
        let passed = pass_some(begun, left, machine, out, steps)?;
        left -= passed;
    }
    Ok(())
}

// Whether the state `until` is nearer than the end of an activity may be.
fn is_near(until: StateTime, now: StateTime) -> bool
    ensures { result ≡ nat_lt (until - now) 255 }
{
    until.saturating_sub(now) < ACTIVITY_LIMIT
}

// Goes on to the end of an activity, or by one state where the state `until` is near.
fn pass_one<X: Extra + Drop, S: Sink, L: Ledger>(
    begun: &mut HeapCircularBuffer<Begun>,
    until: StateTime,
    machine: &mut Machine<X>,
    out: &mut TraceOut<S>,
    steps: &mut Steps<L>,
) -> Result<(), WriteFault>
    requires kept { IsKept begun.old }
    requires lives { machine.old.machine.ended ≡ None }
    requires ahead { machine.old.machine.time < until }
    requires room { until ≤ 2 * max_states }
    requires unbroken { out.old.failed ≡ false }
    ensures passed { Passed X.further (states_at_once until machine.old.machine) machine.old.machine (out_of S.written S.faults out.old) begun.old machine.new.machine (out_of S.written S.faults out.new) begun.new }
    ensures few { states_at_once until machine.old.machine ≤ until - machine.old.machine.time }
    ensures spent { Spends X.further (states_at_once until machine.old.machine) machine.old steps.old machine.new steps.new }
    ensures fault { ReportsFault result out.new.failed }
{
    if is_near(until, machine.now()) {
        pass_state(begun, machine, out, steps)
    } else {
        pass_activity(begun, machine, out, steps)
    }
}

// Up to where the machine idles and nothing stops the run; the present state where that is not so.
fn idle_end<X: Extra + Drop, S: Sink, T: Stops<X, S>>(
    stops: &T,
    until: StateTime,
    machine: &Machine<X>,
) -> StateTime
    ensures from { machine.now.machine.time ≤ result }
    ensures within { result ≤ max until machine.now.machine.time }
    ensures idles { IdlesFor X.further (result - machine.now.machine.time) machine.now.machine }
    ensures clear { IsClear X.further (T.stopping stops.now) (result - machine.now.machine.time) machine.now.machine }
{
    if stops.passes_idle(machine) {
        machine.idles_to(until)
    } else {
        machine.now()
    }
}

/// Goes on to the end of an activity, or over idle states, or by one state where the state `until` is near.
pub(crate) fn pass<X: Extra + Drop, S: Sink, L: Ledger, T: Stops<X, S>>(
    begun: &mut HeapCircularBuffer<Begun>,
    stops: &T,
    until: StateTime,
    machine: &mut Machine<X>,
    out: &mut TraceOut<S>,
    steps: &mut Steps<L>,
) -> Result<(), WriteFault>
    requires kept { IsKept begun.old }
    requires lives { machine.old.machine.ended ≡ None }
    requires ahead { machine.old.machine.time < until }
    requires room { until ≤ 2 * max_states }
    requires unbroken { out.old.failed ≡ false }
    ensures passed { (states : ℕ) × (states ≤ until - machine.old.machine.time) × IsClear X.further (T.stopping stops.now) states machine.old.machine × AreAtOnce X.further states machine.old.machine × Reported X.further states machine.old.machine (out_of S.written S.faults out.old) begun.old (out_of S.written S.faults out.new) begun.new × OnErr result (FailsWithin X.further (states_at_once until) states machine.old.machine (out_of S.written S.faults out.old) machine.new.machine (out_of S.written S.faults out.new)) × Spends X.further states machine.old steps.old machine.new steps.new × OnOk result (Stood X.further states machine.old.machine machine.new.machine) }
    ensures within { machine.new.machine.time ≤ until }
    ensures fault { ReportsFault result out.new.failed }
{
    let end = idle_end(stops, until, machine);
    if machine.now() < end {
        pass_idle(begun, end, machine, out, steps)
    } else {
        pass_one(begun, until, machine, out, steps)
    }
}

/// Goes on to a state, or to the end of the first activity that stops it. After a fault of the sink the machine stands at the
/// end of the activity in whose lines that was, or of the state where `until` is less than 255 states away.
pub fn go<X: Extra + Drop, S: Sink, L: Ledger, T: Stops<X, S>>(
    begun: &mut HeapCircularBuffer<Begun>,
    stops: &mut T,
    until: StateTime,
    machine: &mut Machine<X>,
    out: &mut TraceOut<S>,
    steps: &mut Steps<L>,
) -> Result<(), WriteFault>
    requires ready { T.Ready stops.old (out_of S.written S.faults out.old) }
    requires kept { IsKept begun.old }
    requires room { until ≤ 2 * max_states }
    requires unbroken { out.old.failed ≡ false }
    ensures lines { Prints (out_of S.written S.faults out.old) (run_for X.further (states_until X.further (T.stopping stops.old) until machine.old.machine) machine.old.machine).records (out_of S.written S.faults out.new) }
    ensures gone { OnOk result (Gone X.further (states_until X.further (T.stopping stops.old) until machine.old.machine) machine.old.machine begun.old machine.new.machine begun.new) }
    ensures fails { OnErr result (FailsWithin X.further (states_at_once until) (states_until X.further (T.stopping stops.old) until machine.old.machine) machine.old.machine (out_of S.written S.faults out.old) machine.new.machine (out_of S.written S.faults out.new)) }
    ensures spent { SpendsLooking X.further (T.looks stops.old) (states_until X.further (T.stopping stops.old) until machine.old.machine) machine.old steps.old machine.new steps.new }
    ensures stops { T.settings stops.new ≡ T.settings stops.old }
    ensures followed { OnOk result (IsFollowed X.further (λ states. T.Follows stops.new machine.old.machine (out_of S.written S.faults out.old) states) (machine.new.machine.time - machine.old.machine.time) machine.old.machine) }
    ensures time { machine.new.machine.time ≤ max until machine.old.machine.time }
    ensures capacity { begun.new.capacity ≡ begun.old.capacity }
    ensures fault { ReportsFault result out.new.failed }
{
    stops.begin(machine, out, steps);
    while machine.now() < until {
        if machine.ended().is_some() {
            return Ok(());
        }
        pass(begun, stops, until, machine, out, steps)?;
        if stops.are_met(machine, out, steps) {
            return Ok(());
        }
    }
    Ok(())
}
