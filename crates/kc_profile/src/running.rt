// A run whose states are counted.
ghost use Rattle.std.specs.Prelude.{◌≡◌, ◌+◌, ◌-◌, ◌*◌, ◌^◌, ◌<◌, ◌≤◌, max, List, ◌++◌, length, replicate, None, IfOk, OnOk, OnErr, false, true, ℕ};
ghost use Rattle.kc_base.specs.Limits.{max_states};
ghost use Rattle.kc_trace.specs.Counting.{counted_all};
ghost use Rattle.kc_trace.specs.Out.{Puts, Prints};
ghost use Rattle.kc_trace.specs.Text.{text_of};
ghost use Rattle.kc_trace.specs.Trace.{out_of};
ghost use Rattle.kc_machine_spec.specs.Machine.{current};
ghost use Rattle.kc_machine_spec.specs.Run.{run_for, run_to, end_of};
ghost use Rattle.kc_machine_spec.specs.Passing.{activity_end};
ghost use Rattle.kc_machine.specs.Failing.{FailsIn};
ghost use Rattle.kc_machine.specs.Stepping.{IdlesFor};
ghost use Rattle.kc_profile.specs.declared.spot.Spot as spots;
ghost use Rattle.kc_profile.specs.Spots.{coming_spot, spots_for};
ghost use Rattle.kc_profile.specs.Tally.{IsTallyOf, total};
ghost use Rattle.kc_profile.specs.Passing.{Went, LastsFor, PassesAlone, CountsOn, ShowsNoMore};
ghost use Rattle.kc_profile.specs.Sights.{seen_of};
ghost use Rattle.kc_profile.specs.Statistics.{AreAllFew};
ghost use Rattle.kc_span.specs.Span.{QuietFor};
ghost use Rattle.kc_block_spec.specs.Touch.{block_rule};
ghost use Rattle.kc_machine_spec.specs.Board.{word_at};
ghost use Rattle.kc_machine.specs.Raising.{raised_in};

use crate::Profile;
use crate::sight::{Sight, is_undefined};
use crate::spot::spot_of;
use crate::statistics::Statistics;
use kc_base::{IntSet, Sink, StateTime, Steps};
use kc_extra::Extra;
use kc_intc::Requests;
use kc_machine::{End, Machine, WriteFault};
use kc_machine_spec::UnderWay;
use kc_trace::TraceOut;
use std::sync::ledger::Ledger;

// Goes on to a state before which the machine does not end. Answers that no request is raised.
fn go_to<X: Extra + Drop, S: Sink, L: Ledger>(
    machine: &mut Machine<X>,
    stop: StateTime,
    out: &mut TraceOut<S>,
    steps: &mut Steps<L>,
) -> Result<IntSet, WriteFault>
    requires lives { machine.old.machine.ended ≡ None }
    requires ahead { machine.old.machine.time < stop }
    requires lasts { LastsFor X.further (stop - machine.old.machine.time) machine.old.machine }
    requires room { stop ≤ 2 * max_states }
    requires unbroken { out.old.failed ≡ false }
    ensures forward { machine.old.machine.time < machine.new.machine.time }
    ensures within { machine.new.machine.time ≤ stop }
    ensures machine { machine.new.machine ≡ (run_to X.further machine.new.machine.time machine.old.machine).machine }
    ensures lines { Prints (out_of S.written S.faults out.old) (run_to X.further machine.new.machine.time machine.old.machine).records (out_of S.written S.faults out.new) }
    ensures fails { OnErr result (FailsIn X.further stop machine.old.machine (out_of S.written S.faults out.old) machine.new.machine (out_of S.written S.faults out.new)) }
    ensures spent { steps.new ≤ steps.old + 4 * (run_to X.further machine.new.machine.time machine.old.machine).touch }
    ensures moves { machine.new.moves ≤ machine.old.moves + 4 * (run_to X.further machine.new.machine.time machine.old.machine).touch }
    ensures written { OnOk result (out.new.failed ≡ false) }
    ensures none { IfOk result (λ set. set.0 ≡ 0) }
{
    match machine.run(stop, out, steps) {
        Ok(_) => Ok(IntSet(0)),
        Err(fault) => Err(fault),
    }
}

// Goes on over idle states in which the units do nothing, and so raise no request.
fn rest<X: Extra + Drop, S: Sink, L: Ledger>(
    machine: &mut Machine<X>,
    stop: StateTime,
    until: StateTime,
    out: &mut TraceOut<S>,
    steps: &mut Steps<L>,
) -> Result<IntSet, WriteFault>
    requires ahead { machine.old.machine.time < stop }
    requires idles { IdlesFor X.further (stop - machine.old.machine.time) machine.old.machine }
    requires quiet { QuietFor (block_rule X.further) machine.old.machine.time (stop - machine.old.machine.time) machine.old.machine.board.units }
    requires within { stop ≤ until }
    requires room { until ≤ 2 * max_states }
    requires unbroken { out.old.failed ≡ false }
    ensures went { Went X.further until result machine.old (out_of S.written S.faults out.old) steps.old machine.new (out_of S.written S.faults out.new) steps.new }
    ensures alone { PassesAlone X.further (machine.new.machine.time - machine.old.machine.time) machine.old.machine }
    ensures raised { IfOk result (λ set. set.0 ≡ raised_in X.further (run_for X.further (machine.new.machine.time - machine.old.machine.time - 1) machine.old.machine).machine) }
{
    go_to(machine, stop, out, steps)
}

// Goes on to the end of the present activity, or of the next one; the units do nothing up to there, and so raise no request.
fn finish<X: Extra + Drop, S: Sink, L: Ledger>(
    machine: &mut Machine<X>,
    until: StateTime,
    out: &mut TraceOut<S>,
    steps: &mut Steps<L>,
) -> Result<IntSet, WriteFault>
    requires lives { machine.old.machine.ended ≡ None }
    requires quiet { QuietFor (block_rule X.further) machine.old.machine.time (activity_end machine.old.machine - machine.old.machine.time) machine.old.machine.board.units }
    requires within { activity_end machine.old.machine ≤ until }
    requires room { until ≤ 2 * max_states }
    requires unbroken { out.old.failed ≡ false }
    ensures went { Went X.further until result machine.old (out_of S.written S.faults out.old) steps.old machine.new (out_of S.written S.faults out.new) steps.new }
    ensures alone { PassesAlone X.further (machine.new.machine.time - machine.old.machine.time) machine.old.machine }
    ensures raised { IfOk result (λ set. set.0 ≡ raised_in X.further (run_for X.further (machine.new.machine.time - machine.old.machine.time - 1) machine.old.machine).machine) }
{
    match machine.step_activity(out, steps) {
        Ok(_) => Ok(IntSet(0)),
        Err(fault) => Err(fault),
    }
}

// Goes on by one state, in which the units may do something; after a fault of the sink to the end of the activity, of which so many
// states are left, or to `until` if that comes first. Answers which requests are raised in the state.
fn pass_one<X: Extra + Drop, S: Sink, L: Ledger>(
    machine: &mut Machine<X>,
    left: u8,
    until: StateTime,
    out: &mut TraceOut<S>,
    steps: &mut Steps<L>,
) -> Result<IntSet, WriteFault>
    requires lives { machine.old.machine.ended ≡ None }
    requires left { left ≡ (current machine.old.machine).left }
    requires ahead { machine.old.machine.time < until }
    requires room { until ≤ 2 * max_states }
    requires unbroken { out.old.failed ≡ false }
    ensures went { Went X.further until result machine.old (out_of S.written S.faults out.old) steps.old machine.new (out_of S.written S.faults out.new) steps.new }
    ensures alone { OnOk result (PassesAlone X.further (machine.new.machine.time - machine.old.machine.time) machine.old.machine) }
    ensures raised { IfOk result (λ set. set.0 ≡ raised_in X.further (run_for X.further (machine.new.machine.time - machine.old.machine.time - 1) machine.old.machine).machine) }
{
    let end = machine.now() + u64::from(left.max(1));
    machine.step_state(until.min(end), out, steps)
}

// Goes on by states of one spot: those of idling or of an activity to its end, where the units do nothing up to there, and else by one
// state. Answers which requests are raised in the last of them; in those before none is.
fn pass<X: Extra + Drop, S: Sink, L: Ledger>(
    machine: &mut Machine<X>,
    left: u8,
    until: StateTime,
    out: &mut TraceOut<S>,
    steps: &mut Steps<L>,
) -> Result<IntSet, WriteFault>
    requires lives { machine.old.machine.ended ≡ None }
    requires left { left ≡ (current machine.old.machine).left }
    requires ahead { machine.old.machine.time < until }
    requires room { until ≤ 2 * max_states }
    requires unbroken { out.old.failed ≡ false }
    ensures went { Went X.further until result machine.old (out_of S.written S.faults out.old) steps.old machine.new (out_of S.written S.faults out.new) steps.new }
    ensures alone { OnOk result (PassesAlone X.further (machine.new.machine.time - machine.old.machine.time) machine.old.machine) }
    ensures raised { IfOk result (λ set. set.0 ≡ raised_in X.further (run_for X.further (machine.new.machine.time - machine.old.machine.time - 1) machine.old.machine).machine) }
{
    let now = machine.now();
    let stop = machine.due().min(until);
    let rested = machine.idles_to(stop);
    if now < rested {
        rest(machine, rested, until, out, steps)
    } else if now + u64::from(left) <= stop {
        finish(machine, until, out, steps)
    } else {
        pass_one(machine, left, until, out, steps)
    }
}

/// What a machine shows at the start of a state.
#[derive(Clone, Copy)]
struct Start {
    at: StateTime,
    requests: Requests,
    pc: u16,
    stack: u16,
}

// What a machine shows now.
fn start_of<X: Extra + Drop>(machine: &Machine<X>) -> Start
    ensures at { result.at ≡ machine.now.machine.time }
    ensures requests { result.requests ≡ machine.now.machine.board.units.board_registers.requests }
    ensures pc { result.pc ≡ machine.now.machine.cpu.pc }
    ensures stack { result.stack ≡ word_at machine.now.machine.board.memory 0x18 }
{
    Start {
        at: machine.now(),
        requests: machine.requests(),
        pc: machine.pc(),
        stack: machine.stack(),
    }
}

// What the last state has shown of those that have passed since a start, of an activity that came then.
fn sight_of<X: Extra + Drop>(
    start: Start,
    activity: UnderWay,
    raised: IntSet,
    machine: &Machine<X>,
) -> Sight
    requires passed { start.at < machine.now.machine.time }
    ensures { result ≡ seen_of start.at start.requests start.pc start.stack activity raised machine.now.machine }
{
    let passed = machine.now() - start.at;
    Sight {
        at: machine.now() - 1,
        raised,
        before: start.requests,
        after: machine.requests(),
        ends: if u64::from(activity.left) <= passed {
            Some(activity.doing)
        } else {
            None
        },
        is_broken: is_undefined(machine.ended()),
        pc: start.pc,
        next_pc: machine.pc(),
        stack: start.stack,
        next_stack: machine.stack(),
    }
}

// Goes on by states of one spot, and counts them.
fn count<X: Extra + Drop, S: Sink, L: Ledger>(
    machine: &mut Machine<X>,
    profile: &mut Profile,
    statistics: &mut Statistics,
    until: StateTime,
    out: &mut TraceOut<S>,
    steps: &mut Steps<L>,
) -> Result<(), WriteFault>
    requires lives { machine.old.machine.ended ≡ None }
    requires ahead { machine.old.machine.time < until }
    requires room { until ≤ 2 * max_states }
    requires fits { total profile.old + (until - machine.old.machine.time) < 2 ^ 64 }
    requires unbroken { out.old.failed ≡ false }
    requires few { AreAllFew (2 ^ 64 - 2) statistics.old }
    ensures went { Went X.further until result machine.old (out_of S.written S.faults out.old) steps.old machine.new (out_of S.written S.faults out.new) steps.new }
    ensures statistics { OnOk result (CountsOn X.further statistics.old.life machine.old.machine statistics.old machine.new.machine statistics.new) }
    ensures life { statistics.new.life ≡ statistics.old.life }
    ensures few { (n : ℕ) → AreAllFew n statistics.old → AreAllFew (n + 1) statistics.new }
    ensures profile { (before : List spots.Spot) → IsTallyOf before profile.old → IsTallyOf (before ++ replicate (machine.new.machine.time - machine.old.machine.time) (coming_spot machine.old.machine)) profile.new }
    ensures total { total profile.new ≡ total profile.old + (machine.new.machine.time - machine.old.machine.time) }
{
    let activity = machine.current(steps);
    let spot = spot_of(activity.doing, machine.pc());
    let start = start_of(machine);
    let passed = pass(machine, activity.left, until, out, steps);
    profile.add(spot, machine.now() - start.at);
    match passed {
        Ok(raised) => {
            statistics.see(&sight_of(start, activity, raised, machine));
            Ok(())
        }
        Err(fault) => Err(fault),
    }
}

/// Runs a machine as `Machine::run` does, and adds to a profile where each state that passes goes, of which all are counted once,
/// and to the statistics what each state shows. Idle states are passed at once up to the next in which the units do something.
///
/// After a fault of the sink the machine stands at the end of the activity, or of the idle state, in whose lines the sink failed,
/// and the states up to there are counted.
pub fn run_profiled<X: Extra + Drop, S: Sink, L: Ledger>(
    machine: &mut Machine<X>,
    profile: &mut Profile,
    statistics: &mut Statistics,
    until: StateTime,
    out: &mut TraceOut<S>,
    steps: &mut Steps<L>,
) -> Result<End, WriteFault>
    requires until { until ≤ 2 * max_states }
    requires unbroken { out.old.failed ≡ false }
    requires room { total profile.old + until < 2 ^ 64 }
    requires few { AreAllFew (2 ^ 64 - 1 - until) statistics.old }
    ensures end { IfOk result (λ end. end ≡ end_of (run_to X.further until machine.old.machine).machine) }
    ensures machine { OnOk result (machine.new.machine ≡ (run_to X.further until machine.old.machine).machine) }
    ensures lines { Puts (out_of S.written S.faults out.old) (text_of (run_to X.further until machine.old.machine).records) (out_of S.written S.faults out.new) }
    ensures written { OnOk result (out.new.failed ≡ false) }
    ensures counts { OnOk result (out.new.counts ≡ counted_all (run_to X.further until machine.old.machine).records out.old.counts) }
    ensures fails { OnErr result (FailsIn X.further until machine.old.machine (out_of S.written S.faults out.old) machine.new.machine (out_of S.written S.faults out.new)) }
    ensures stands { machine.new.machine ≡ (run_to X.further machine.new.machine.time machine.old.machine).machine }
    ensures within { machine.new.machine.time ≤ max until machine.old.machine.time }
    ensures goes { machine.old.machine.ended ≡ None → machine.old.machine.time < until → machine.old.machine.time < machine.new.machine.time }
    ensures spent { steps.new ≤ steps.old + 4 * (run_to X.further machine.new.machine.time machine.old.machine).touch }
    ensures moves { machine.new.moves ≤ machine.old.moves + 4 * (run_to X.further machine.new.machine.time machine.old.machine).touch }
    ensures profile { (before : List spots.Spot) → IsTallyOf before profile.old → IsTallyOf (before ++ spots_for X.further (machine.new.machine.time - machine.old.machine.time) machine.old.machine) profile.new }
    ensures all { OnOk result (spots_for X.further (until - machine.old.machine.time) machine.old.machine ≡ spots_for X.further (machine.new.machine.time - machine.old.machine.time) machine.old.machine) }
    ensures passed { length (spots_for X.further (machine.new.machine.time - machine.old.machine.time) machine.old.machine) ≡ machine.new.machine.time - machine.old.machine.time }
    ensures total { total profile.new ≡ total profile.old + (machine.new.machine.time - machine.old.machine.time) }
    ensures statistics { OnOk result (CountsOn X.further statistics.old.life machine.old.machine statistics.old machine.new.machine statistics.new) }
    ensures shown { OnOk result (ShowsNoMore X.further until machine.old.machine machine.new.machine) }
    ensures life { statistics.new.life ≡ statistics.old.life }
    ensures few { (n : ℕ) → AreAllFew n statistics.old → AreAllFew (n + (machine.new.machine.time - machine.old.machine.time)) statistics.new }
{
    while machine.now() < until {
        if let Some(end) = machine.ended() {
            return Ok(end);
        }
        count(machine, profile, statistics, until, out, steps)?;
    }
    Ok(machine.ended().unwrap_or(End::Spent))
}
