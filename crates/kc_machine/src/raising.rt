// One state time, with the requests that the units raise in it.
ghost use Rattle.std.specs.Prelude.{◌≡◌, ◌≤◌, ◌<◌, ◌+◌, ◌-◌, ◌*◌, IfOk, OnOk, OnErr, None, false};
ghost use Rattle.kc_base.specs.Limits.{max_states};
ghost use Rattle.kc_trace.specs.Trace.{out_of};
ghost use Rattle.kc_machine_spec.specs.Machine.{scene_of, current};
ghost use Rattle.kc_machine_spec.specs.Passing.{left_at, whole};
ghost use Rattle.kc_machine.specs.Failing.{FailsIn};
ghost use Rattle.kc_machine.specs.Passing.{ticks_to, GoesAs, MayPass, PassesAs};
ghost use Rattle.kc_machine.specs.Sound.{IsGoing, IsPredecoded};
ghost use Rattle.kc_machine.specs.Raising.{raised_in, StepsAs};

use crate::parts::Core;
use crate::passing::put_last;
use kc_base::{IntSet, Sink, StateTime, Steps};
use kc_extra::Extra;
use kc_machine_spec::UnderWay;
use kc_trace::{TraceOut, WriteFault};
use std::sync::ledger::Ledger;

impl<X: Extra + Drop> Core<X> {
    ghost use Rattle.kc_machine.specs.Bus.{held_of};
    ghost use Rattle.kc_machine.specs.Seen.{machine_of};

    // All units go one state on, and the edges that they give are printed. Answers which requests they raise, also of those that
    // are pending already: the Tick is done while none is, and those that were are put back.
    fn tick<S: Sink, L: Ledger>(&mut self, out: &mut TraceOut<S>, steps: &mut Steps<L>) -> IntSet
        requires room { self.old.time < 3 * max_states }
        requires stands { self.old.bus.block.time ≡ self.old.time }
        ensures goes { GoesAs (ticks_to X.further (machine_of self.old) self.old.time 1 self.old.under_way) self.old self.new (out_of S.written S.faults out.old) (out_of S.written S.faults out.new) steps.old steps.new }
        ensures scene { held_of self.new.bus ≡ scene_of (machine_of self.new) }
        ensures past { self.new.bus.block.time ≡ self.old.time + 1 }
        ensures raised { result.0 ≡ raised_in X.further (machine_of self.old) }
    {
        let pending = self.bus.withdraw();
        self.advance(1, out, steps);
        let raised = IntSet(self.bus.block.requests().pending);
        self.bus.raise(pending);
        raised
    }

    // Goes on by one state of an activity, which is not its last; answers which requests the units raise in it.
    fn wait_state<S: Sink, L: Ledger>(
        &mut self,
        activity: UnderWay,
        out: &mut TraceOut<S>,
        steps: &mut Steps<L>,
    ) -> IntSet
        requires more { 1 < activity.left }
        requires going { IsGoing activity }
        requires predecoded { IsPredecoded self.old }
        requires room { self.old.time < 2 * max_states }
        ensures goes { GoesAs (ticks_to X.further (machine_of self.old) (self.old.time + 1) 1 (left_at activity (activity.left - 1))) self.old self.new (out_of S.written S.faults out.old) (out_of S.written S.faults out.new) steps.old steps.new }
        ensures raised { result.0 ≡ raised_in X.further (machine_of self.old) }
        ensures predecoded { IsPredecoded self.new }
    {
        let next = self.time + 1;
        let raised = self.tick(out, steps);
        self.time = next;
        self.under_way = Some(UnderWay {
            doing: activity.doing,
            left: activity.left - 1,
        });
        raised
    }

    // Goes on by the last state of an activity; answers which requests the units raise in it.
    fn end_state<S: Sink, L: Ledger>(
        &mut self,
        activity: UnderWay,
        out: &mut TraceOut<S>,
        steps: &mut Steps<L>,
    ) -> IntSet
        requires last { activity.left ≡ 1 }
        requires going { IsGoing activity }
        requires predecoded { IsPredecoded self.old }
        requires room { self.old.time < 2 * max_states }
        ensures goes { GoesAs (whole X.further (machine_of self.old) activity) self.old self.new (out_of S.written S.faults out.old) (out_of S.written S.faults out.new) steps.old steps.new }
        ensures time { self.new.time ≡ self.old.time + 1 }
        ensures raised { result.0 ≡ raised_in X.further (machine_of self.old) }
        ensures predecoded { IsPredecoded self.new }
    {
        let raised = self.tick(out, steps);
        let at = self.time;
        let last = self.finish(activity.doing, steps);
        self.put_edges(at, out);
        put_last(last, out);
        raised
    }

    // Goes on by one state of the current activity; answers which requests the units raise in it.
    fn pass_state<S: Sink, L: Ledger>(
        &mut self,
        activity: UnderWay,
        out: &mut TraceOut<S>,
        steps: &mut Steps<L>,
    ) -> IntSet
        requires value { activity ≡ current (machine_of self.old) }
        requires going { IsGoing activity }
        requires may { MayPass (self.old.time + 1) self.old }
        ensures passed { PassesAs X.further (self.old.time + 1) self.old self.new (out_of S.written S.faults out.old) (out_of S.written S.faults out.new) steps.old steps.new }
        ensures raised { result.0 ≡ raised_in X.further (machine_of self.old) }
        ensures time { self.new.time ≡ self.old.time + 1 }
        ensures rest { 1 < activity.left → (self.new.under_way ≡ left_at activity (activity.left - 1)) × (self.new.ended ≡ None) }
    {
        if activity.left > 1 {
            self.wait_state(activity, out, steps)
        } else {
            self.end_state(activity, out, steps)
        }
    }

    // Goes on by one state of the current activity, and writes what is printed in it; after a fault of the sink to the end of the
    // activity, or to `until` if that comes first. Answers which requests the units raise in the state.
    fn step_through<S: Sink, L: Ledger>(
        &mut self,
        activity: UnderWay,
        until: StateTime,
        out: &mut TraceOut<S>,
        steps: &mut Steps<L>,
    ) -> Result<IntSet, WriteFault>
        requires value { activity ≡ current (machine_of self.old) }
        requires going { IsGoing activity }
        requires may { MayPass until self.old }
        requires unbroken { out.old.failed ≡ false }
        ensures steps { StepsAs X.further until result self.old self.new (out_of S.written S.faults out.old) (out_of S.written S.faults out.new) steps.old steps.new }
        ensures predecoded { IsPredecoded self.new }
        ensures written { OnOk result (out.new.failed ≡ false) }
    {
        let raised = self.pass_state(activity, out, steps);
        if out.failed() {
            if activity.left > 1 && self.time < until {
                let rest = UnderWay {
                    doing: activity.doing,
                    left: activity.left - 1,
                };
                self.go_through(rest, until, out, steps);
            }
            return Err(WriteFault);
        }
        Ok(raised)
    }

    /// Goes on by one state, and writes what is printed in it; answers which requests the units raise in it.
    ///
    /// After a fault of the sink it stands at the end of the activity in whose lines the sink failed, or at `until` if that comes
    /// first.
    pub(crate) fn step_state<S: Sink, L: Ledger>(
        &mut self,
        until: StateTime,
        out: &mut TraceOut<S>,
        steps: &mut Steps<L>,
    ) -> Result<IntSet, WriteFault>
        requires may { MayPass until self.old }
        requires unbroken { out.old.failed ≡ false }
        ensures steps { StepsAs X.further until result self.old self.new (out_of S.written S.faults out.old) (out_of S.written S.faults out.new) steps.old steps.new }
        ensures predecoded { IsPredecoded self.new }
        ensures written { OnOk result (out.new.failed ≡ false) }
    {
        let activity = self.current(steps);
        self.step_through(activity, until, out, steps)
    }
}
