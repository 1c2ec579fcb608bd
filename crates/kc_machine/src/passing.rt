// How the machine passes whole activities, and spans of idle states, at once.
ghost use Rattle.std.specs.Prelude.{◌≡◌, ◌≤◌, ◌<◌, ◌+◌, ◌-◌, ◌*◌, ◌^◌, ℕ, ◌++◌, IfSome, IfOk, OnOk, OnErr, None, [], option_to_list, max, min, true, false};
ghost use Rattle.std.specs.List.{All};
ghost use Rattle.std.specs.Bool.{OnTrue};
ghost use Rattle.kc_base.specs.Limits.{max_states};
ghost use Rattle.kc_span.specs.Span.{QuietFor};
ghost use Rattle.kc_trace.specs.Out.{IsPut, Prints};
ghost use Rattle.kc_trace.specs.Printable.{CanPrint, HasName};
ghost use Rattle.kc_trace.specs.Trace.{out_of};
ghost use Rattle.kc_block_spec.specs.Touch.{block_rule};
ghost use Rattle.kc_machine_spec.specs.Board.{pins};
ghost use Rattle.kc_intc.specs.declared.requests.Choice.TheVariants.{Go};
ghost use Rattle.kc_intc.specs.Choosing.{IsBelowNmi};
ghost use Rattle.kc_machine_spec.specs.Machine.{scene_of, current, asked, broken};
ghost use Rattle.kc_machine_spec.specs.Passing.{IsIdle, left_at, whole, activity_end};
ghost use Rattle.kc_machine_spec.specs.Run.{run_to, end_of};
ghost use Rattle.kc_exec_spec.specs.Plans.{plan_of};
ghost use Rattle.kc_exec_predecode.specs.Predecoding as predecoding;
ghost use Rattle.kc_exec_predecode.specs.Predecoding.{is_free};
ghost use Rattle.kc_machine.specs.Prepared.{IsBetween, IsFree, HasSlot, executing};
ghost use Rattle.kc_machine.specs.Sound.{IsGoing, IsPredecoded, IsSoundGoing};
ghost use Rattle.kc_machine.specs.Failing.{FailsIn};
ghost use Rattle.kc_machine.specs.Stepping.{IsBrief, IdlesFor};
ghost use Rattle.kc_block_spec.specs.Costs.{CostsAtMost};
ghost use Rattle.kc_machine.specs.Passing.{ticks_to, GoesAs, MayPass, PassesAs};

use crate::over::time_over;
use crate::parts::Core;
use kc_base::{Edge, Kind, Sink, StateTime, Steps};
use kc_exec_predecode::{Predecoded, is_followed_freely};
use kc_extra::Extra;
use kc_intc::Choice;
use kc_machine_spec::{End, UnderWay};
use kc_trace::{Record, TraceOut, WriteFault};
use std::sync::ledger::Ledger;

impl<X: Extra + Drop> Core<X> {
    ghost use Rattle.kc_machine.specs.Bus.{held_of};
    ghost use Rattle.kc_machine.specs.Seen.{machine_of};

    /// All units go so many states on, past the last of these states, and the edges that they give are printed.
    #[inline(always)]
    pub(crate) fn advance<S: Sink, L: Ledger>(
        &mut self,
        count: u64,
        out: &mut TraceOut<S>,
        steps: &mut Steps<L>,
    )
        requires some { 0 < count }
        requires room { self.old.time + count ≤ 3 * max_states }
        requires stands { self.old.bus.block.time ≡ self.old.time }
        ensures goes { GoesAs (ticks_to X.further (machine_of self.old) (self.old.time + (count - 1)) count self.old.under_way) self.old self.new (out_of S.written S.faults out.old) (out_of S.written S.faults out.new) steps.old steps.new }
        ensures scene { held_of self.new.bus ≡ scene_of (machine_of self.new) }
        ensures past { self.new.bus.block.time ≡ self.old.time + count }
    {
        let last = self.time + (count - 1);
        self.bus.advance(self.time, count, out, steps);
        self.time = last;
    }

    /// The edges that the accesses of a state have given are printed.
    #[inline(always)]
    pub(crate) fn put_edges<S: Sink>(&self, at: StateTime, out: &mut TraceOut<S>)
        ensures { Prints (out_of S.written S.faults out.old) (pins at self.now.bus.edges) (out_of S.written S.faults out.new) }
    {
        if self.bus.edges.is_empty() {
            return;
        }
        put_pins(self.bus.edges.as_slice(), at, out);
    }

    // Goes on by some states of an activity, its last not among them.
    fn wait<S: Sink, L: Ledger>(
        &mut self,
        activity: UnderWay,
        until: StateTime,
        out: &mut TraceOut<S>,
        steps: &mut Steps<L>,
    )
        requires some { self.old.time < until }
        requires fewer { until - self.old.time < activity.left }
        requires room { until ≤ 3 * max_states }
        requires sound { IsGoing activity }
        requires predecoded { IsPredecoded self.old }
        ensures goes { GoesAs (ticks_to X.further (machine_of self.old) until (until - self.old.time) (left_at activity (activity.left - (until - self.old.time)))) self.old self.new (out_of S.written S.faults out.old) (out_of S.written S.faults out.new) steps.old steps.new }
        ensures predecoded { IsPredecoded self.new }
    {
        let states = until - self.time;
        self.advance(states, out, steps);
        self.time = until;
        self.under_way = Some(UnderWay {
            doing: activity.doing,
            left: activity.left - states as u8,
        });
    }

    // Goes on by idle states in which no request is served.
    fn rest<S: Sink, L: Ledger>(
        &mut self,
        until: StateTime,
        out: &mut TraceOut<S>,
        steps: &mut Steps<L>,
    )
        requires some { self.old.time < until }
        requires room { until ≤ 3 * max_states }
        requires predecoded { IsPredecoded self.old }
        ensures goes { GoesAs (ticks_to X.further (machine_of self.old) until (until - self.old.time) self.old.under_way) self.old self.new (out_of S.written S.faults out.old) (out_of S.written S.faults out.new) steps.old steps.new }
        ensures predecoded { IsPredecoded self.new }
    {
        self.advance(until - self.time, out, steps);
        self.time = until;
    }

    // Goes on to the end of an activity.
    fn complete<S: Sink, L: Ledger>(
        &mut self,
        activity: UnderWay,
        out: &mut TraceOut<S>,
        steps: &mut Steps<L>,
    )
        requires going { IsGoing activity }
        requires predecoded { IsPredecoded self.old }
        requires room { self.old.time + activity.left ≤ 3 * max_states }
        ensures goes { GoesAs (whole X.further (machine_of self.old) activity) self.old self.new (out_of S.written S.faults out.old) (out_of S.written S.faults out.new) steps.old steps.new }
        ensures time { self.new.time ≡ self.old.time + activity.left }
        ensures predecoded { IsPredecoded self.new }
    {
        let left = u64::from(activity.left);
        self.advance(left, out, steps);
        let at = self.time;
        let last = self.finish(activity.doing, steps);
        self.put_edges(at, out);
        put_last(last, out);
    }

    // Up to where a machine that idles rests: to the end of the state in which the units do something next, or to `until`
    // if that comes first.
    fn rest_end(&self, until: StateTime) -> StateTime
        requires ahead { self.now.time < until }
        requires stands { self.now.bus.block.time ≡ self.now.time }
        ensures further { self.now.time < result }
        ensures within { result ≤ until }
        ensures quiet { QuietFor (block_rule X.further) self.now.time (result - 1 - self.now.time) self.now.bus.block.units }
    {
        let due = self.bus.block.due();
        if due < until { due + 1 } else { until }
    }

    /// A state up to which the machine does nothing but idle, `until` at most; the present state where it does not idle, or
    /// where a request is served.
    pub(crate) fn idles_to(&self, until: StateTime) -> StateTime
        requires predecoded { IsPredecoded self.now }
        ensures from { self.now.time ≤ result }
        ensures within { result ≤ max until self.now.time }
        ensures idles { IdlesFor X.further (result - self.now.time) (machine_of self.now) }
        ensures goes { IsIdle (machine_of self.now) → asked (machine_of self.now) ≡ Go → self.now.time < until → self.now.time < result }
    {
        if until <= self.time {
            return self.time;
        }
        if self.ended.is_some() {
            return self.time;
        }
        if self.rests() {
            self.rest_end(until)
        } else {
            self.time
        }
    }

    // Goes on to the end of the activity, or over idle states up to where the units do something, or to `until` if that
    // comes first. `free` says that the machine is known to be free, and the answer that it is so again: a row of predecoded
    // instructions asks for no more between two of them than whether a request is served.
    #[inline(always)]
    fn pass<S: Sink, L: Ledger>(
        &mut self,
        free: bool,
        until: StateTime,
        out: &mut TraceOut<S>,
        steps: &mut Steps<L>,
    ) -> bool
        requires free { OnTrue free (IsFree (machine_of self.old)) }
        requires may { MayPass until self.old }
        ensures passed { PassesAs X.further until self.old self.new (out_of S.written S.faults out.old) (out_of S.written S.faults out.new) steps.old steps.new }
        ensures free { OnTrue result (IsFree (machine_of self.new)) }
    {
        let choice = self.asked_if(free);
        if matches!(choice, Choice::Go) {
            self.pass_unasked(free, until, out, steps)
        } else {
            self.pass_served(choice, until, out, steps);
            self.is_free()
        }
    }

    // Passes as `pass` does, where no request is served if the machine is known to be free: by the slot of the instruction that
    // comes next, or slowly.
    #[inline(always)]
    fn pass_unasked<S: Sink, L: Ledger>(
        &mut self,
        free: bool,
        until: StateTime,
        out: &mut TraceOut<S>,
        steps: &mut Steps<L>,
    ) -> bool
        requires free { OnTrue free (IsFree (machine_of self.old)) }
        requires asked { OnTrue free (asked (machine_of self.old) ≡ Go) }
        requires may { MayPass until self.old }
        ensures passed { PassesAs X.further until self.old self.new (out_of S.written S.faults out.old) (out_of S.written S.faults out.new) steps.old steps.new }
        ensures free { OnTrue result (IsFree (machine_of self.new)) }
    {
        if self.comes_next(free) {
            self.pass_slot(until, out, steps)
        } else {
            self.pass_slowly(until, out, steps);
            self.is_free()
        }
    }

    // Goes through the entry or the setup that the requests of a free machine choose.
    #[inline(never)]
    #[cold]
    fn pass_served<S: Sink, L: Ledger>(
        &mut self,
        choice: Choice,
        until: StateTime,
        out: &mut TraceOut<S>,
        steps: &mut Steps<L>,
    )
        requires free { IsFree (machine_of self.old) }
        requires choice { choice ≡ asked (machine_of self.old) }
        requires below { IsBelowNmi choice }
        requires may { MayPass until self.old }
        ensures passed { PassesAs X.further until self.old self.new (out_of S.written S.faults out.old) (out_of S.written S.faults out.new) steps.old steps.new }
    {
        let activity = self.serves(choice, steps);
        self.go_through(activity, until, out, steps);
    }

    // Rests over idle states, or goes through the next activity, whatever is known of the machine.
    #[inline(never)]
    #[cold]
    fn pass_slowly<S: Sink, L: Ledger>(
        &mut self,
        until: StateTime,
        out: &mut TraceOut<S>,
        steps: &mut Steps<L>,
    )
        requires may { MayPass until self.old }
        ensures passed { PassesAs X.further until self.old self.new (out_of S.written S.faults out.old) (out_of S.written S.faults out.new) steps.old steps.new }
    {
        if self.rests() {
            let end = self.rest_end(until);
            self.rest(end, out, steps);
        } else {
            self.pass_other(until, out, steps);
        }
    }

    // Goes through the instruction at PC, which comes next and has a slot: from its slot, where it is predecoded there, its
    // program goes on after it, and it ends by `until`.
    #[inline(always)]
    fn pass_slot<S: Sink, L: Ledger>(
        &mut self,
        until: StateTime,
        out: &mut TraceOut<S>,
        steps: &mut Steps<L>,
    ) -> bool
        requires between { IsBetween (machine_of self.old) }
        requires slot { HasSlot self.old.cpu.pc }
        requires may { MayPass until self.old }
        ensures passed { PassesAs X.further until self.old self.new (out_of S.written S.faults out.old) (out_of S.written S.faults out.new) steps.old steps.new }
        ensures free { OnTrue result (IsFree (machine_of self.new)) }
    {
        let predecoded = self.bus.predecoded_at(self.cpu.pc);
        if !is_followed_freely(&predecoded) {
            self.pass_alone(until, out, steps);
            return self.is_free();
        }
        if let Ok(states) = time_over(&predecoded, self.cpu, &mut self.bus, steps)
            && u64::from(states) <= until - self.time
        {
            self.pass_predecoded(&predecoded, states, until, out, steps)
        } else {
            self.pass_other(until, out, steps);
            self.is_free()
        }
    }

    // Goes through the instruction at PC after which the program does not go on, or of which nothing is known.
    #[inline(never)]
    #[cold]
    fn pass_alone<S: Sink, L: Ledger>(
        &mut self,
        until: StateTime,
        out: &mut TraceOut<S>,
        steps: &mut Steps<L>,
    )
        requires between { IsBetween (machine_of self.old) }
        requires slot { HasSlot self.old.cpu.pc }
        requires may { MayPass until self.old }
        ensures passed { PassesAs X.further until self.old self.new (out_of S.written S.faults out.old) (out_of S.written S.faults out.new) steps.old steps.new }
    {
        let predecoded = self.bus.predecoded_at(self.cpu.pc);
        if predecoded.is_blank() {
            self.pass_other(until, out, steps);
        } else {
            let activity = self.placed_predecoded(&predecoded, steps);
            self.go_through(activity, until, out, steps);
        }
    }

    // Goes through an activity that is taken from no slot; the instruction at PC is predecoded for the next time.
    #[inline(never)]
    #[cold]
    fn pass_other<S: Sink, L: Ledger>(
        &mut self,
        until: StateTime,
        out: &mut TraceOut<S>,
        steps: &mut Steps<L>,
    )
        requires may { MayPass until self.old }
        ensures passed { PassesAs X.further until self.old self.new (out_of S.written S.faults out.old) (out_of S.written S.faults out.new) steps.old steps.new }
    {
        self.bus.look_ahead(self.cpu.pc);
        self.pass_any(until, out, steps);
    }

    // Goes through the activity that has the coming state, whatever it is.
    fn pass_any<S: Sink, L: Ledger>(
        &mut self,
        until: StateTime,
        out: &mut TraceOut<S>,
        steps: &mut Steps<L>,
    )
        requires may { MayPass until self.old }
        ensures passed { PassesAs X.further until self.old self.new (out_of S.written S.faults out.old) (out_of S.written S.faults out.new) steps.old steps.new }
    {
        let activity = self.current(steps);
        self.go_through(activity, until, out, steps);
    }

    // Ends the run by a refusal of the instruction at PC in its last state, and prints what that gives.
    #[inline(never)]
    #[cold]
    fn put_refusal<S: Sink>(&mut self, kind: Kind, out: &mut TraceOut<S>)
        requires room { self.old.time < 2 ^ 63 }
        ensures machine { machine_of self.new ≡ (broken (machine_of self.old) (held_of self.old.bus) self.old.cpu.pc kind).machine }
        ensures lines { Prints (out_of S.written S.faults out.old) (broken (machine_of self.old) (held_of self.old.bus) self.old.cpu.pc kind).records (out_of S.written S.faults out.new) }
        ensures bus { self.new.bus ≡ self.old.bus }
        ensures going { self.new.going ≡ self.old.going }
        ensures time { self.new.time ≡ self.old.time + 1 }
        ensures over { self.new.under_way ≡ None }
    {
        let state = self.time;
        let record = self.break_off(self.cpu.pc, kind);
        self.put_edges(state, out);
        put_one(out, &record);
    }

    // Goes on to the end of a predecoded instruction. Answers whether the machine is free again.
    #[inline(always)]
    fn complete_predecoded<S: Sink, L: Ledger>(
        &mut self,
        predecoded: &Predecoded,
        states: u8,
        out: &mut TraceOut<S>,
        steps: &mut Steps<L>,
    ) -> bool
        requires between { IsBetween (machine_of self.old) }
        requires known { predecoding.IsPredecoded predecoded.now }
        requires followed { is_free (plan_of predecoded.now.mnemonic) ≡ true }
        requires some { 0 < states }
        requires predecoded { IsPredecoded self.old }
        requires lives { self.old.ended ≡ None }
        requires room { self.old.time + states ≤ 3 * max_states }
        ensures goes { GoesAs (whole X.further (machine_of self.old) (executing predecoded.now states)) self.old self.new (out_of S.written S.faults out.old) (out_of S.written S.faults out.new) steps.old steps.new }
        ensures time { self.new.time ≡ self.old.time + states }
        ensures predecoded { IsPredecoded self.new }
        ensures free { OnTrue result (IsFree (machine_of self.new)) }
    {
        let left = u64::from(states);
        self.advance(left, out, steps);
        let at = self.time;
        match self.execute_predecoded(predecoded, steps) {
            Ok(held) => {
                self.put_edges(at, out);
                !held
            }
            Err(kind) => {
                self.put_refusal(kind, out);
                false
            }
        }
    }

    // Passes a predecoded instruction that comes next.
    #[inline(always)]
    fn pass_predecoded<S: Sink, L: Ledger>(
        &mut self,
        predecoded: &Predecoded,
        states: u8,
        until: StateTime,
        out: &mut TraceOut<S>,
        steps: &mut Steps<L>,
    ) -> bool
        requires between { IsBetween (machine_of self.old) }
        requires known { predecoding.IsPredecoded predecoded.now }
        requires followed { is_free (plan_of predecoded.now.mnemonic) ≡ true }
        requires value { executing predecoded.now states ≡ current (machine_of self.old) }
        requires some { 0 < states }
        requires within { states ≤ until - self.old.time }
        requires may { MayPass until self.old }
        ensures passed { PassesAs X.further until self.old self.new (out_of S.written S.faults out.old) (out_of S.written S.faults out.new) steps.old steps.new }
        ensures free { OnTrue result (IsFree (machine_of self.new)) }
    {
        self.complete_predecoded(predecoded, states, out, steps)
    }

    /// Goes on to the end of the current activity, or to `until` if that comes first.
    pub(crate) fn go_through<S: Sink, L: Ledger>(
        &mut self,
        activity: UnderWay,
        until: StateTime,
        out: &mut TraceOut<S>,
        steps: &mut Steps<L>,
    )
        requires value { activity ≡ current (machine_of self.old) }
        requires going { IsGoing activity }
        requires may { MayPass until self.old }
        ensures passed { PassesAs X.further until self.old self.new (out_of S.written S.faults out.old) (out_of S.written S.faults out.new) steps.old steps.new }
        ensures over { self.new.time ≡ min until (activity_end (machine_of self.old)) }
    {
        let ahead = until - self.time;
        if ahead < u64::from(activity.left) {
            self.wait(activity, until, out, steps);
        } else {
            self.complete(activity, out, steps);
        }
    }

    /// Goes on to the end of the run, or to the state `until` if that comes first, and writes what is printed on the way.
    pub(crate) fn run<S: Sink, L: Ledger>(
        &mut self,
        until: StateTime,
        out: &mut TraceOut<S>,
        steps: &mut Steps<L>,
    ) -> Result<End, WriteFault>
        requires predecoded { IsPredecoded self.old }
        requires until { until ≤ 2 * max_states }
        requires unbroken { out.old.failed ≡ false }
        ensures end { IfOk result (λ end. end ≡ end_of (run_to X.further until (machine_of self.old)).machine) }
        ensures machine { OnOk result (machine_of self.new ≡ (run_to X.further until (machine_of self.old)).machine) }
        ensures lines { Prints (out_of S.written S.faults out.old) (run_to X.further until (machine_of self.old)).records (out_of S.written S.faults out.new) }
        ensures written { OnOk result (out.new.failed ≡ false) }
        ensures fails { OnErr result (FailsIn X.further until (machine_of self.old) (out_of S.written S.faults out.old) (machine_of self.new) (out_of S.written S.faults out.new)) }
        ensures stands { machine_of self.new ≡ (run_to X.further self.new.time (machine_of self.old)).machine }
        ensures within { self.new.time ≤ max until self.old.time }
        ensures goes { self.old.ended ≡ None → self.old.time < until → self.old.time < self.new.time }
        ensures predecoded { IsPredecoded self.new }
        ensures costs { CostsAtMost (4 * (run_to X.further self.new.time (machine_of self.old)).touch) steps.old steps.new self.old.bus.block.moves self.new.bus.block.moves }
    {
        let mut free = self.is_free();
        while self.time < until {
            if let Some(end) = self.ended_unless(free) {
                return Ok(end);
            }
            free = self.pass(free, until, out, steps);
            if out.failed() {
                return Err(WriteFault);
            }
        }
        Ok(self.end())
    }

    // Goes on to the end of the activity.
    fn pass_current<S: Sink, L: Ledger>(&mut self, out: &mut TraceOut<S>, steps: &mut Steps<L>)
        requires predecoded { IsPredecoded self.old }
        requires lives { self.old.ended ≡ None }
        requires room { self.old.time ≤ 2 * max_states }
        ensures passed { PassesAs X.further (activity_end (machine_of self.old)) self.old self.new (out_of S.written S.faults out.old) (out_of S.written S.faults out.new) steps.old steps.new }
        ensures time { self.new.time ≡ activity_end (machine_of self.old) }
        ensures states { IsBrief (machine_of self.old) }
    {
        let activity = self.current(steps);
        self.complete(activity, out, steps);
    }

    /// Goes on to the end of the activity, and writes what is printed on the way; an ended machine stands still.
    pub(crate) fn step<S: Sink, L: Ledger>(
        &mut self,
        out: &mut TraceOut<S>,
        steps: &mut Steps<L>,
    ) -> Result<Option<End>, WriteFault>
        requires predecoded { IsPredecoded self.old }
        requires room { self.old.time ≤ 2 * max_states }
        requires unbroken { out.old.failed ≡ false }
        ensures end { IfOk result (λ end. end ≡ (run_to X.further (activity_end (machine_of self.old)) (machine_of self.old)).machine.ended) }
        ensures states { self.old.ended ≡ None → IsBrief (machine_of self.old) }
        ensures time { self.old.ended ≡ None → self.new.time ≡ activity_end (machine_of self.old) }
        ensures goes { GoesAs (run_to X.further (activity_end (machine_of self.old)) (machine_of self.old)) self.old self.new (out_of S.written S.faults out.old) (out_of S.written S.faults out.new) steps.old steps.new }
        ensures written { OnOk result (out.new.failed ≡ false) }
        ensures fails { OnErr result (FailsIn X.further (activity_end (machine_of self.old)) (machine_of self.old) (out_of S.written S.faults out.old) (machine_of self.new) (out_of S.written S.faults out.new)) }
        ensures predecoded { IsPredecoded self.new }
    {
        if let Some(end) = self.ended {
            return Ok(Some(end));
        }
        self.pass_current(out, steps);
        if out.failed() {
            return Err(WriteFault);
        }
        Ok(self.ended)
    }

    // How the run has ended, which it has not where the machine is known to be free.
    #[inline(always)]
    fn ended_unless(&self, free: bool) -> Option<End>
        requires { OnTrue free (IsFree (machine_of self.now)) }
        ensures { result ≡ self.now.ended }
    {
        if free { None } else { self.ended }
    }

    // How the run has ended so far.
    fn end(&self) -> End
        ensures { result ≡ end_of (machine_of self.now) }
    {
        match self.ended {
            Some(end) => end,
            None => End::Spent,
        }
    }
}
// The edges of pins in a state are printed.
#[inline(never)]
#[cold]
fn put_pins<S: Sink>(edges: &[Edge], at: StateTime, out: &mut TraceOut<S>)
    requires { All HasName edges.now }
    ensures { Prints (out_of S.written S.faults out.old) (pins at edges.now) (out_of S.written S.faults out.new) }
{
    for edge in edges {
        put_one(out, &Record::Pin { at, edge: *edge });
    }
}

/// The record is printed, if there is one.
pub(crate) fn put_last<S: Sink>(last: Option<Record>, out: &mut TraceOut<S>)
    requires { IfSome last CanPrint }
    ensures { Prints (out_of S.written S.faults out.old) (option_to_list last) (out_of S.written S.faults out.new) }
{
    if let Some(item) = last {
        put_one(out, &item);
    }
}

/// Puts a record to a trace.
pub(crate) fn put_one<S: Sink>(out: &mut TraceOut<S>, item: &Record)
    requires { CanPrint item.now }
    ensures { IsPut (out_of S.written S.faults out.old) item.now (out_of S.written S.faults out.new) }
{
    out.put(item);
}
