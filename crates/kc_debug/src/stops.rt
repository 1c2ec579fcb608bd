// What stops a run.
ghost use Rattle.std.specs.Prelude.{◌≡◌, ◌<◌, ◌≤◌, ◌+◌, ℕ, List, None, false, true, IsTrue};
ghost use Rattle.kc_trace.specs.Out.{Out, Prints};
ghost use Rattle.kc_trace.specs.Trace.{out_of};
ghost use Rattle.kc_machine_spec.specs.Machine.{Machine as State};
ghost use Rattle.kc_machine_spec.specs.Run.{run_for};
ghost use Rattle.kc_machine.specs.Stepping.{IdlesFor};
ghost use Rattle.kc_debug.specs.Passing.{AreAtOnce};
ghost use Rattle.kc_debug.specs.Stops.{at_breaks, is_at, stops_behind, Stopping};

use kc_base::{Sink, Steps};
use kc_extra::Extra;
use kc_machine::Machine;
use kc_trace::TraceOut;
use std::sync::ledger::Ledger;

/// What stops a run of a machine whose trace goes to a sink, beside the state that it goes to.
pub trait Stops<X: Extra + Drop, S: Sink> {
    /// What it stops at.
    ghost stopping: { Self → Stopping X };

    /// What was set, which no run changes.
    ghost Settings: { Type 0 };

    ghost settings: { Self → Settings };

    /// How often one look at a machine may move its further unit.
    ghost looks: { Self → ℕ };

    /// The trace has had nothing that would stop a run.
    ghost Ready: { Self → Out → Type 0 };

    /// It has followed a run from this machine and this trace on for so many states, and nothing has stopped it.
    ghost Follows: { Self → State X → Out → ℕ → Type 0 };

    /// Whether idle states may pass at once from here: no state of them stops a run.
    fn passes_idle(&self, machine: &Machine<X>) -> bool
        ensures { IsTrue result → (states i : ℕ) → IdlesFor X.further states machine.now.machine → 0 < i → i < states → stops_behind X.further (stopping self.now) false i machine.now.machine ≡ false };

    /// Looks at a machine that is about to go on.
    fn begin<L: Ledger>(
        &mut self,
        machine: &mut Machine<X>,
        out: &TraceOut<S>,
        steps: &mut Steps<L>,
    )
        requires ready { Ready self.old (out_of S.written S.faults out.now) }
        ensures follows { Follows self.new machine.old.machine (out_of S.written S.faults out.now) 0 }
        ensures same { machine.new.machine ≡ machine.old.machine }
        ensures stays { (stopping self.new ≡ stopping self.old) × (looks self.new ≡ looks self.old) × (settings self.new ≡ settings self.old) }
        ensures moves { machine.new.moves ≤ machine.old.moves + looks self.old }
        ensures steps { steps.new ≡ steps.old };

    /// Whether the run stops where the machine stands, some states that have passed at once behind where it was looked at last.
    fn are_met<L: Ledger>(
        &mut self,
        machine: &mut Machine<X>,
        out: &TraceOut<S>,
        steps: &mut Steps<L>,
    ) -> bool
        ensures met { (m : State X) (o : Out) (i states : ℕ) → Follows self.old m o i → 0 < states → AreAtOnce X.further states (run_for X.further i m).machine → (run_for X.further i m).machine.ended ≡ None → machine.old.machine ≡ (run_for X.further (i + states) m).machine
            → Prints o (run_for X.further (i + states) m).records (out_of S.written S.faults out.now) → out.now.failed ≡ false → (result ≡ stops_behind X.further (stopping self.old) false (i + states) m) × (result ≡ false → Follows self.new m o (i + states)) × (result ≡ true → Follows self.new m o i) }
        ensures same { machine.new.machine ≡ machine.old.machine }
        ensures stays { (stopping self.new ≡ stopping self.old) × (looks self.new ≡ looks self.old) × (settings self.new ≡ settings self.old) }
        ensures moves { machine.new.moves ≤ machine.old.moves + looks self.old }
        ensures steps { steps.new ≡ steps.old };
}

/// Breakpoints alone.
#[derive(Clone, Copy, Drop)]
pub struct Breaks<'a> {
    pub addresses: &'a [u16],
}

impl<'a> Breaks<'a> {
    // Whether a machine stands at a breakpoint.
    fn has<X: Extra + Drop>(&self, machine: &Machine<X>) -> bool
        ensures { result ≡ is_at self.now.addresses.now machine.now.machine }
    {
        let pc = machine.pc();
        self.addresses.iter().any(|addr| *addr == pc)
    }
}

impl<'a, X: Extra + Drop, S: Sink> Stops<X, S> for Breaks<'a> {
    ghost stopping = { λ b. at_breaks b.addresses.now };

    ghost Settings = { List ℕ };

    ghost settings = { λ b. b.addresses.now };

    ghost looks = { λ b. 0 };

    ghost Ready = { λ b o. Unit {0} };

    ghost Follows = { λ b m o states. Unit {0} };

    fn passes_idle(&self, machine: &Machine<X>) -> bool {
        !self.has(machine)
    }

    fn begin<L: Ledger>(
        &mut self,
        _machine: &mut Machine<X>,
        _out: &TraceOut<S>,
        _steps: &mut Steps<L>,
    ) {}

    fn are_met<L: Ledger>(
        &mut self,
        machine: &mut Machine<X>,
        _out: &TraceOut<S>,
        _steps: &mut Steps<L>,
    ) -> bool {
        machine.between() && self.has(machine)
    }
}
