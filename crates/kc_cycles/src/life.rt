// One life: a machine that is run in spans inside which no deadline can fall.
ghost use Rattle.std.specs.Prelude.{◌≡◌, ◌≤◌, ◌+◌, ◌*◌, ◌^◌, ◌==◌, ◌||◌, None, Option, ℕ, is_some, false, true, IfOk, OnOk, OnErr};
ghost use Rattle.kc_base.specs.Limits.{max_states};
ghost use Rattle.kc_trace.specs.Out.{Puts};
ghost use Rattle.kc_trace.specs.Text.{text_of};
ghost use Rattle.kc_trace.specs.Trace.{out_of};
ghost use Rattle.kc_machine_spec.specs.Text.{HasRun};
ghost use Rattle.kc_cycles.specs.Life.{is_at, life_for};
ghost use Rattle.kc_cycles.specs.Making.{deadline_of};
ghost use Rattle.kc_cycles.specs.Spans.{end_of_span};

use crate::watchdog::{PATIENCE, Watchdog};
use kc_base::{Sink, StateTime, Steps};
use kc_extra::{Extra, Pair};
use kc_machine::{End, Machine, WriteFault};
use kc_trace::TraceOut;
use std::sync::ledger::Ledger;

/// How a life has ended.
#[derive(Drop)]
pub(crate) struct Ending {
    pub how: End,
    pub by_watchdog: bool,
}

/// The deadline of the watchdog that a machine is fitted with.
pub fn deadline_in<X: Extra + Drop>(machine: &Machine<Pair<X, Watchdog>>) -> Option<StateTime>
    ensures { result ≡ deadline_of machine.now.machine.board.units.further }
{
    machine.extra().second().deadline()
}

/// Whether this deadline has come.
pub fn has_come(deadline: Option<StateTime>, now: StateTime) -> bool
    ensures { result ≡ is_at deadline now }
{
    match deadline {
        Some(at) => at == now,
        None => false,
    }
}

/// The end of the span that begins in a state, in which no deadline can fall.
pub fn span_end(now: StateTime, deadline: Option<StateTime>, until: StateTime) -> StateTime
    requires { now ≤ 10 ^ 16 }
    ensures { result ≡ end_of_span now deadline until }
{
    match deadline {
        Some(at) => until.min(at),
        None => until.min(now + PATIENCE),
    }
}

// Whether a life goes no further than to this state.
fn is_over(ended: Option<End>, stop: StateTime, until: StateTime) -> bool
    ensures { result ≡ (is_some ended || (stop == until)) }
{
    ended.is_some() || stop == until
}

/// Runs a machine up to an end, to its deadline or to the state `until`, and writes what is printed on the way.
pub(crate) fn live<X: Extra + Drop, S: Sink, L: Ledger>(
    machine: &mut Machine<Pair<X, Watchdog>>,
    until: StateTime,
    out: &mut TraceOut<S>,
    steps: &mut Steps<L>,
) -> Result<Ending, WriteFault>
    requires until { until ≤ 2 * max_states }
    requires first { machine.old.machine.time ≡ 0 }
    requires lives { machine.old.machine.ended ≡ None }
    requires unfed { deadline_of machine.old.machine.board.units.further ≡ None }
    requires unbroken { out.old.failed ≡ false }
    ensures how { IfOk result (λ ending. ending.how ≡ (life_for ⟦<Pair<X, Watchdog> as Extra>⟧.further deadline_of until machine.old.machine).how) }
    ensures by_watchdog { IfOk result (λ ending. ending.by_watchdog ≡ (life_for ⟦<Pair<X, Watchdog> as Extra>⟧.further deadline_of until machine.old.machine).by_watchdog) }
    ensures machine { OnOk result (machine.new.machine ≡ (life_for ⟦<Pair<X, Watchdog> as Extra>⟧.further deadline_of until machine.old.machine).ran.machine) }
    ensures lines { Puts (out_of S.written S.faults out.old) (text_of (life_for ⟦<Pair<X, Watchdog> as Extra>⟧.further deadline_of until machine.old.machine).ran.records) (out_of S.written S.faults out.new) }
    ensures spent { steps.new ≤ steps.old + 4 * (life_for ⟦<Pair<X, Watchdog> as Extra>⟧.further deadline_of until machine.old.machine).ran.touch }
    ensures ran { IfOk result (λ ending. HasRun ending.how machine.new.machine.time) }
    ensures within { machine.new.machine.time ≤ until }
    ensures written { OnOk result (out.new.failed ≡ false) }
    ensures failed { OnErr result (out.new.failed ≡ true) }
{
    'spans: loop {
        let stop = span_end(machine.now(), deadline_in(machine), until);
        let how = machine.run(stop, out, steps)?;
        if is_over(machine.ended(), stop, until) {
            return Ok(Ending {
                how,
                by_watchdog: false,
            });
        }
        if has_come(deadline_in(machine), stop) {
            return Ok(Ending {
                how: End::Reset,
                by_watchdog: true,
            });
        }
    }
}
