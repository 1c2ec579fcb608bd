// Units rescheduled when they are next due, and the slots of stimuli and wires.
ghost use Rattle.std.specs.Prelude.{◌≡◌, ◌≢◌, ℕ, ◌*◌, ◌≤◌, ◌+◌, ◌<◌, ◌==◌, not};
ghost use Rattle.kc_base.specs.Limits.{max_states};
ghost use Rattle.kc_span.specs.Span.{IsDue};
ghost use Rattle.kc_due.specs.Due.{at_slot};
ghost use Rattle.kc_stim.specs.Drives.{IsNextEdge};
ghost use Rattle.kc_stim.specs.Proper.{AreProper};
ghost use Rattle.kc_hsi.specs.Input.{hsi_rule};
ghost use Rattle.kc_block_units.specs.Scheduler.{flag_goes, timer2_goes, hso_goes, further_goes, levels_ahead, wire_slot, AreHeld};
ghost use Rattle.kc_block_units.specs.Standing.{standing};

use crate::scheduler::Scheduler;
use crate::seeing::control;
use crate::slots::set_slot;
use crate::{has_pin, outputs, unwired, wired};
use kc_base::{StateTime, Steps};
use kc_extra::Extra;
use kc_timers::timer1_due;
use std::sync::ledger::Ledger;

impl<X: Extra> Scheduler<X> {
    /// Reschedules Timer 2 from state `now` on, in which it stands: asks when it is next due.
    pub fn ask_timer2<L: Ledger>(&mut self, now: StateTime, steps: &mut Steps<L>)
        requires { now ≤ 4 * max_states }
        ensures due { IsDue (timer2_goes (standing X.plain self.new)) now (standing X.plain self.new).timer2.kept (at_slot self.new.due 0) }
        ensures rest { self.new ≡ record self.old { due = self.new.due } }
        ensures others { (k : ℕ) → k ≢ 0 → at_slot self.new.due k ≡ at_slot self.old.due k }
        ensures steps { steps.new ≡ steps.old + 1 }
    {
        let control = control(&self.board_registers, self.board_registers.levels);
        let due = self.timer2.unit.due(now, control, steps);
        set_slot(&mut self.due, 0, due);
    }

    /// Reschedules HSO from state `now` on, in which it stands, by what it sees of Timer 2.
    pub fn ask_hso<L: Ledger>(&mut self, now: StateTime, steps: &mut Steps<L>)
        requires bound { now ≤ 4 * max_states }
        requires timer2 { self.old.timer2.at ≤ now }
        ensures due { IsDue (hso_goes (standing X.plain self.new)) now (standing X.plain self.new).hso.kept (at_slot self.new.due 1) }
        ensures rest { self.new ≡ record self.old { due = self.new.due } }
        ensures others { (k : ℕ) → k ≢ 1 → at_slot self.new.due k ≡ at_slot self.old.due k }
        ensures steps { steps.new ≡ steps.old + 1 }
    {
        let view = self.view(now);
        let due = self.hso.unit.due(now, view, steps);
        set_slot(&mut self.due, 1, due);
    }

    /// Reschedules Timer 2 and HSO from state `now` on, in which both stand.
    pub fn ask_timers<L: Ledger>(&mut self, now: StateTime, steps: &mut Steps<L>)
        requires bound { now ≤ 4 * max_states }
        requires timer2 { self.old.timer2.at ≤ now }
        ensures timer2 { IsDue (timer2_goes (standing X.plain self.new)) now (standing X.plain self.new).timer2.kept (at_slot self.new.due 0) }
        ensures hso { IsDue (hso_goes (standing X.plain self.new)) now (standing X.plain self.new).hso.kept (at_slot self.new.due 1) }
        ensures rest { self.new ≡ record self.old { due = self.new.due } }
        ensures others { (k : ℕ) → k ≢ 0 → k ≢ 1 → at_slot self.new.due k ≡ at_slot self.old.due k }
        ensures steps { steps.new ≡ steps.old + 2 }
    {
        self.ask_timer2(now, steps);
        self.ask_hso(now, steps);
    }

    /// Reschedules HSI from state `now` on, in which it stands.
    pub fn ask_hsi<L: Ledger>(&mut self, now: StateTime, steps: &mut Steps<L>)
        requires { now ≤ 4 * max_states }
        ensures due { IsDue hsi_rule now (standing X.plain self.new).hsi.kept (at_slot self.new.due 2) }
        ensures rest { self.new ≡ record self.old { due = self.new.due } }
        ensures others { (k : ℕ) → k ≢ 2 → at_slot self.new.due k ≡ at_slot self.old.due k }
        ensures steps { steps.new ≡ steps.old + 1 }
    {
        let due = self.hsi.unit.due(now, steps);
        set_slot(&mut self.due, 2, due);
    }

    /// Reschedules the further unit from state `now` on, in which it stands.
    pub fn ask_further<L: Ledger>(&mut self, now: StateTime, steps: &mut Steps<L>)
        requires { now ≤ 4 * max_states }
        ensures due { IsDue (further_goes X.further) now (standing X.plain self.new).further.kept (at_slot self.new.due 3) }
        ensures rest { self.new ≡ record self.old { due = self.new.due } }
        ensures others { (k : ℕ) → k ≢ 3 → at_slot self.new.due k ≡ at_slot self.old.due k }
        ensures steps { steps.new ≡ steps.old + 1 }
    {
        let due = self.further.unit.due(now, steps);
        set_slot(&mut self.due, 3, due);
    }

    /// Sets when Timer 1 next raises its request from state `now` on: its next overflow, if IOC1.2 is 1.
    pub fn ask_flag(&mut self, now: StateTime)
        requires { now ≤ 4 * max_states }
        ensures due { IsDue (flag_goes (standing X.plain self.new)) now (standing X.plain self.new).flag.kept (at_slot self.new.due 4) }
        ensures rest { self.new ≡ record self.old { due = self.new.due } }
        ensures others { (k : ℕ) → k ≢ 4 → at_slot self.new.due k ≡ at_slot self.old.due k }
    {
        let due = if has_pin(u64::from(self.board_registers.ioc1), 2) {
            Some(timer1_due(now))
        } else {
            None
        };
        set_slot(&mut self.due, 4, due);
    }

    /// Sets the next state from `now` on in which stimuli give an input an edge.
    pub fn set_stimuli(&mut self, now: StateTime)
        ensures next { IsNextEdge self.new.stimuli.stimuli now (at_slot self.new.due 5) }
        ensures proper { AreProper self.new.stimuli }
        ensures rest { self.new ≡ record self.old { due = self.new.due } }
        ensures others { (k : ℕ) → k ≢ 5 → at_slot self.new.due k ≡ at_slot self.old.due k }
    {
        let next = self.stimuli.next_edge(now);
        set_slot(&mut self.due, 5, next);
    }

    /// Sets state `now` for the wires where the level of a wired input is not that of its output.
    pub fn set_wires(&mut self, now: StateTime)
        requires proper { AreProper self.old.stimuli }
        requires held { AreHeld self.old.stimuli self.old.board_registers.levels now }
        ensures wires { at_slot self.new.due 6 ≡ wire_slot now (levels_ahead (standing X.plain self.new) now) self.new.board_registers.levels }
        ensures rest { self.new ≡ record self.old { due = self.new.due } }
        ensures others { (k : ℕ) → k ≢ 6 → at_slot self.new.due k ≡ at_slot self.old.due k }
    {
        let at = if self.wires_differ(now) {
            Some(now)
        } else {
            None
        };
        set_slot(&mut self.due, 6, at);
    }

    // Whether the level of a wired input is not that of its output; there is none where nothing is wired.
    fn wires_differ(&self, now: StateTime) -> bool
        requires proper { AreProper self.now.stimuli }
        requires held { AreHeld self.now.stimuli self.now.board_registers.levels now }
        ensures { result ≡ not (levels_ahead (standing X.plain self.now) now == self.now.board_registers.levels) }
    {
        if self.stimuli.has_no_wire() {
            return false;
        }
        let own = unwired(&self.stimuli, self.board_registers.levels);
        let ahead = own
            | wired(
                &self.stimuli,
                outputs(&self.board_registers, &self.hso.unit),
            );
        ahead != self.board_registers.levels
    }
}
