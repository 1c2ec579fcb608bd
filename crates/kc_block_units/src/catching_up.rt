// Units caught up to the present state over quiet states.
ghost use Rattle.std.specs.Prelude.{◌≡◌, ℕ, ◌*◌, ◌≤◌, ◌^◌, ◌+◌, ◌/◌, ◌<◌, Bool};
ghost use Rattle.kc_span.specs.Span.{one_more};
ghost use Rattle.kc_hsi.specs.Input.{hsi_rule};
ghost use Rattle.kc_span.specs.DeferredUnit.{caught_up_to};
ghost use Rattle.kc_block_spec.specs.Costs.{Costs};
ghost use Rattle.kc_block_units.specs.Scheduler.{flag_goes, timer2_goes, hso_goes, further_goes, shown_units, IsScheduled, IsPresent, IsLeft};
ghost use Rattle.kc_block_units.specs.Standing.{standing, moves_of};

use crate::scheduler::Scheduler;
use crate::seeing::control;
use kc_base::{StateTime, Steps};
use kc_extra::Extra;
use std::sync::ledger::Ledger;

/// How many states pass between two overflows of Timer 1.
const TIMER1_TURN: u64 = 524_288;

impl<X: Extra> Scheduler<X> {
    /// Catches HSO up to the start of state `now`.
    pub fn catch_up_hso<L: Ledger>(&mut self, now: StateTime, steps: &mut Steps<L>)
        requires present { IsPresent X.further X.agrees (standing X.plain self.old) now }
        ensures left { IsLeft X.further X.agrees now (standing X.plain self.new) (shown_units X.further (standing X.plain self.old) now) }
        ensures standing { standing X.plain self.new ≡ record (standing X.plain self.old) {
          hso = caught_up_to (hso_goes (standing X.plain self.old)) now (standing X.plain self.old).hso;
        } }
        ensures rest { self.new ≡ record self.old { hso = self.new.hso } }
        ensures moved { self.new.hso.unit.moves ≡ one_more self.old.hso.unit.moves }
        ensures costs { Costs 1 1 steps.old steps.new (moves_of X.moved self.old) (moves_of X.moved self.new) }
    {
        let seen = self.view(self.hso.at);
        self.hso.unit.quiet_to(self.hso.at, now, seen, steps);
        self.hso.at = now;
    }

    /// Catches Timer 2, and HSO which sees it, up to the start of state `now`.
    pub fn catch_up_timers<L: Ledger>(&mut self, now: StateTime, steps: &mut Steps<L>)
        requires present { IsPresent X.further X.agrees (standing X.plain self.old) now }
        ensures left { IsLeft X.further X.agrees now (standing X.plain self.new) (shown_units X.further (standing X.plain self.old) now) }
        ensures standing { standing X.plain self.new ≡ record (standing X.plain self.old) {
          timer2 = caught_up_to (timer2_goes (standing X.plain self.old)) now (standing X.plain self.old).timer2;
          hso = caught_up_to (hso_goes (standing X.plain self.old)) now (standing X.plain self.old).hso;
        } }
        ensures rest { self.new ≡ record self.old { timer2 = self.new.timer2; hso = self.new.hso } }
        ensures timer2_moved { self.new.timer2.unit.moves ≡ one_more self.old.timer2.unit.moves }
        ensures hso_moved { self.new.hso.unit.moves ≡ one_more self.old.hso.unit.moves }
        ensures costs { Costs 2 2 steps.old steps.new (moves_of X.moved self.old) (moves_of X.moved self.new) }
    {
        self.catch_up_hso(now, steps);
        let control = control(&self.board_registers, self.board_registers.levels);
        self.timer2
            .unit
            .quiet_to(self.timer2.at, now, control, steps);
        self.timer2.at = now;
    }

    /// Catches HSI up to the start of state `now`.
    pub fn catch_up_hsi<L: Ledger>(&mut self, now: StateTime, steps: &mut Steps<L>)
        requires present { IsPresent X.further X.agrees (standing X.plain self.old) now }
        ensures left { IsLeft X.further X.agrees now (standing X.plain self.new) (shown_units X.further (standing X.plain self.old) now) }
        ensures standing { standing X.plain self.new ≡ record (standing X.plain self.old) {
          hsi = caught_up_to hsi_rule now (standing X.plain self.old).hsi;
        } }
        ensures rest { self.new ≡ record self.old { hsi = self.new.hsi } }
        ensures moved { self.new.hsi.unit.moves ≡ one_more self.old.hsi.unit.moves }
        ensures costs { Costs 1 1 steps.old steps.new (moves_of X.moved self.old) (moves_of X.moved self.new) }
    {
        self.hsi.unit.quiet_to(self.hsi.at, now, steps);
        self.hsi.at = now;
    }

    /// Catches the further unit up to the start of state `now`.
    pub fn catch_up_further<L: Ledger>(&mut self, now: StateTime, steps: &mut Steps<L>)
        requires present { IsPresent X.further X.agrees (standing X.plain self.old) now }
        ensures left { IsLeft X.further X.agrees now (standing X.plain self.new) (shown_units X.further (standing X.plain self.old) now) }
        ensures standing { standing X.plain self.new ≡ record (standing X.plain self.old) {
          further = caught_up_to (further_goes X.further) now (standing X.plain self.old).further;
        } }
        ensures rest { self.new ≡ record self.old { further = self.new.further } }
        ensures moved { X.moved self.new.further.unit ≡ one_more (X.moved self.old.further.unit) }
        ensures costs { Costs 1 1 steps.old steps.new (moves_of X.moved self.old) (moves_of X.moved self.new) }
    {
        self.further.unit.quiet_to(self.further.at, now, steps);
        self.further.at = now;
    }

    /// Catches bit 5 of IOS1 up to the start of state `now`, by arithmetic.
    pub fn catch_up_flag(&mut self, now: StateTime)
        requires scheduled { IsScheduled X.further X.agrees (standing X.plain self.old) now }
        ensures left { IsLeft X.further X.agrees now (standing X.plain self.new) (shown_units X.further (standing X.plain self.old) now) }
        ensures rest { self.new ≡ record self.old { flag = self.new.flag } }
        ensures standing { standing X.plain self.new ≡ record (standing X.plain self.old) {
          flag = caught_up_to (flag_goes (standing X.plain self.old)) now (standing X.plain self.old).flag;
        } }
    {
        self.flag.unit |= has_overflowed(self.flag.at, now);
        self.flag.at = now;
    }
}

/// Whether Timer 1 overflows in a state from `from` to before `to`.
pub fn has_overflowed(from: StateTime, to: StateTime) -> bool
    requires { from ≤ to }
    ensures { (raises flag : Bool) → (flag || result) ≡ after (flag_rule raises) from (to - from) flag }
{
    from / TIMER1_TURN < to / TIMER1_TURN
}

ghost use Rattle.std.specs.Prelude.{◌||◌, ◌-◌};
ghost use Rattle.kc_span.specs.Span.{after};
ghost use Rattle.kc_block_spec.specs.Laws.{flag_rule};
