// What is seen of the deferred units without a call of a unit that counts.
ghost use Rattle.std.specs.Prelude.{◌≡◌, ℕ, ◌*◌, ◌≤◌, ◌+◌, ◌<◌, ◌&&◌, ◌||◌};
ghost use Rattle.kc_base.specs.Limits.{max_states};
ghost use Rattle.kc_base.specs.Bits.{bit};
ghost use Rattle.kc_timers.specs.T2.{view_of};
ghost use Rattle.kc_due.specs.Due.{at_slot};
ghost use Rattle.kc_span.specs.DeferredUnit.{shown, is_due_in};
ghost use Rattle.kc_block_spec.specs.Control.{control_of};
ghost use Rattle.kc_block_spec.specs.Levels.{levels_at, stimulated as stimulated_at};
ghost use Rattle.kc_block_spec.specs.Touch.{block_rule};
ghost use Rattle.kc_block_units.specs.Scheduler.{timer2_goes, shown_units, IsScheduled};
ghost use Rattle.kc_block_units.specs.Laws.{IsUpTo};
ghost use Rattle.kc_block_units.specs.Standing.{standing};
ghost use Rattle.kc_block_units.specs.Next.{IsDueOrLast};

use crate::scheduler::Scheduler;
use crate::slots::is_due;
use crate::{has_pin, outputs, stimulated, unwired, wired};
use kc_base::{Pin, StateTime};
use kc_block_spec::BoardRegisters;
use kc_extra::Extra;
use kc_timers::{T2Control, T2View};

/// How Timer 2 is clocked and reset at these levels of the inputs.
pub fn control(board_registers: &BoardRegisters, levels: u64) -> T2Control
    ensures { result ≡ control_of board_registers.now levels }
{
    let ioc0 = u64::from(board_registers.ioc0);
    let ioc2 = u64::from(board_registers.ioc2);
    T2Control {
        hsi1: has_pin(ioc0, 7),
        internal: has_pin(u64::from(board_registers.ioc3), 0),
        fast: has_pin(ioc2, 0),
        down: has_pin(ioc2, 1) && has_pin(levels, Pin::T2UD.0),
        reset_on: has_pin(ioc0, 3),
        reset_hsi0: has_pin(ioc0, 5),
    }
}

impl<X: Extra> Scheduler<X> {
    /// What HSO sees of Timer 2 in state `at`, by arithmetic.
    pub fn view(&self, at: StateTime) -> T2View
        requires order { self.now.timer2.at ≤ at }
        requires bound { at ≤ 4 * max_states }
        ensures view { result ≡ view_of (control_of self.now.board_registers self.now.board_registers.levels)
            (shown (timer2_goes (standing X.plain self.now)) (standing X.plain self.now).timer2 at) }
        ensures range { self.now.timer2.unit.inner.value < 65536 }
    {
        let _kept = self.timer2.unit.value();
        let view = self.timer2.unit.view(control(
            &self.board_registers,
            self.board_registers.levels,
        ));
        T2View {
            value: view.value_at(self.timer2.at, at),
            every: view.every,
            down: view.down,
        }
    }

    // The levels that stimuli give in state `now`, which are searched only where one comes there.
    fn own_levels(&self, now: StateTime, stimuli_due: bool) -> u64
        requires scheduled { IsScheduled X.further X.agrees (standing X.plain self.now) now }
        requires due { stimuli_due ≡ is_due_in now (at_slot self.now.due 5) }
        ensures { result ≡ stimulated_at self.now.stimuli now }
    {
        if stimuli_due {
            stimulated(&self.stimuli, now)
        } else {
            unwired(&self.stimuli, self.board_registers.levels)
        }
    }

    /// The levels of the inputs in state `now`. Where neither a stimulus nor a wire is due there, they are those of the state
    /// before.
    pub fn levels(&self, now: StateTime) -> u64
        requires { IsScheduled X.further X.agrees (standing X.plain self.now) now }
        ensures { result ≡ levels_at now (shown_units X.further (standing X.plain self.now) now) }
    {
        let stimuli_due = is_due(&self.due, 5, now);
        if !stimuli_due && !is_due(&self.due, 6, now) {
            return self.board_registers.levels;
        }
        let own = self.own_levels(now, stimuli_due);
        own | wired(
            &self.stimuli,
            outputs(&self.board_registers, &self.hso.unit),
        )
    }

    /// The next state in which anything is worked, if no access comes: the least of all due states, or the last number of
    /// 64 bits.
    pub fn next(&self) -> StateTime
        ensures up_to { (now : ℕ) → IsScheduled X.further X.agrees (standing X.plain self.now) now → IsUpTo (standing X.plain self.now) result }
        ensures due { (now : ℕ) → IsScheduled X.further X.agrees (standing X.plain self.now) now →
            IsDueOrLast (block_rule X.further) now (shown_units X.further (standing X.plain self.now) now) result }
    {
        match self.due.first() {
            Some((_, at)) => at,
            None => u64::MAX,
        }
    }
}
