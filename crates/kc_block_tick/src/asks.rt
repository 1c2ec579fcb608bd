// Touched units asked in the next state.
ghost use Rattle.std.specs.Prelude.{◌≡◌, ◌≢◌, ℕ, ◌+◌, ◌*◌, ◌≤◌, ◌<◌, if◌then◌else◌, true, false};
ghost use Rattle.kc_base.specs.Limits.{max_states};
ghost use Rattle.kc_due.specs.Due.{at_slot};
ghost use Rattle.kc_stim.specs.Drives.{IsNextEdge};
ghost use Rattle.kc_stim.specs.Proper.{AreProper};
ghost use Rattle.kc_hsi.specs.Input.{hsi_rule};
ghost use Rattle.kc_block_spec.specs.Touch.{one_if};
ghost use Rattle.kc_block_units.specs.Scheduler.{flag_goes, timer2_goes, hso_goes, further_goes, levels_ahead, wire_slot, AreHeld};
ghost use Rattle.kc_block_units.specs.Events.{AsksWhere};
ghost use Rattle.kc_block_units.specs.Standing.{standing};
ghost use Rattle.kc_block_tick.specs.Asking.{AreAskedWhere};

use kc_base::{StateTime, Steps};
use kc_block_units::Scheduler;
use kc_extra::Extra;
use std::sync::ledger::Ledger;

/// What a Tick touches: each unit, Timer 1's flag where it raises a request, and whether stimuli come in the state.
#[derive(Clone, Copy)]
pub(crate) struct Touched {
    pub flag: bool,
    pub timer2: bool,
    pub hso: bool,
    pub hsi: bool,
    pub further: bool,
    pub stimuli: bool,
}

fn ask_timer2<X: Extra, L: Ledger>(
    scheduler: &mut Scheduler<X>,
    touched: bool,
    next: StateTime,
    steps: &mut Steps<L>,
)
    requires { next ≤ 4 * max_states }
    ensures asks { AsksWhere touched (timer2_goes (standing X.plain scheduler.new)) next (standing X.plain scheduler.new).timer2.kept (at_slot scheduler.old.due 0) (at_slot scheduler.new.due 0) }
    ensures rest { scheduler.new ≡ record scheduler.old { due = scheduler.new.due } }
    ensures others { (k : ℕ) → k ≢ 0 → at_slot scheduler.new.due k ≡ at_slot scheduler.old.due k }
    ensures steps { steps.new ≡ steps.old + one_if touched }
{
    if touched {
        scheduler.ask_timer2(next, steps);
    }
}

fn ask_hso<X: Extra, L: Ledger>(
    scheduler: &mut Scheduler<X>,
    touched: bool,
    next: StateTime,
    steps: &mut Steps<L>,
)
    requires bound { next ≤ 4 * max_states }
    requires timer2 { scheduler.old.timer2.at ≤ next }
    ensures asks { AsksWhere touched (hso_goes (standing X.plain scheduler.new)) next (standing X.plain scheduler.new).hso.kept (at_slot scheduler.old.due 1) (at_slot scheduler.new.due 1) }
    ensures rest { scheduler.new ≡ record scheduler.old { due = scheduler.new.due } }
    ensures others { (k : ℕ) → k ≢ 1 → at_slot scheduler.new.due k ≡ at_slot scheduler.old.due k }
    ensures steps { steps.new ≡ steps.old + one_if touched }
{
    if touched {
        scheduler.ask_hso(next, steps);
    }
}

fn ask_hsi<X: Extra, L: Ledger>(
    scheduler: &mut Scheduler<X>,
    touched: bool,
    next: StateTime,
    steps: &mut Steps<L>,
)
    requires { next ≤ 4 * max_states }
    ensures asks { AsksWhere touched hsi_rule next (standing X.plain scheduler.new).hsi.kept (at_slot scheduler.old.due 2) (at_slot scheduler.new.due 2) }
    ensures rest { scheduler.new ≡ record scheduler.old { due = scheduler.new.due } }
    ensures others { (k : ℕ) → k ≢ 2 → at_slot scheduler.new.due k ≡ at_slot scheduler.old.due k }
    ensures steps { steps.new ≡ steps.old + one_if touched }
{
    if touched {
        scheduler.ask_hsi(next, steps);
    }
}

fn ask_further<X: Extra, L: Ledger>(
    scheduler: &mut Scheduler<X>,
    touched: bool,
    next: StateTime,
    steps: &mut Steps<L>,
)
    requires { next ≤ 4 * max_states }
    ensures asks { AsksWhere touched (further_goes X.further) next (standing X.plain scheduler.new).further.kept (at_slot scheduler.old.due 3) (at_slot scheduler.new.due 3) }
    ensures rest { scheduler.new ≡ record scheduler.old { due = scheduler.new.due } }
    ensures others { (k : ℕ) → k ≢ 3 → at_slot scheduler.new.due k ≡ at_slot scheduler.old.due k }
    ensures steps { steps.new ≡ steps.old + one_if touched }
{
    if touched {
        scheduler.ask_further(next, steps);
    }
}

fn ask_flag<X: Extra>(scheduler: &mut Scheduler<X>, touched: bool, next: StateTime)
    requires { next ≤ 4 * max_states }
    ensures asks { AsksWhere touched (flag_goes (standing X.plain scheduler.new)) next (standing X.plain scheduler.new).flag.kept (at_slot scheduler.old.due 4) (at_slot scheduler.new.due 4) }
    ensures rest { scheduler.new ≡ record scheduler.old { due = scheduler.new.due } }
    ensures others { (k : ℕ) → k ≢ 4 → at_slot scheduler.new.due k ≡ at_slot scheduler.old.due k }
{
    if touched {
        scheduler.ask_flag(next);
    }
}

/// The next state with an edge by stimuli is searched where the last one is past.
fn ask_stimuli<X: Extra>(scheduler: &mut Scheduler<X>, touched: bool, next: StateTime)
    ensures next { touched ≡ true → IsNextEdge scheduler.new.stimuli.stimuli next (at_slot scheduler.new.due 5) }
    ensures same { touched ≡ false → at_slot scheduler.new.due 5 ≡ at_slot scheduler.old.due 5 }
    ensures rest { scheduler.new ≡ record scheduler.old { due = scheduler.new.due } }
    ensures others { (k : ℕ) → k ≢ 5 → at_slot scheduler.new.due k ≡ at_slot scheduler.old.due k }
{
    if touched {
        scheduler.set_stimuli(next);
    }
}

/// Asks each touched unit when it is due from state `next` on, and sets the slots of stimuli and wires.
pub(crate) fn ask_touched<X: Extra, L: Ledger>(
    scheduler: &mut Scheduler<X>,
    touched: Touched,
    next: StateTime,
    steps: &mut Steps<L>,
)
    requires bound { next ≤ 4 * max_states }
    requires timer2 { scheduler.old.timer2.at ≤ next }
    requires proper { AreProper scheduler.old.stimuli }
    requires held { AreHeld scheduler.old.stimuli scheduler.old.board_registers.levels next }
    ensures rest { scheduler.new ≡ record scheduler.old { due = scheduler.new.due } }
    ensures asked { AreAskedWhere X.further touched next scheduler.old.due (standing X.plain scheduler.new) }
    ensures steps { steps.new ≡ steps.old + (one_if touched.timer2 + one_if touched.hso + one_if touched.hsi + one_if touched.further) }
{
    ask_timer2(scheduler, touched.timer2, next, steps);
    ask_hso(scheduler, touched.hso, next, steps);
    ask_hsi(scheduler, touched.hsi, next, steps);
    ask_further(scheduler, touched.further, next, steps);
    ask_flag(scheduler, touched.flag, next);
    ask_stimuli(scheduler, touched.stimuli, next);
    scheduler.set_wires(next);
}
