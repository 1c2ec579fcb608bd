//! What HSO and HSI hold at the start of the present state, which no register shows, and the levels of the inputs there.
ghost use Rattle.std.specs.Prelude.{◌≡◌, ◌+◌, ◌*◌, ◌≤◌, ◌<◌, slice_get};
ghost use Rattle.kc_base.specs.Fresh.{IsFresh};
ghost use Rattle.kc_hsi.specs.Input.{holding_of};
ghost use Rattle.kc_block_spec.specs.Looking.{levels_shown};
ghost use Rattle.kc_block_units.specs.Scheduler.{shown_units, IsScheduled, IsPresent};
ghost use Rattle.kc_block_units.specs.Standing.{standing, moves_of};
ghost use Rattle.kc_block_sfr.specs.Holding.{IsEntryDue, entry_due};

use crate::seeing::seen_at;
use kc_base::{StateTime, Steps};
use kc_block_units::Scheduler;
use kc_extra::Extra;
use kc_hsi::Entry as HsiEntry;
use kc_hso::cam::{Entry as HsoEntry, Held};
use std::marker::Brand;
use std::sync::ledger::{Blank, Ledger};

// Catches HSO up to the present state, with a counter of its own.
fn catch_up_hso<X: Extra, L: Ledger>(scheduler: &mut Scheduler<X>, now: StateTime, blank: Blank)
    requires present { IsPresent X.further X.agrees (standing X.plain scheduler.old) now }
    requires fresh { IsFresh blank L.name L.parts }
    ensures scheduled { IsScheduled X.further X.agrees (standing X.plain scheduler.new) now }
    ensures shows { shown_units X.further (standing X.plain scheduler.new) now ≡ shown_units X.further (standing X.plain scheduler.old) now }
    ensures there { scheduler.new.hso.unit.inner ≡ (shown_units X.further (standing X.plain scheduler.old) now).hso }
    ensures moves { moves_of X.moved scheduler.new ≤ moves_of X.moved scheduler.old + 1 }
{
    let mut own = Steps::<L>::new(blank);
    scheduler.catch_up_hso(now, &mut own);
}

/// What stands in the slots of HSO at the start of state `now`. It counts no call; HSO may be moved.
pub fn hso_slots<X: Extra>(scheduler: &mut Scheduler<X>, now: StateTime) -> [Option<HsoEntry>; 8]
    requires present { IsPresent X.further X.agrees (standing X.plain scheduler.old) now }
    ensures slots { result ≡ (shown_units X.further (standing X.plain scheduler.old) now).hso.slots }
    ensures scheduled { IsScheduled X.further X.agrees (standing X.plain scheduler.new) now }
    ensures shows { shown_units X.further (standing X.plain scheduler.new) now ≡ shown_units X.further (standing X.plain scheduler.old) now }
    ensures moves { moves_of X.moved scheduler.new ≤ moves_of X.moved scheduler.old + 1 }
{
    catch_up_hso::<X, Brand>(scheduler, now, Blank::new(1));
    scheduler.hso.unit.slots()
}

/// In which state the entry of a slot of HSO fires. It counts no call; HSO may be moved.
pub fn hso_due<X: Extra>(
    scheduler: &mut Scheduler<X>,
    now: StateTime,
    slot: u8,
) -> Option<StateTime>
    requires present { IsPresent X.further X.agrees (standing X.plain scheduler.old) now }
    requires slot { slot < 8 }
    ensures due { IsEntryDue (shown_units X.further (standing X.plain scheduler.old) now) now slot result }
    ensures found { result ≡ entry_due (shown_units X.further (standing X.plain scheduler.old) now) now slot }
    ensures scheduled { IsScheduled X.further X.agrees (standing X.plain scheduler.new) now }
    ensures shows { shown_units X.further (standing X.plain scheduler.new) now ≡ shown_units X.further (standing X.plain scheduler.old) now }
    ensures moves { moves_of X.moved scheduler.new ≤ moves_of X.moved scheduler.old + 1 }
{
    catch_up_hso::<X, Brand>(scheduler, now, Blank::new(1));
    let view = scheduler.view(now);
    scheduler.hso.unit.slot_due(slot, now, view)
}

/// What stands in the holding register of HSO, where it is loaded.
pub fn hso_holding<X: Extra>(scheduler: &Scheduler<X>, now: StateTime) -> Option<Held>
    requires { IsScheduled X.further X.agrees (standing X.plain scheduler.now) now }
    ensures { result ≡ (shown_units X.further (standing X.plain scheduler.now) now).hso.holding }
{
    scheduler.hso.unit.holding()
}

/// An entry of the queue of HSI, the oldest at 0; None behind the last one.
pub fn hsi_waiting<X: Extra>(
    scheduler: &Scheduler<X>,
    now: StateTime,
    index: usize,
) -> Option<HsiEntry>
    requires { IsScheduled X.further X.agrees (standing X.plain scheduler.now) now }
    ensures { result ≡ slice_get (shown_units X.further (standing X.plain scheduler.now) now).hsi.fifo index }
{
    scheduler.hsi.unit.waiting(index)
}

/// What the holding register of HSI holds, where it is loaded.
pub fn hsi_holding<X: Extra>(scheduler: &Scheduler<X>, now: StateTime) -> Option<HsiEntry>
    requires { IsScheduled X.further X.agrees (standing X.plain scheduler.now) now }
    ensures { result ≡ holding_of (shown_units X.further (standing X.plain scheduler.now) now).hsi }
{
    scheduler.hsi.unit.holding()
}

/// The levels of the inputs at the start of state `now`: of one without a wire that of its stimuli in `now`, of a wired one that in
/// the state before.
pub fn input_levels<X: Extra>(scheduler: &Scheduler<X>, now: StateTime) -> u64
    requires { IsScheduled X.further X.agrees (standing X.plain scheduler.now) now }
    ensures { result ≡ levels_shown now (shown_units X.further (standing X.plain scheduler.now) now) }
{
    seen_at(scheduler, now).levels
}
