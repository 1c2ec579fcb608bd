// The slots of the due states.
ghost use Rattle.std.specs.Prelude.{◌≡◌, ◌≢◌, ℕ, ◌<◌};
ghost use Rattle.kc_due.specs.Due.{at_slot};
ghost use Rattle.kc_span.specs.DeferredUnit.{is_due_in};

use kc_base::StateTime;
use kc_due::DueList;

/// Whether a slot has this state.
pub fn is_due(due: &DueList, slot: u8, now: StateTime) -> bool
    requires { slot < 16 }
    ensures { result ≡ is_due_in now (at_slot due.now slot) }
{
    match due.time_of(slot) {
        Some(at) => at == now,
        None => false,
    }
}

/// Gives a slot the time that it has from now on, or none.
pub(crate) fn set_slot(due: &mut DueList, slot: u8, at: Option<StateTime>)
    requires { slot < 16 }
    ensures here { at_slot due.new slot ≡ at }
    ensures others { (k : ℕ) → k ≢ slot → at_slot due.new k ≡ at_slot due.old k }
{
    match at {
        Some(at) => due.set(slot, at),
        None => {
            if due.time_of(slot).is_some() {
                due.clear(slot);
            }
        }
    }
}
