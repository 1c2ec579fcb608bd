//! How a part of the board goes on by itself over a span of state times, when it next does something, and how it waits as a
//! deferred unit: at a state of its own, until it is caught up and rescheduled. All peripheral units and the machine speak of
//! time in these words.
//! It stands on no other crate, and holds definitions with their laws; of code it has the earlier of two due states alone.
//! `earlier(Some(16), Some(9))` gives `Some(9)`. A timer that is due in state 15 is quiet over the six states from 9 on.
#![tactic(auto)]

mod deferred;
mod span;

pub use deferred::{
    alike_rules, calm_before_due, caught_up_forward, event_at_due, lent_quietly, next_state,
    passes_over, rescheduled, waits_up_to_due,
};
pub use span::{earlier, quiet_up_to_due, spans_join};
