//! The levels of the pins of the board as masks, bit n pin n, with the edges between two masks; and the units as the block keeps
//! them, each a deferred unit at a state of its own beside the due states of the scheduler: made, caught up and rescheduled. Laws say
//! why the block need not step: before the least due state the Tick of all units does nothing but lead to what is shown next.
//! It stands on deferred units (`kc_span`), on the units, and on all units in one state (`kc_block_spec`).
//! With HSO due in state 82 and no other unit before, the states 11 to 81 pass without a call. `has_overflowed(524_287, 524_288)`
//! is true: Timer 1 overflows in state 524287. `hsi_bits(0x3C_0000)` gives 0FH, since HSI0 to HSI3 are pins 18 to 21.
#![tactic(auto)]

mod asking;
mod catching_up;
mod edges;
mod inputs;
mod latches;
mod laws;
mod masks;
mod scheduler;
mod scheduling;
mod seeing;
mod slots;
mod starting;

pub use catching_up::has_overflowed;
pub use edges::{edges_lead_on, lead_all, lead_edges};
pub use inputs::{start_levels, stimulated, unwired, wired, wired_inputs};
pub use latches::{outputs, printed};
pub use laws::rxd_starts_high;
pub use masks::{has_pin, hsi_bits};
pub use scheduler::{DeferredUnit, Scheduler};
pub use scheduling::{
    due_states_are_worked, events_join, extras_are_further, least_slots_are_due,
    quiet_states_only_rest, touches_are_known, untouched_scheduler_stay,
    untouched_units_are_silent, views_are_lines,
};
pub use seeing::control;
pub use slots::is_due;
