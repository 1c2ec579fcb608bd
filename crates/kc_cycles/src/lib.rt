//! Runs that go on after a reset: lives of a board with a watchdog, a further unit with a deadline, one after the other.
//! It stands on the machine and on what a further unit is (`kc_machine`, `kc_extra`).
//! FFH, RST, at 2080H over 10 states and 2 lives prints `B 3 reset` and `X 3 reset`. 1EH in state 4 and E1H in state 9 feed the
//! watchdog, whose deadline is then state 65545: a life that feeds it no more ends as `B 65544 watchdog`.
//! The watchdog of the board, a further unit: two values written to its register feed it, and it has a deadline from then on.
#![tactic(auto)]

mod laws;
mod life;
mod lives;
mod maker;
mod restart;
mod watchdog;

pub use laws::deadlines_are_of_last_feedings;
pub use life::{deadline_in, has_come, span_end};
pub use lives::{LivesFault, born, run_lives};
pub use maker::Maker;
pub use restart::put_restart;
pub use watchdog::{PATIENCE, Watchdog};
