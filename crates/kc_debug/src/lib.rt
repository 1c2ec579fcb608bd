//! The debugger: a script of commands that is carried out over a machine, and what is printed of it. It stands on
//! `kc_machine` and `kc_debug_script`. Example: `s 2` passes two activities and prints where the board stands then, as `T 145
//! 2098`; over lives it gives the number of the life too, as `T 145 2098 1`.
#![tactic(auto)]

mod activities;
mod carrying;
mod in_lives;
mod life;
mod lines;
mod living;
mod past;
mod session;
mod showing;
mod stops;

pub use activities::Begun;
pub use carrying::{go, step};
pub use in_lives::{Lives, debug_lives};
pub use kc_debug_script::{DebugFault, LineMap, Script};
pub use kc_machine::End;
pub use lines::{activity_fields, stand_line, stand_line_in_life};
pub use living::{go_in_life, step_in_life};
pub use past::{Past, count_finished, keep_finished, report_earlier, report_present};
pub use session::{Session, first_begun};
pub use showing::{REPORTED, report_history, report_place, show};
pub use stops::{Breaks, Stops};
