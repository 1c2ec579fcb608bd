//! Runs of a board: the further units that are fitted to it, and what a run prints and writes, once or over several lives,
//! with a profile, counted, or as a script says, and what is said of an undefined use in which one has ended. It stands on `kc_machine`, `kc_cycles`, `kc_profile` and `kc_debug`.
//! Example: every board of a command has the serial port, the converter and the three pulse-width outputs.
#![tactic(auto)]

mod accounts;
mod board;
mod count;
mod debug_run;
mod fitted;
mod fitting;
mod image_run;
mod lives_run;
mod output;
mod profile_lives;
mod profile_run;
mod source_lines;
mod sources;

pub use accounts::Lines;
pub use board::Board;
pub use count::count_board;
pub use debug_run::debug_board;
pub use image_run::run_board;
pub use output::{Output, write_output};
pub use profile_run::profile_board;
pub use sources::Sources;
