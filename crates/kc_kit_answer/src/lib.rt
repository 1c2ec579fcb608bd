//! What each command answers, over what its files say: what it prints, which files it writes, and its status; a file of
//! definitions and one of code for each command. It stands on `kc_kit_inputs` and `kc_kit_running`. Example: `specs/Hex.antt`
//! is the whole answer of `hex`, and `src/run_hex.rt` gives it.
#![tactic(auto)]

mod assemble;
mod board;
mod bound;
mod check;
mod cover;
mod debug;
mod dump;
mod explaining;
mod generate;
mod help;
mod helping;
mod job;
mod line_map;
mod link;
mod list;
mod pack;
mod placing;
mod profile;
mod run;
mod run_hex;
mod writing;

pub use assemble::prepare_assemble;
pub use bound::prepare_bound;
pub use check::prepare_check;
pub use debug::prepare_debug;
pub use dump::prepare_dump;
pub use explaining::explain_code;
pub use generate::prepare_generate;
pub use help::{HELP, VERSION};
pub use helping::{report_help, report_help_on};
pub use job::{Job, perform};
pub use link::prepare_link;
pub use list::prepare_list;
pub use pack::prepare_pack;
pub use profile::{prepare_profile, prepare_profile_hex};
pub use run::prepare_run;
pub use run_hex::prepare_hex;
