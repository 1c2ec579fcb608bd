//! The kit as a whole: `kit` takes the words of a command line and files, and gives what is printed, what is written and the
//! status. It stands on `kc_kit_words` and `kc_kit_answer`; its contract is what the program promises. Example: the words
//! `explain`, `E12` give a sentence with an example, and status 0.
#![tactic(auto)]

mod top;

pub use kc_kit_answer::{HELP, VERSION};
pub use kc_kit_files::{Ended, Status};
pub use top::kit;
