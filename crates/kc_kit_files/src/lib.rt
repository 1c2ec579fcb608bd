//! Files read in the order of their names, and what a command says of them: statuses, refusals with their lines and
//! diagnostics, and what a response does to files and output. It stands on the files and sinks of `kc_base`. Example: a name
//! without a file prints `missing NAME` with status 2, and nothing is written.
#![tactic(auto)]

mod ended;
mod reading;
mod refusal;
mod saying;
mod status;
mod text;
mod word;
mod writing;

pub use ended::{Ended, Said};
pub use reading::{read_file, read_files, unread};
pub use refusal::{Cause, Refusal, refusal_of};
pub use saying::{refuse, report, say};
pub use status::Status;
pub use text::{put_shown, put_text, report_shown, shown};
pub use word::{put_word, report_word};
pub use writing::{long_output, write_file};
