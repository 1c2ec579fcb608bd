//! Where the states of a run go, and its statistics: a run that is counted while it is printed, and the text of its numbers, by
//! address and by line. By the statistics also which lines of sources a run has done, in the form that lcov and genhtml take. It
//! stands on `kc_machine` and the line map of `kc_debug_script`. Example: `run a.a96 --states 1000 --profile p.txt` prints what it
//! prints without, and p.txt has the states of each address. Of a source `a.a96` whose line 2 is done once, the tracefile has
//! `SF:a.a96`, `DA:2,1`, `LF:1`, `LH:1` and `end_of_record`.
#![tactic(auto)]

mod cover;
mod laws;
mod profile;
mod reporting;
mod running;
mod sight;
mod source;
mod spot;
mod spread;
mod statistics;
mod statistics_text;
mod waits;

pub use cover::put_sources;
pub use laws::{
    branches_pass_to_the_next, spreads_are_of_all, statistics_are_one, tallies_are_one,
    times_are_rows, waits_are_seen, waits_are_since_it_came,
};
pub use profile::Profile;
pub use reporting::report;
pub use running::run_profiled;
pub use sight::is_branch;
pub use source::{Instruction, Source};
pub use spot::Spot;
pub use statistics::Statistics;
pub use statistics_text::Scope;
