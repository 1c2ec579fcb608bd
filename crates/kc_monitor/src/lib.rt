//! What a timing rule asks of a life, and whether the life keeps it: rules see what happens once, in order, and report what became of
//! their obligations.
#![tactic(auto)]

mod law;
mod machine;
mod marks;
mod matching;
mod monitor;
mod verdict;
mod watch;

pub use kc_monitor_forms::{Answer, Found, Obligation, Offset, Point, Spread, Tally};
pub use law::{life_law, moments_law, run_law};
pub use monitor::Monitor;
pub use verdict::{is_broken, put_verdict};
pub use watch::Watch;
