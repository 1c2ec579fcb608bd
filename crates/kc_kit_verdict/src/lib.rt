//! Rules over the run whose trace a source gives: the verdict of each rule, and of each broken one its line. It stands on the steps
//! of a trace (`kc_events`) and on the rules that watch them (`kc_monitor`), and names no file. Example: with the rule
//! `never HSO0 rise` in line 2, the lines `P 82 HSO0 1` and `X 100 spent` give `broken 2 82 - 1 0`.
#![tactic(auto)]

mod checking;
mod laws;
mod verdict;
mod watching;

pub use checking::check_run;
pub use laws::runs_are_seen;
pub use verdict::Verdict;
