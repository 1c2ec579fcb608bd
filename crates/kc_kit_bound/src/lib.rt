//! What is printed of the passes through a routine of an image: a bound, with the loops that it rests on, where requests may be served, how
//! long one waits and a walk that costs most; or why no bound is found. It stands on certificates and their checks (`kc_bound`,
//! `kc_bound_requests`) and on what finds them (`kc_bound_find`). Example: `report_bound` from 2100H, where `CMP 30H,[32H]`, `JE 210AH`,
//! `ADD 34H,30H,#1` and `RET` stand, has the text `bound 2100 31` and `open 2100`.
#![tactic(auto)]

mod refusals;
mod reports;
mod stops;
mod texts;
mod told;
mod walk_text;

pub use reports::{Report, report_bound};
