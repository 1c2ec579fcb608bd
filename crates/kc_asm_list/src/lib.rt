//! The listing of a source: each of its lines with the addresses and the bytes of what stands there, and how deep in calls and
//! repetitions the lines of its expansion stand. It stands on the expansion (`kc_macro`), the layout of `kc_asm_layout` and the
//! module. Example: `NOP` at 2080H, in line 2, has the row `2 C 2080 FD` with its source behind it. Where a macro `M` calls a macro
//! `N`, a line that `N` puts in stands at depth 2, and the listing marks it `+2`.
#![tactic(auto)]

mod bytes;
mod fields;
pub mod laws;
mod listed;
mod pieces;
mod relocatable_bytes;
mod reporting;
mod rows_listing;
mod spot;
mod spots;
mod statements;

pub use listed::{instructions, listing};
pub use reporting::depths;
pub use rows_listing::rows;
pub use spot::Spot;
