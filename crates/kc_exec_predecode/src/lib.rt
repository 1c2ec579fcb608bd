//! Predecoded instructions, which are looked at once and performed many times: what their states depend on, and a straight way
//! through each of them.
//! It stands on the processor (`kc_exec`), and does over a bus exactly what `perform` does there.
//! `predecode` of `JE` finds that its states depend on the jump alone: `time_of` gives 8 where Z is 1, and 4 where Z is 0.
#![tactic(auto)]

mod computing;
mod cost;
mod here;
mod jumping;
mod moving;
mod predecoded;
mod predecoding;
mod rows;
mod timing;

pub use cost::Cost;
pub use predecoded::Predecoded;
pub use predecoding::predecode;
pub use rows::perform_predecoded;
pub use timing::{is_followed_freely, is_known, known_time_of, time_of};
