//! The definitions of the board: what an access to the common memory does, what the machine does in each state time, and what is
//! printed of a run.
//! It stands on instructions and their accesses, on all units in one state, and on the transfer server (`kc_exec_spec`,
//! `kc_block_spec`, `kc_pts`). It holds plain data and definitions with their laws alone; the crates above compute them.
//! With FFH, RST, at 2080H the run ends with the last of the four states of that instruction, and prints `X 3 reset` and
//! `PC 2081`.
#![tactic(auto)]

mod doing;
mod laws;

pub use doing::{Activity, End, Going, Next, UnderWay};
pub use laws::{idle_span, part_of_activity, touch_is_within_work, whole_activity};
