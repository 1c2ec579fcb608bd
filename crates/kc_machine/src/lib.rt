//! The machine: an image that is run in state times, with the units of its board, and the lines of its trace.
//! It stands on the processor, on the block of units and on the transfer server (`kc_exec`, `kc_exec_predecode`, `kc_block`,
//! `kc_pts`), and computes what `kc_machine_spec` defines.
//! An image with the bytes `F601` at 2080H, which idle, is run to state 1000000000000000 at once: `X 1000000000000000 spent` and
//! `PC 2082`.
#![tactic(auto)]

mod choosing;
mod common;
mod ending;
mod finals;
mod lent;
mod looking;
mod machine;
mod noted;
mod over;
mod parts;
mod passing;
mod raising;
mod weights;

pub use finals::stopped;
pub use kc_machine_spec::End;
pub use kc_trace::WriteFault;
pub use machine::Machine;
