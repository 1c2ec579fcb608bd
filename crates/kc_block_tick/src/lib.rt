//! Events of the block: the Tick of a state in which anything is worked, unit by unit, and the way from one to the next.
//! It stands on the deferred units and the scheduler (`kc_block_units`), and computes what `kc_block_spec` defines.
//! With HSO due in state 82 and nothing else before, `advance` from state 11 to state 83 makes one Tick, that of state 82, and
//! hands out its edges.
#![tactic(auto)]

mod advancing;
mod asks;
mod commands;
mod passing;
mod pins;
mod raised;
mod ticks;
mod units;

pub use advancing::advance;
pub use passing::pass;
