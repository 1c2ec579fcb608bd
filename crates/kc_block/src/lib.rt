//! All peripheral units of the board as one, each held at a state time of its own. What is shown is that of all units ticked
//! together, state time by state time; what is called is only what a Tick or an access touches.
//! It stands on accesses and events of the deferred units (`kc_block_sfr`, `kc_block_tick`); the machine stands on it.
//! With HSO due in state 82, where HSO0 rises, and nothing else before, `due()` is 82 from state 11 on, and `advance(100, ..)`
//! hands out that edge.
#![tactic(auto)]

mod accesses;
mod block;
mod holding;
mod lent;
mod timed;

pub use block::Block;
pub use kc_block_spec::Window;
