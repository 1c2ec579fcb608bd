//! The transfer server: the setup of a cycle, its transfers and its end, over any bus.
//! It stands on the bus (`kc_bus`), and performs accesses as `kc_exec_spec` describes them.
//! A control block with PTSCOUNT 3, PTSCON 0FH and PTSBLOCK 2 takes 12 states of setup and two transfers of words, of 7 states
//! each; `finish` gives the new count 2, and both pointers have grown by 4.
#![tactic(auto)]

mod cycle;
mod ends;
mod laws;
mod server;
mod serving;
mod setups;
mod transfers;

pub use cycle::{Cycle, Left};
pub use ends::finish;
pub use kc_base::PtsMode;
pub use laws::{setup_accesses, states_of_setups, transfer_accesses};
pub use serving::serve;
pub use setups::{SETUP_STATES, setup, transfer_states};
pub use transfers::transfer;
