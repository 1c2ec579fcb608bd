//! Large valid inputs that are made from a number: three sources and a stimulus file, so that whoever tries the kit has some
//! of any size. It stands on `kc_base`. Example: `kc96 gen 0` assembles, links and runs what is made from 0, and counts what
//! that does.
#![tactic(auto)]

mod edges;
mod random;
mod sources;

pub use edges::stimuli;
pub use sources::program;
