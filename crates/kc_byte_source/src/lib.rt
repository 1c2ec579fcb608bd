//! Where bytes come from: sources of bytes in memory and of the host, and the lines of what a source gives.
#![tactic(auto)]

mod host;
mod lines;
mod memory;
mod source;
mod window;

pub use host::HostInput;
pub use lines::{LineFault, Lines, MOST};
pub use memory::{MemSource, copy_prefix};
pub use source::{Failed, Source};
