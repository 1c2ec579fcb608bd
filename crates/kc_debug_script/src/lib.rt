//! The texts that a debugger reads: scripts of commands, and maps from addresses to lines of sources, each read to exactly
//! what its lines say, or to its first line that is wrong. It stands on `kc_base`. Example: the script `b 2094`, `g 1000`,
//! `l` stops before the instruction at 2094H, or in state 1000, and prints the last activities.
#![tactic(auto)]

mod command;
mod fault;
mod fields;
mod laws;
mod line_map;
mod script;

pub use command::{Command, SHOW_LIMIT, go, is_writable, letter_alone, step};
pub use fault::DebugFault;
pub use fields::{is_named, number};
pub use laws::{
    commands_are_read_back, maps_are_entries, maps_are_read_back, scripts_are_commands,
    scripts_are_read_back,
};
pub use line_map::{LineMap, MapEntry};
pub use script::Script;
