//! The words of a command line as a command: its files, and its options with their values; and what is wrong in words that
//! are none. It stands on `kc_base` and on the regions of `kc_link_place`. Example: `run a.a96 --states 1000` is a command
//! with one file and a number; of `run a.a96 --states x` it says `bad value x of option --states`.
#![tactic(auto)]

mod command;
mod extent;
mod inputs;
mod numbers;
mod options;
mod order;
mod overwriting;
mod usage;
mod values;
mod words;

pub use command::{
    Assemble, Behind, Beside, Bound, Check, Command, Debug, Dump, Explain, Generate, Link, List,
    Pack, Profile, ProfileHex, Run, RunHex, Wanted,
};
pub use extent::Extent;
pub use inputs::{Input, Inputs, Role};
pub use kc_link_place::Ranges;
pub use numbers::number;
pub use order::options_come_in_any_order;
pub use usage::{Wrong, put_usage, wrong_where_no_command, wrong_words};
pub use words::read_words;
