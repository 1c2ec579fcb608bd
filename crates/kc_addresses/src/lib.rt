//! Addresses as authors write them: what a debugger reads at its keyboard, and notes at instructions. The public names of a linker's
//! map, the lines of sources, numbers, and the words of a line. It stands on `kc_debug_script`, whose line map it looks lines up in.
//! Example: with the map `public 2094 CRANK IGN`, `crank+6` is the address 209AH, as `209A` and `209AH` are, and `IGN:12` is the
//! first address of line 12 of the module IGN.
#![tactic(auto)]

mod fault;
mod names;
mod numbers;
mod places;
mod words;

pub use fault::MapFault;
pub use kc_debug_script::LineMap;
pub use names::{Name, Names};
pub use numbers::{begins_with_digit, count, hex_value, value};
pub use places::{Known, line_place, place};
pub use words::{before_comment, cut, is_over, next_word};
