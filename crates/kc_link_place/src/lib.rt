//! The places of pieces: names, overlaps and room, by the rules of the linker; and what relocations put into bytes once the bases
//! are known.
//! It stands on object modules (`kc_obj_module`).
//! In the ranges of `Ranges::new()` the first relocatable piece of code stands at 2080H. ` RSEG`, ` DSB 229` is refused for want
//! of room: relocatable registers begin at a multiple of 4, and from 1CH to FFH there are 228.
//! Relocations: the number that each puts into the bytes of a module once the bases are known, and the filled bytes.
#![tactic(auto)]

mod apart;
mod bases;
mod cover;
mod filled;
mod gaps;
mod names;
mod numbers;
mod pieces;
mod places;
mod placing;
mod putting;
mod ranges;
mod rules;
mod stack;

pub use apart::code_stands_apart;
pub use bases::Bases;
pub use filled::{filled_byte, first_unfit};
pub use places::Placed;
pub use placing::{Placement, locate, place};
pub use ranges::{LinkFault, Ranges};
pub use stack::stack_size;
