//! The walk through a routine that costs most, of those that are found: a way from instruction to instruction, as the notes allow it, and
//! how often which instruction spends how many states.
//! It stands on the ways of instructions and on certificates (`kc_bound`). How a walk is found is free: it is made of parts, and each part
//! is a way that the image has. `find_walk` from 2100H, where `CMP 30H,[32H]`, `JE 210AH`, `ADD 34H,30H,#1` and `RET` stand, spends 8, 4, 6
//! and 13 states, each once.
#![tactic(auto)]

mod costs;
mod finding;
mod lines;
mod part;
mod search;
mod stack;
mod steps;
mod turns;

pub use finding::find_walk;
pub use lines::Spent;
