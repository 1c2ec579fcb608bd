//! What an instruction, an entry or a transfer does to the common memory, described access by access.
//! It stands on the instruction table and on results with their flags (`kc_isa`, `kc_alu`). It holds plain data and definitions
//! alone; the crates above perform them over any bus.
//! A push is three accesses: the word at 18H, which is SP, is read; 18H is written with 2 less; the value is written where SP
//! points then.
#![tactic(auto)]

mod access;
mod cpu;
mod laws;
mod plan;

pub use access::{Access, Masks, Master};
pub use cpu::{After, Cpu, Words};
pub use laws::{eight_accesses, entry_accesses, trap_accesses, word_accesses};
pub use plan::{
    Alteration, Computation, Movement, Operation, Plan, Route, Saving, Setting, Size, Test,
};
