//! The statements of a source, and the first fault of reading them.
//! It stands on what a line says (`kc_source_statement`).
//! Of the lines `A: NOP`, `A: NOP`, ` END`, `statements` refuses line 2 with code 6, since line 1 defines `A`.
#![tactic(auto)]

mod laws;
mod names;
mod pass;
pub mod uses;

pub use kc_source_statement::{Action, Arg, Args, Item, Items, Names, Stmt};
pub use laws::names_are_clear;
pub use pass::statements;
