//! The statements of a source: what they are made of, and what a line says.
//! It stands on tokens and expressions (`kc_lex`, `kc_expr`).
//! `read_label` gives for `L: ADD 20H,#1` the label `L`; `read_statement` gives `Action::Operation` with the name `ADD` and the
//! operands `Arg::Plain` and `Arg::Immediate`.
#![tactic(auto)]

mod forms;
mod laws;
pub mod lists;
mod operands;
mod parts;
mod reading;
pub mod statement;

pub use laws::{names_stand_on_the_line, operands_have_forms, statements_are_formed};
pub use lists::{Args, Items, Names};
pub use reading::{read_label, read_statement};
pub use statement::{Action, Arg, Item, Stmt};
