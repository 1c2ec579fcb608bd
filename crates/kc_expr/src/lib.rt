//! Expressions: their tree, and their values.
//! It stands on the tokens of lines (`kc_lex`), and asks a `Scope` what names mean.
//! `2+3*4` is 14, `LOW 1234H SHL 4` is 0340H, `-1` is FFFFH and `NOT 1 EQ 1 OR 2` is 2; `1/0` is refused with code 11.
#![tactic(auto)]

pub mod evaluate;
pub mod expr;
pub mod grammar;
mod laws;
mod operators;
pub mod parser;
pub mod symbols;
pub mod values;

pub use evaluate::{Scope, fixed, is_fixed, value, value_over};
pub use expr::{Binary, Expr, Unary};
pub use laws::{expressions_are_alike, expressions_are_known};
pub use operators::is_type;
pub use parser::parse;
pub use symbols::Symbols;
pub use values::{Base, NoValue, Tag, Value};
