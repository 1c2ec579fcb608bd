//! The lines of a macro's body: the words by which lines are matched, arguments, LOCAL names, and lines with what stands for
//! their parameters.
//! It stands on the tokens of lines (`kc_lex`).
//! `arguments` gives `<2,3>,'x'` two arguments, `2,3` and the string; `filled` makes of `L&A: NOP` with 1 for `A` the line
//! `L1: NOP`.
#![tactic(auto)]

pub mod arguments;
pub mod bodies;
pub mod calls;
pub mod copying;
pub mod filling;
pub mod given;
pub mod lists;
pub mod macros;
pub mod words;

pub use given::Given;
pub use lists::{Names, Texts};
pub use macros::{Formals, Locals, Macro, Macros};
pub use words::Word;
