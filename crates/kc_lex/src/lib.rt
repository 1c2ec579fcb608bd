//! The lines of a source, their tokens, and the words of the language that are no names.
//! It stands on the instruction table (`kc_isa`), which says what instructions there are.
//! `lines` gives ` ADD 20H,#V` five tokens: the word `ADD`, the number 20H, `,`, `#` and the name `V`. A name of 32 letters is
//! refused with code 1, and the number 4294967296 with code 9.
#![tactic(auto)]

mod chars;
pub mod fault;
pub mod grammar;
mod instructions;
pub mod kinds;
pub mod line_fault;
mod number;
mod reader;
mod reserved;
mod scan;
pub mod token;
pub mod words;

pub use fault::{SourceCode, SourceFault};
pub use instructions::first_opcode;
pub use line_fault::LineFault;
pub use reader::lines;
pub use token::{Line, Token, TokenKind, Tokens};
pub use words::{Directive, Notation, Operands};
