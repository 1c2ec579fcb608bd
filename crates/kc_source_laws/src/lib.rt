//! What stands in the statements of a source stands in its text, and what the passes over lines, macros, statements and names
//! make sure of: laws of definitions, without code.
//! It stands on the definitions of the expansion, of statements and of names (`kc_macro`, `kc_source`, `kc_asm_symbols`).
//! The statement of ` DCB 'AB'` on line 3 has the number 3, and its string is the bytes 41H and 42H of that line.
#![tactic(auto)]

mod earlier;
mod sources;

pub use earlier::{
    bytes_stand_in_code, sources_are_read_well, statements_are_reported, texts_are_reported,
};
pub use sources::{
    expansion_keeps_lines, lines_are_of_the_text, statements_are_of_the_text,
    statements_keep_lines, strings_stand_on_the_line,
};
