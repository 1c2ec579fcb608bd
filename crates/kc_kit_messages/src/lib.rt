//! What is said in words: each code (of faults, rules of the linker, undefined uses, requests, statuses) and each instruction
//! explained in a sentence, with an example where one is short; and the diagnostic of a refusal, with its file, its line and
//! what it is about. It stands on the crates that have the codes. Example: `explain E12` prints its sentence, a line that is
//! wrong and one that is right.
#![tactic(auto)]

mod diagnostics;
mod instructions;
mod laws;
mod lookup;
mod meaning;
mod origins;
mod printing;
mod rule_diagnostics;
mod rule_files;
mod rule_lines;
mod subjects;
mod table;
mod uses;

pub use diagnostics::{byte_diagnostic, line_diagnostic, put_broken, unkept_diagnostic};
pub use laws::{
    codes_differ, faults_are_explained, mnemonics_are_explained, uses_are_explained,
    vectors_are_described,
};
pub use lookup::{explain, sentence};
pub use meaning::{Example, Meaning};
pub use origins::{Members, Origins};
pub use printing::meaning_text;
pub use rule_lines::link_refusal;
pub use subjects::{put_body_line, source_diagnostic};
pub use uses::{FileLine, use_diagnostic};
