//! What stands for macros, repetitions and conditions, in the words of the language: laws of the rewriting that expansion is,
//! without code; and that each word which they make is a name.
//! It stands on the definitions of the expansion (`kc_macro`).
//! ` REPT 2`, ` NOP`, ` ENDM` is two copies of ` NOP`, by `rept_is_copies`; the LOCAL names `??0001`, `??0002` and on have at
//! most 31 characters.
#![tactic(auto)]

mod expansions;
mod made_names;

pub use expansions::{
    call_is_its_body, calls_have_their_own_names, exitm_ends_the_innermost, exitm_in_a_call,
    exitm_in_a_rept, if_else_is_its_part, if_is_its_part, irp_is_copies,
    locals_have_their_own_names, macro_is_defined, plain_call_is_its_lines, reached_marks_are_old,
    rept_is_copies, rewriting_keeps_the_answer,
};
pub use made_names::{
    expansion_ends_at_a_place, expansion_keeps_tests, expansion_makes_names, lines_have_names,
    local_names_are_few,
};
