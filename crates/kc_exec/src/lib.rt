//! What each instruction, each word of a block move and each entry does over a bus, and what the count of an instruction's states
//! depends on.
//! It stands on the parts of instructions (`kc_exec_operands`), and performs what `kc_exec_spec` describes.
//! `perform` of `LDB 20H,#0AH` writes 0AH to 20H; `word_states` gives 8 for a word that is moved within the register file, and 14
//! for one that is moved between two places outside it.
#![tactic(auto)]

mod blocks;
mod computing;
mod enters;
mod jumping;
mod moving;
mod places;
mod plan;
mod runs;
mod saving;

pub use blocks::{move_word, word_states};
pub use computing::{
    do_alter, do_compare_long, do_divide, do_extend, do_multiply, do_normalize, do_operate,
    do_shift,
};
pub use enters::{enter, trap_opcode};
pub use jumping::{distance_of, is_bit_jump, is_counted, is_met, psw_behind, read_table};
pub use kc_exec_spec::{After, Cpu, Words};
pub use moving::{do_exchange, do_load, do_load_extended, do_pop, do_push, do_store};
pub use places::{is_operand_outside, is_popping, is_pushing, place, stack_pointer};
pub use plan::make_plan;
pub use runs::perform;
pub use saving::do_save;
