//! Laws of definitions, without code, of assembled sources: each has one module or one first fault, at a line of it; modules
//! have one image, of bytes, and a listing that shows each byte once; a generic branch spans to its target; a fault has one
//! origin. They stand on `kc_asm`, `kc_asm_list` and `kc_link`. Example: no text has two objects, and no byte of an object is
//! missing from its listing.
#![tactic(auto)]

mod branches;
mod faults;
mod listing;
mod modules;
mod origins;
mod texts;

pub use branches::{anchors_hold, external_anchors_hold, targets_are_reached};
pub use faults::{
    faults_have_their_lines, faults_of_names_have_names, faults_stand_at_lines,
    symbols_stand_at_their_lines,
};
pub use listing::{each_byte_is_shown_once, one_instructions, one_listing, stretches_follow};
pub use modules::{
    faultless_are_read, faultless_have_modules, filled_are_bytes, filled_is_linked,
    linked_is_filled, modules_fit, one_answer_of_text, one_image_of_texts,
    one_linked_image_of_texts, one_module_of_text,
};
pub use origins::one_origin;
pub use texts::{texts_are_answered, texts_are_linked, texts_have_modules};
