//! The most states of a routine, for every input: what notes say of loops, computed jumps and block moves, and how they are read; the ways
//! on from each instruction of an image, what a pass through a routine is, what a certificate has to keep to, and the check of one. The
//! law that each pass keeps to the bound that a certificate shows stands here too.
//! It stands on the machine (`kc_machine_spec`), on decoding (`kc_code`), on the plans of instructions (`kc_exec`), and for the words of
//! notes on `kc_addresses`. `ways` of `JE 210AH` at 2103H gives 4 states on to 2105H and 8 on to 210AH; `checked` of a certificate whose
//! potential at 2100H is too small gives `None`; the note `loop 210E 3` says that 210EH begins at most 3 times in a pass.
#![tactic(auto)]

mod certificate;
mod checking;
mod instruction_ways;
mod laws;
mod looking;
mod notes;
mod reading;
mod way;

pub use certificate::{Bound, Certificate, Standing};
pub use checking::checked;
pub use instruction_ways::ways;
pub use laws::{
    certified_is_bounded, found_is_decoded, notes_stand_by_address, states_are_most,
    states_are_some, turn_is_paid,
};
pub use looking::{found_at, is_end};
pub use notes::{Goes, Loop, Moved, Notes};
pub use reading::{NotesFault, address};
pub use way::Way;
