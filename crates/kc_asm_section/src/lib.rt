//! The sections of a module while they are written: relocatable bytes at their offsets, with the lines that they come from;
//! the unlinked module that they make up with its names; and `module_of`, the module of an object file. It stands on
//! `kc_asm_encode` and `kc_obj_module`. Example: the three relocatable bytes of `LCALL F`, of an external F, become three
//! bytes with one relocation at offset 1.
#![tactic(auto)]

mod gather;
mod kept;
mod laws;
mod making;
mod module_laws;
mod part;
mod publics;
mod puts;
mod runs;
mod unlinked;

pub use kept::Kept;
pub use laws::{put_stands, written_stands};
pub use making::module_of;
pub use module_laws::{absolute_alike, few_pieces, numbers_stand, one_module};
pub use part::{Mark, Part, PlacedByte};
pub use unlinked::{Public, UnlinkedModule};
