//! Object files: a module, its one spelling as bytes (`encode`), and a file read (`decode`): the module of which the bytes are
//! the spelling, or the first fault.
//! It stands on object modules and on the fields of records (`kc_obj_module`, `kc_obj_fields`).
//! `decode` refuses `01 03 00 02 01 4D 7F 00 00 00` at offset 9 with code 5: a byte stands behind the end record of the module
//! `M`.
#![tactic(auto)]

mod decoding;
pub mod laws;
mod reading;
mod step;

pub use decoding::decode;
pub use kc_obj_fields::faults::ObjFault;
pub use kc_obj_module::{
    Content, Fixup, Given, Lines, Module, SegKind, Segment, Taken, Target, encode,
};
