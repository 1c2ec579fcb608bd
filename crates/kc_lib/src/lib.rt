//! Libraries: modules packed into one file, read again, and taken from where they resolve a name.
//! It stands on object files (`kc_obj`).
//! A library of two modules begins with `4B 4C 01 02`. Of the modules that give `F` and `G`, `take` for a module with `EXTRN F`
//! gives a copy of the first alone.
#![tactic(auto)]

mod copying;
mod faults;
mod givers;
pub mod laws;
mod library;
mod packing;
mod reading;
mod taking;

pub use faults::{LibCode, LibFault};
pub use library::Library;
pub use packing::pack;
