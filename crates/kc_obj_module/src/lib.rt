//! Object modules: their parts, the rules that a module keeps, its one spelling as bytes, and the numbers that relocations put
//! into bytes (80C196KC User's Manual, "Jump and Call Instructions").
//! It stands on `kc_base`, and knows neither sources nor the linker.
//! `encode` of the module `NONAME` begins with the record `01 08 00 02 06 4E 4F 4E 41 4D 45`: type 1, 8 bytes, version 2, a name
//! of 6 characters. A relocation of kind 4 from 2083H to 2100H puts 007DH.
#![tactic(auto)]

pub mod contents;
pub mod fixups;
pub mod line_entries;
mod module;
pub mod names;
mod parts;
pub mod pieces;
mod relocation;
mod rules;
mod widths;
mod writing;

pub use module::Module;
pub use parts::{Content, Fixup, Given, Lines, SegKind, Segment, Taken, Target};
pub use relocation::{distance, first_part, fits, is_distance, number, reach, second_part, width};
pub use writing::encode;
