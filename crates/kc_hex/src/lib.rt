//! Images as Intel hex: written in one spelling, and read from any text of records or to its first fault.
//! It stands on `kc_base` alone.
//! `read` of the lines `:01208000FD62` and `:00000001FF` gives the image with FDH at 2080H and FFH elsewhere; with the checksum
//! 63 the first fault is in line 1, of code 2.
#![tactic(auto)]

pub mod fault;
pub mod reading;
pub mod round_trip;
pub mod writing;

pub use fault::{HexCode, HexFault};
pub use reading::read;
pub use round_trip::written_is_read;
pub use writing::write;
