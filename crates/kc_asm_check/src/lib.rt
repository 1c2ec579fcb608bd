//! The first fault of the values and places of a module's statements, by line and then by code; or what the statements put
//! where they stand. It stands on `kc_asm_layout` and `kc_asm_symbols`. Example: `LDB 1CH,#300` is refused by E12, since 300
//! does not fit a byte, and `DCB 1` in DSEG by E18.
#![tactic(auto)]

mod branches;
mod checked;
mod checking;
mod codes;
mod laws;
mod locations;
mod module;
mod places;
mod putting;
mod relocatable_bytes;
mod walk;

pub use checked::{Checked, Put};
pub use checking::check;
pub use laws::no_fault_no_codes;
pub use locations::{value_at, values_of};
pub use module::stack_after;
