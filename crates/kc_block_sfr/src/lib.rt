//! Accesses of the special function registers below 0018H, each master's alike: which units an access catches up to the present
//! state, what it does to them, and which it reschedules.
//! It stands on the deferred units and the scheduler (`kc_block_units`), and computes what `kc_block_spec` defines.
//! In window 0, `read16` of 0AH gives Timer 1, which is 1 in state 9, without a call of any unit; `read8` of 0AH gives
//! `Err(Kind::ByteAccess)`.
#![tactic(auto)]

mod acting;
mod holding;
mod keeping_registers;
mod laws;
mod looking;
mod reading;
mod registers;
mod seeing;
mod values;
mod writing;

pub use holding::{hsi_holding, hsi_waiting, hso_due, hso_holding, hso_slots, input_levels};
pub use laws::{
    plain_bus_has_the_masks_of_the_table, standing_units_report_what_is_shown,
    what_is_left_is_scheduled,
};
pub use looking::look;
pub use reading::{read8, read16};
pub use writing::{write8, write16};
