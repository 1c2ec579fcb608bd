//! The common memory as its masters see it: accesses, windows, and `Flat`, a bus without units.
//! It stands on what an access is (`kc_exec_spec`).
//! `window(0x41, 0xE0)` gives `Ok(0x20)`: under WSR 41H the last 32 registers are 20H to 3FH. `window(2, 0x20)` gives
//! `Err(Kind::BadWindow)`. `is_fixed(0x2080)` is true: ROM stands there.
#![tactic(auto)]

mod bus;
mod flat;
mod map;
mod memory;
mod windows;

pub use bus::Bus;
pub use flat::Flat;
pub use kc_exec_spec::{Masks, Master};
pub use map::{is_fixed, is_outside};
pub use memory::{read_byte, read_word, write_byte, write_word};
pub use windows::{is_known, known_masks, window};
