//! The parts that instructions are made of, over any bus: registers in the window, long registers, the operand S, the stack; and
//! numbers and flags of each width.
//! It stands on the bus (`kc_bus`) and on results with their flags (`kc_alu`).
//! With SP at 0300H, `push_word(bus, 0x1234)` leaves SP at 02FEH, 34H at 02FEH and 12H at 02FFH; `pop_word(bus)` then gives
//! `Ok(0x1234)`.
#![tactic(auto)]

mod numbers;
mod operands;
mod parts;
mod status;

pub use numbers::{change, combine, compare_longs, share, shift_number, spread_low, times};
pub use operands::{find_target, read_source};
pub use parts::{
    double_of, pop_word, push_word, read_at, read_long, read_low_half, read_register, read_sized,
    write_at, write_long, write_register, write_sized,
};
pub use status::{follow, pack, set_bit, unpack};
