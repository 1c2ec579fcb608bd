//! The serial port of the board, a further unit: bytes are sent on TXD and received from RXD, each as a start bit, eight bits and
//! a stop bit. Laws say the same of whole histories: all frames, receptions, requests and answers, by what was written and read
//! and by the levels of RXD.
//! It stands on what a further unit is (`kc_extra`).
//! At the rate 8000H, 55H written to SBUF in state 19 gives `P 20 TXD 0`, `P 28 TXD 1`, `P 36 TXD 0`, and so on each eight
//! states.
#![tactic(auto)]

mod histories;
mod laws;
mod receiving;
mod registers;
mod sending;
mod serial;

pub use histories::{
    bytes_are_last, driven_frames_are_received, ends_are_requested, falls_are_caught,
    frames_are_scheduled, lines_show_frames, receptions_are_one, schedules_are_one,
    status_is_by_history,
};
pub use laws::{frames_are_shown, levels_are_kept, received_bytes_are_samples};
pub use receiving::Reception;
pub use sending::{Frame, Sending};
pub use serial::{Flags, Serial};
