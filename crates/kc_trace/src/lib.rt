//! The lines of a trace: what is printed as a line, how it is spelled, and how lines are written to a sink; and what happens in
//! a life of a board, from its start to its end: edges of signals, entries, transfers and ends, each in its state, with the level
//! of each signal after each state. It stands on `kc_base` alone.
//! A rise of HSO0 in state 82 is the line `P 82 HSO0 1`; an entry through vector 7 in state 92, with the return address 20A2H, is
//! `I 92 7 20A2`. What happened of the line `P 82 HSO0 1` is
//! `Event { at: 82, what: What::Edge(Signal::Output(Pin(0)), Level::High) }`. TXD, pin 36, starts high, and HSO0 starts low.
#![tactic(auto)]

mod edge_out;
mod laws;
mod levels;
mod life;
mod record;
mod spelling;
mod trace;

pub use kc_base::address_text;
pub use laws::{records_join, texts_join};
pub use levels::Levels;
pub use life::{Event, Signal, What};
pub use record::Record;
pub use spelling::{LineBytes, kind_number, level_digit, line, put_decimal, put_hex, put_text};
pub use trace::{Counts, TraceOut, WriteFault};
