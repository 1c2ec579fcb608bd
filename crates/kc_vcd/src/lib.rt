//! A run as a value change dump, which shows the pins of a board, its inputs and what happens over time in a viewer of waveforms.
//! It stands on the lives of a run (`kc_events`), and reads no trace itself.
//! `P 82 HSO0 1` at an oscillator of 16 MHz becomes the time `#10250000`, in picoseconds, and `1A`, where `A` is the wire HSO0.
#![tactic(auto)]

mod change;
mod dumping;
mod laws;
mod shown;
mod variable;
mod writing;

pub use dumping::dump_run;
pub use laws::{dumps_show_changes, dumps_show_events, dumps_show_levels, dumps_show_values};
