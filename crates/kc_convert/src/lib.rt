//! Two further units of the board: the converter of the analogue inputs, whose values over time a file gives, and the three
//! pulse-width outputs.
//! It stands on what a further unit is (`kc_extra`).
//! With the file `@0 2 777`, a start of channel 2 ends 80 states later, with 42H in the low byte of the result and C2H in the
//! high one, since 777 is 309H. PWM0 of width 4 is high in the first four states of each 256.
#![tactic(auto)]

mod analog;
mod converter;
mod fault;
mod fields;
mod index;
mod laws;
mod lines;
mod pulses;
mod sample;

pub use analog::Analog;
pub use converter::Converter;
pub use fault::AnalogFault;
pub use laws::{ends_are_known, files_give_values, pulses_are_by_widths, results_are_converted};
pub use pulses::{Output, Pulses};
pub use sample::{CHANNEL_COUNT, Sample};
