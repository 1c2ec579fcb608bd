//! Tests of the units of the board, each over the public calls of its crate, and of what no program shows of instructions, over
//! the bus without units too. Tests of addresses as authors write them, of notes, and of the bounds of routines. Two further units,
//! made for tests, and what boards do that have them, alone and in a `Pair`.
//! It stands on the crates of the processor and of the board; nothing stands on it. The expected values come from outside the
//! program.
//! A row of `watchdog.rt`: the writes `(0x1E, 4)` and `(0xE1, 9)`, each a value with its state, give the deadline `65_545`.
//! In `ROW_OF_TWO` both further units end in state 999: `P 999 HSO1 1`, `P 999 HSO2 1`.
#![tactic(auto)]

#[cfg(test)]
mod addresses;
mod beacon;
#[cfg(test)]
mod blocks;
#[cfg(test)]
mod bounds;
#[cfg(test)]
mod bus;
#[cfg(test)]
mod convert;
#[cfg(test)]
mod damage;
#[cfg(test)]
mod due;
#[cfg(test)]
mod extra;
#[cfg(test)]
mod hsi;
#[cfg(test)]
mod hso;
#[cfg(test)]
mod instructions;
#[cfg(test)]
mod intc;
#[cfg(test)]
mod latency;
#[cfg(test)]
mod machines;
mod metronome;
#[cfg(test)]
mod notes;
#[cfg(test)]
mod requests;
#[cfg(test)]
mod rows;
#[cfg(test)]
mod serial;
#[cfg(test)]
mod timers;
#[cfg(test)]
mod watchdog;

pub use beacon::Beacon;
pub use metronome::Metronome;
