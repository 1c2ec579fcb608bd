//! Why nothing more is run.

use kc_base::NoMemory;
use std::io;

/// What stood in the way.
#[derive(Clone, Copy)]
pub enum Stopped {
    /// The words name nothing that can be run.
    Words,
    /// The source has a fault.
    Fault,
    /// The source is too long.
    TooLong,
    /// Standard input or output failed.
    Output,
    /// There was no memory, or the modules could not be linked.
    NoMemory,
}

impl Stopped {
    /// The status of the program.
    pub fn status(self) -> u8 {
        match self {
            Stopped::Words => 1,
            Stopped::Fault => 3,
            Stopped::TooLong => 4,
            Stopped::Output => 8,
            Stopped::NoMemory => 9,
        }
    }
}

impl From<NoMemory> for Stopped {
    fn from(_error: NoMemory) -> Stopped {
        Stopped::NoMemory
    }
}

impl From<io::Error> for Stopped {
    fn from(_error: io::Error) -> Stopped {
        Stopped::Output
    }
}
