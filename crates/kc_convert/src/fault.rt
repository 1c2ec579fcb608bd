use thiserror::Error;

/// Why an analogue file is refused, with the number of its line, counted from 1.
#[derive(Clone, Copy, Debug, PartialEq, Eq, Error)]
pub enum AnalogFault {
    #[error("line {0} is no line of an analogue file")]
    BadLine(u32),
    #[error("memory was wanted and not had")]
    NoMemory,
}
