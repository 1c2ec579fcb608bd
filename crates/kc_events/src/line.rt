use kc_base::StateTime;
use kc_trace::Record;

/// A line of a trace.
#[derive(Clone, Copy)]
pub enum Line {
    /// What is printed in a life, or at the end of the run.
    Printed(Record),
    /// The end of a life that another one follows: its last state, and whether the watchdog has reset the chip.
    Restarted { at: StateTime, by_watchdog: bool },
}
