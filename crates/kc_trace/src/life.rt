ghost use Rattle.std.specs.Prelude.{◌≡◌};
ghost use Rattle.kc_trace.specs.Signals.{same_signal, is_signal, start_level as level_at_start};

use kc_base::{Level, Pin, StateTime};

/// What has a level that is seen: a pin that the board prints, or what comes to a pin from outside. P10 to P17 are both.
#[derive(Clone, Copy)]
pub enum Signal {
    Output(Pin),
    Input(Pin),
}

impl Signal {
    /// Whether both are the same signal.
    pub fn is(self, other: Signal) -> bool
        ensures { result ≡ same_signal self other }
    {
        match (self, other) {
            (Signal::Output(a), Signal::Output(b)) => a.0 == b.0,
            (Signal::Input(a), Signal::Input(b)) => a.0 == b.0,
            _ => false,
        }
    }

    /// Whether the board has it: prints this pin, or takes its level from outside.
    pub fn is_known(self) -> bool
        ensures { result ≡ is_signal self }
    {
        match self {
            Signal::Output(pin) => pin.is_printed(),
            Signal::Input(pin) => pin.is_input(),
        }
    }

    /// Its level before state 0 of the first life.
    pub fn start_level(self) -> Level
        ensures { result ≡ level_at_start self }
    {
        match self {
            Signal::Output(pin) => Level::of(pin.is_printed() && pin.starts_high()),
            Signal::Input(pin) => Level::of(pin.is_input() && pin.starts_high()),
        }
    }
}

/// What happens in a state.
#[derive(Clone, Copy)]
pub enum What {
    /// A signal takes another level.
    Edge(Signal, Level),
    /// The interrupt of a vector is entered.
    Entry(u8),
    /// The transfer server serves the request of a vector.
    Transfer(u8),
    /// An undefined use, which ends the run.
    Undefined,
    /// The chip is reset by its program.
    Reset,
    /// The watchdog resets the chip.
    Watchdog,
    /// The chip is powered down.
    Powerdown,
}

/// Something that happens, with its state.
#[derive(Clone, Copy)]
pub struct Event {
    pub at: StateTime,
    pub what: What,
}
