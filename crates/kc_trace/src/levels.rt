ghost use Rattle.std.specs.Prelude.{◌≡◌, ◌==◌, if◌then◌else◌};
ghost use Rattle.kc_base.specs.declared.types.Level.TheVariants.{Low};
ghost use Rattle.kc_base.specs.Pins.{IsPin};
ghost use Rattle.kc_trace.specs.declared.life.Signal.{Signal};
ghost use Rattle.kc_trace.specs.Signals.{pin_of, same_signal, start_level};
ghost use Rattle.kc_trace.specs.Lives.{moved_by, level_after};
ghost use Rattle.kc_trace.specs.Tables.{level_in};

use crate::life::{Signal, What};
use kc_base::{Level, PIN_COUNT, Pin};

/// The level of each signal; there is a place for each number that a pin may have.
#[derive(Clone, Copy)]
pub struct Levels {
    outputs: [Level; 256],
    inputs: [Level; 256],
}

impl Levels {
    /// All levels low.
    pub fn low() -> Levels
        ensures { (signal : Signal) → level_in result signal ≡ Low }
    {
        Levels {
            outputs: [Level::Low; 256],
            inputs: [Level::Low; 256],
        }
    }

    // Gives both signals of a pin their levels before state 0 of the first life.
    fn set_start(&mut self, pin: Pin)
        ensures { (signal : Signal) → level_in self.new signal ≡ (if pin_of signal == pin.0 then start_level signal else level_in self.old signal) }
    {
        self.set(Signal::Output(pin), Signal::Output(pin).start_level());
        self.set(Signal::Input(pin), Signal::Input(pin).start_level());
    }

    /// The levels of all pins before state 0 of the first life.
    pub fn start() -> Levels
        ensures { (signal : Signal) → IsPin (pin_of signal) → level_in result signal ≡ start_level signal }
    {
        let mut levels = Levels::low();
        for pin in 0..PIN_COUNT {
            levels.set_start(Pin(pin));
        }
        levels
    }

    /// The level of a signal.
    pub fn level(&self, signal: Signal) -> Level
        ensures { result ≡ level_in self.now signal }
    {
        match signal {
            Signal::Output(pin) => self.outputs[pin.0 as usize],
            Signal::Input(pin) => self.inputs[pin.0 as usize],
        }
    }

    /// Gives a signal a level.
    pub fn set(&mut self, signal: Signal, level: Level)
        ensures { (other : Signal) → level_in self.new other ≡ (if same_signal other signal then level else level_in self.old other) }
    {
        match signal {
            Signal::Output(pin) => self.outputs[pin.0 as usize] = level,
            Signal::Input(pin) => self.inputs[pin.0 as usize] = level,
        }
    }

    /// Takes what happens.
    pub fn take(&mut self, what: What)
        ensures { (signal : Signal) → level_in self.new signal ≡ moved_by signal (level_in self.old signal) what }
    {
        if let What::Edge(signal, level) = what {
            self.set(signal, level);
        }
    }

    /// Takes what happens in a state, in its order.
    pub fn take_all(&mut self, whats: &[What])
        ensures { (signal : Signal) → level_in self.new signal ≡ level_after signal (level_in self.old signal) whats.now }
    {
        for what in whats {
            self.take(*what);
        }
    }
}
