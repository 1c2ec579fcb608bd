// The pins of the board: what they are called, and what holds of each.
ghost use Rattle.std.specs.Prelude.{◌≡◌, ◌≤◌, length, map};
ghost use Rattle.kc_base.specs.Pins.{pin_name, pin_names, pin_count, pin_facts, IsPin, facts_of as facts_at, is_input as takes_input, may_be_wired as takes_wire, starts_high as is_high_first, is_printed as shows_edges, ConstantsAreNamed};

use crate::types::Pin;

/// How many pins have a name.
pub const PIN_COUNT: u8 = 41;

// What holds of a pin: it takes its level from outside, by stimuli; or by a wire too; it is high before state 0; a
// trace has its edges.
#[derive(Clone, Copy)]
pub(crate) struct Facts {
    pub(crate) input: bool,
    pub(crate) wirable: bool,
    pub(crate) starts_high: bool,
    pub(crate) printed: bool,
}

const NO_FACTS: Facts = Facts {
    input: false,
    wirable: false,
    starts_high: false,
    printed: false,
};

// The name of a pin, and what holds of it. A tuple, since definitions read the table.
type Row = (&'static str, Facts);

macro_rules! pin {
    ($name:literal $(, $fact:ident)*) => {
        ($name, Facts { $($fact: true,)* ..NO_FACTS })
    };
}

// A line for each pin, in the order of the numbers (80C196KC User's Manual, "Pin Descriptions", "I/O Ports"; which inputs may be
// wired, which of them are high where nothing drives them, and which pins are printed is this kit's own).
static PINS: [Row; PIN_COUNT as usize] = [
    pin!("HSO0", printed),
    pin!("HSO1", printed),
    pin!("HSO2", printed),
    pin!("HSO3", printed),
    pin!("HSO4", printed),
    pin!("HSO5", printed),
    pin!("P10", input, starts_high, printed),
    pin!("P11", input, starts_high, printed),
    pin!("P12", input, starts_high, printed),
    pin!("P13", input, starts_high, printed),
    pin!("P14", input, starts_high, printed),
    pin!("P15", input, starts_high, printed),
    pin!("P16", input, starts_high, printed),
    pin!("P17", input, starts_high, printed),
    pin!("P20", starts_high, printed),
    pin!("P25", starts_high, printed),
    pin!("P26", starts_high, printed),
    pin!("P27", starts_high, printed),
    pin!("HSI0", input, wirable),
    pin!("HSI1", input, wirable),
    pin!("HSI2", input, wirable),
    pin!("HSI3", input, wirable),
    pin!("T2CLK", input, wirable),
    pin!("T2RST", input),
    pin!("EXTINT", input, wirable),
    pin!("NMI", input),
    pin!("T2UD", input, starts_high),
    pin!("T2CAP", input, starts_high),
    pin!("P00", input),
    pin!("P01", input),
    pin!("P02", input),
    pin!("P03", input),
    pin!("P04", input),
    pin!("P05", input),
    pin!("P06", input),
    pin!("P07", input),
    pin!("TXD", starts_high, printed),
    pin!("RXD", input, starts_high),
    pin!("PWM0", printed),
    pin!("PWM1", printed),
    pin!("PWM2", printed),
];

// The table.
fn rows() -> &'static [Row]
    ensures names { map (λ row. row.0.now) result.now ≡ pin_names }
    ensures facts { map (λ row. row.1) result.now ≡ pin_facts }
    ensures len { length result.now ≡ pin_count }
{
    &PINS
}

// What holds of a pin; nothing of a number without a name.
fn facts_of(pin: Pin) -> Facts
    ensures { result ≡ facts_at pin.0 }
{
    match rows().get(pin.0 as usize) {
        Some(row) => row.1,
        None => NO_FACTS,
    }
}

impl Pin {
    pub const HSI0: Pin = Pin(18);

    pub const HSI1: Pin = Pin(19);

    pub const HSI2: Pin = Pin(20);

    pub const HSI3: Pin = Pin(21);

    pub const T2CLK: Pin = Pin(22);

    pub const T2RST: Pin = Pin(23);

    pub const EXTINT: Pin = Pin(24);

    pub const NMI: Pin = Pin(25);

    pub const T2UD: Pin = Pin(26);

    pub const T2CAP: Pin = Pin(27);

    pub const P07: Pin = Pin(35);

    pub const TXD: Pin = Pin(36);

    pub const RXD: Pin = Pin(37);

    pub const PWM0: Pin = Pin(38);

    pub const PWM1: Pin = Pin(39);

    pub const PWM2: Pin = Pin(40);

    /// The name of the pin, as stimuli and traces spell it.
    pub fn name(self) -> &'static str
        requires { IsPin self.0 }
        ensures name { result.now ≡ pin_name self.0 }
        ensures short { length result.now ≤ 6 }
    {
        rows()[self.0 as usize].0
    }

    /// Whether it is an input, which takes its level from outside.
    pub fn is_input(self) -> bool
        ensures { result ≡ takes_input self.0 }
    {
        facts_of(self).input
    }

    /// Whether a wire from an output may drive it.
    pub fn may_be_wired(self) -> bool
        ensures { result ≡ takes_wire self.0 }
    {
        facts_of(self).wirable
    }

    /// Whether it is high before state 0, where nothing drives it.
    pub fn starts_high(self) -> bool
        ensures { result ≡ is_high_first self.0 }
    {
        facts_of(self).starts_high
    }

    /// Whether a trace has its edges.
    pub fn is_printed(self) -> bool
        ensures { result ≡ shows_edges self.0 }
    {
        facts_of(self).printed
    }
}

/// The constants are the pins of their names.
pub fn constants_are_named()
    ensures { ConstantsAreNamed }
{}
