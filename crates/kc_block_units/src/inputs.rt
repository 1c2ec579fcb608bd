// The levels of the inputs, from stimuli and from wires.
ghost use Rattle.std.specs.Prelude.{◌≡◌, ℕ, ◌<◌, ◌&&◌, bit_or, is_some};
ghost use Rattle.kc_base.specs.Levels.{is_high};
ghost use Rattle.kc_stim.specs.Drives.{level_at, start_of, wire_to};
ghost use Rattle.kc_stim.specs.Proper.{AreProper, is_driven as driven};
ghost use Rattle.kc_block_spec.specs.Levels.{follows as follows_output, stimulated as stimulated_at, stimulated_before, wired as wired_from};
ghost use Rattle.kc_block_spec.specs.Looking.{wired_inputs as inputs_with_wires};

use crate::masks::with_pin;
use kc_base::{PIN_COUNT, Pin, StateTime, bit};
use kc_stim::{Stimuli, is_input};

/// The first input that may be wired, and the one after the last.
const FIRST_WIRED: u8 = Pin::HSI0.0;

const AFTER_WIRED: u8 = Pin::EXTINT.0 + 1;

/// Whether stimuli drive an input: it has no wire.
fn is_driven(stimuli: &Stimuli, pin: u8) -> bool
    ensures { result ≡ driven stimuli.now pin }
{
    is_input(pin) && stimuli.wire(Pin(pin)).is_none()
}

fn is_stimulated(stimuli: &Stimuli, pin: u8, at: StateTime) -> bool
    ensures { result ≡ (driven stimuli.now pin && is_high (level_at stimuli.now.stimuli pin at)) }
{
    is_driven(stimuli, pin) && stimuli.level(Pin(pin), at).is_high()
}

/// The inputs without a wire that are high in state `at`.
pub fn stimulated(stimuli: &Stimuli, at: StateTime) -> u64
    ensures { result ≡ stimulated_at stimuli.now at }
{
    let mut mask = 0;
    for pin in 0..PIN_COUNT {
        mask = with_pin(mask, pin, is_stimulated(stimuli, pin, at));
    }
    mask
}

fn starts_driven_high(stimuli: &Stimuli, pin: u8) -> bool
    ensures { result ≡ (driven stimuli.now pin && is_high (start_of stimuli.now.stimuli.start pin)) }
{
    is_driven(stimuli, pin) && stimuli.start(Pin(pin)).is_high()
}

/// The inputs without a wire that are high before state 0.
pub fn start_levels(stimuli: &Stimuli) -> u64
    ensures { result ≡ stimulated_before stimuli.now 0 }
{
    let mut mask = 0;
    for pin in 0..PIN_COUNT {
        mask = with_pin(mask, pin, starts_driven_high(stimuli, pin));
    }
    mask
}

/// Whether the output that an input is wired to is high.
fn follows(stimuli: &Stimuli, pin: u8, outputs: u8) -> bool
    ensures { result ≡ follows_output (wire_to stimuli.now.wires pin) outputs }
{
    match stimuli.wire(Pin(pin)) {
        Some(output) => bit(outputs, output),
        None => false,
    }
}

/// The inputs whose wires come from high outputs; bit n of `outputs` is output n.
pub fn wired(stimuli: &Stimuli, outputs: u8) -> u64
    requires { AreProper stimuli.now }
    ensures { result ≡ wired_from stimuli.now outputs }
{
    if stimuli.has_no_wire() {
        return 0;
    }
    let mut mask = 0;
    for pin in FIRST_WIRED..AFTER_WIRED {
        mask = with_pin(mask, pin, follows(stimuli, pin, outputs));
    }
    mask
}

fn has_wire(stimuli: &Stimuli, pin: u8) -> bool
    ensures { result ≡ is_some (wire_to stimuli.now.wires pin) }
{
    stimuli.wire(Pin(pin)).is_some()
}

/// The inputs that have a wire.
pub fn wired_inputs(stimuli: &Stimuli) -> u64
    requires { AreProper stimuli.now }
    ensures { result ≡ inputs_with_wires stimuli.now }
{
    if stimuli.has_no_wire() {
        return 0;
    }
    let mut mask = 0;
    for pin in FIRST_WIRED..AFTER_WIRED {
        mask = with_pin(mask, pin, has_wire(stimuli, pin));
    }
    mask
}

/// Of these levels those of the inputs without a wire: what the stimuli gave in the state before, if the others come
/// from some outputs.
pub fn unwired(stimuli: &Stimuli, levels: u64) -> u64
    requires { AreProper stimuli.now }
    ensures { (t outs : ℕ) → levels ≡ bit_or (stimulated_before stimuli.now t) (wired_from stimuli.now outs) →
        result ≡ stimulated_before stimuli.now t }
{
    levels & !wired_inputs(stimuli)
}
