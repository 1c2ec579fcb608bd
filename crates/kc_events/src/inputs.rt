// The levels of inputs, and their edges, by what drives them.
ghost use Rattle.std.specs.Prelude.{◌≡◌, ◌++◌, ◌==◌, if◌then◌else◌, OnOk};
ghost use Rattle.kc_trace.specs.declared.life.Signal.{Signal};
ghost use Rattle.kc_trace.specs.Signals.{pin_of};
ghost use Rattle.kc_trace.specs.Tables.{level_in};
ghost use Rattle.kc_stim.specs.Drives.{level_before as level_of_before, wire_to};
ghost use Rattle.kc_events.specs.Lives.{input_level, input_before, edge_between, edge_if_input, input_edges, start_by, start_levels as levels_at_start};

use crate::reader::is_same;
use kc_base::{Level, NoMemory, PIN_COUNT, Pin, StateTime};
use kc_stim::Stimuli;
use kc_trace::{Levels, Signal, What};

// The level that the stimuli give a pin in the state before.
fn level_before(stimuli: &Stimuli, pin: Pin, at: StateTime) -> Level
    ensures { result ≡ level_of_before stimuli.now.stimuli pin.0 at }
{
    if at == 0 {
        stimuli.start(pin)
    } else {
        stimuli.level(pin, at - 1)
    }
}

// The level of an input before a state of the run, and in it.
fn input_levels(stimuli: &Stimuli, levels: &Levels, pin: Pin, at: StateTime) -> (Level, Level)
    ensures before { result.0 ≡ input_before stimuli.now (level_in levels.now) at pin.0 (wire_to stimuli.now.wires pin.0) }
    ensures level { result.1 ≡ input_level stimuli.now (level_in levels.now) at pin.0 (wire_to stimuli.now.wires pin.0) }
{
    match stimuli.wire(pin) {
        Some(output) => (
            levels.level(Signal::Input(pin)),
            levels.level(Signal::Output(Pin(output))),
        ),
        None => (level_before(stimuli, pin, at), stimuli.level(pin, at)),
    }
}

// Puts the edge of an input between two levels, where they differ.
fn put_between(whats: &mut Vec<What>, pin: Pin, before: Level, level: Level) -> Result<(), NoMemory>
    ensures { OnOk result (whats.new.items ≡ whats.old.items ++ edge_between pin.0 before level) }
{
    if !is_same(before, level) {
        whats.push(What::Edge(Signal::Input(pin), level))?;
    }
    Ok(())
}

// Puts the edge of a pin in a state of the run, where it is an input that has one.
fn put_edge(
    whats: &mut Vec<What>,
    stimuli: &Stimuli,
    levels: &Levels,
    pin: Pin,
    at: StateTime,
) -> Result<(), NoMemory>
    ensures { OnOk result (whats.new.items ≡ whats.old.items ++ edge_if_input stimuli.now (level_in levels.now) at pin.0) }
{
    if !kc_stim::is_input(pin.0) {
        return Ok(());
    }
    let (before, level) = input_levels(stimuli, levels, pin, at);
    put_between(whats, pin, before, level)
}

/// Puts the edges of all inputs in a state of the run, by the levels at the end of the state before it.
pub(crate) fn put_edges(
    whats: &mut Vec<What>,
    stimuli: &Stimuli,
    levels: &Levels,
    at: StateTime,
) -> Result<(), NoMemory>
    ensures { OnOk result (whats.new.items ≡ whats.old.items ++ input_edges stimuli.now (level_in levels.now) at) }
{
    for pin in 0..PIN_COUNT {
        put_edge(whats, stimuli, levels, Pin(pin), at)?;
    }
    Ok(())
}

// The level of an input before state 0 of a life that begins in a state of the run.
fn start_level(stimuli: &Stimuli, pin: Pin, base: StateTime) -> Level
    ensures { result ≡ start_by stimuli.now base pin.0 (wire_to stimuli.now.wires pin.0) }
{
    match stimuli.wire(pin) {
        Some(_) => Level::Low,
        None => level_before(stimuli, pin, base),
    }
}

// Gives both signals of a pin their levels before state 0 of a life that begins in a state of the run.
fn set_start(levels: &mut Levels, stimuli: &Stimuli, pin: Pin, base: StateTime)
    ensures { (signal : Signal) → level_in levels.new signal ≡ (if pin_of signal == pin.0 then levels_at_start stimuli.now base signal else level_in levels.old signal) }
{
    let output = Signal::Output(pin);
    let input = Signal::Input(pin);
    levels.set(output, output.start_level());
    if input.is_known() {
        levels.set(input, start_level(stimuli, pin, base));
    } else {
        levels.set(input, Level::Low);
    }
}

/// The levels before state 0 of a life that begins in a state of the run.
pub fn start_levels(stimuli: &Stimuli, base: StateTime) -> Levels
    ensures { level_in result ≡ levels_at_start stimuli.now base }
{
    let mut levels = Levels::low();
    for pin in 0..PIN_COUNT {
        set_start(&mut levels, stimuli, Pin(pin), base);
    }
    levels
}
