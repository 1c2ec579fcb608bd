// What a dump shows of a run.
ghost use Rattle.std.specs.Prelude.{◌≡◌, ◌≤◌, ◌++◌, ◌∷◌, [], All, IfOk, OnOk};
ghost use Rattle.kc_trace.specs.Tables.{level_in};
ghost use Rattle.kc_base.specs.Pins.{pin_count};
ghost use Rattle.kc_base.specs.Limits.{entry_count, transfer_count};
ghost use Rattle.kc_convert.specs.Samples.{channel_count};
ghost use Rattle.kc_vcd.specs.Variables.{output_at, outputs, input_at, inputs, channel_at, channels, entries, transfers, variables_of, has_value as value_stands, IsVariable};
ghost use Rattle.kc_vcd.specs.Writing.{shown_in};
ghost use Rattle.kc_vcd.specs.Dump.{state_length as picoseconds, shown_of, prefix as prefix_text, declarations, start_line, start_lines};

use crate::variable::Variable;
use crate::writing::{put_declaration, put_level, put_value};
use kc_base::{ENTRY_COUNT, NoMemory, PIN_COUNT, Pin, TRANSFER_COUNT};
use kc_convert::{Analog, CHANNEL_COUNT, Sample};
use kc_events::start_levels;
use kc_stim::Stimuli;
use kc_trace::{Levels, Signal};
use std::alloc::Global;
use std::marker::Model;

const HEAD: &[u8] = b"$timescale 1 ps $end
$scope module board $end
";

const HEAD_END: &[u8] = b"$upscope $end
$enddefinitions $end
#0
$dumpvars
";

/// What a dump shows: its variables, the levels before state 0, the values of the analogue inputs, and how many picoseconds a state
/// time has.
#[derive(Drop)]
pub(crate) struct Shown {
    pub variables: Vec<Variable>,
    pub start: Levels,
    pub values: Analog,
    pub length: u64,
}

impl Model for Shown {
    ghost use Rattle.std.specs.Prelude.{◌≤◌, All};
    ghost use Rattle.kc_vcd.specs.Variables.{IsVariable};
    ghost use Rattle.kc_vcd.specs.Writing.{Kept};

    ghost Value = { Kept };

    ghost view = { λ s. record { variables = s.variables.items; start = s.start; samples = s.values; length = s.length } };

    ghost invariant = { λ s. All IsVariable s.variables.items × (s.length ≤ 2000000000000) };
}

fn push(variables: &mut Vec<Variable>, variable: Variable) -> Result<(), NoMemory>
    ensures { OnOk result (variables.new.items ≡ variables.old.items ++ variable ∷ []) }
{
    variables.push(variable)?;
    Ok(())
}

// A pin, where it is printed.
fn push_output(variables: &mut Vec<Variable>, pin: u8) -> Result<(), NoMemory>
    ensures { OnOk result (variables.new.items ≡ variables.old.items ++ output_at pin) }
{
    if !Pin(pin).is_printed() {
        return Ok(());
    }
    push(variables, Variable::Wire(Signal::Output(Pin(pin))))
}

// The pins that are printed.
fn push_outputs(variables: &mut Vec<Variable>) -> Result<(), NoMemory>
    ensures { OnOk result (variables.new.items ≡ variables.old.items ++ outputs pin_count) }
{
    for pin in 0..PIN_COUNT {
        push_output(variables, pin)?;
    }
    Ok(())
}

// An input, where it is driven.
fn push_input(variables: &mut Vec<Variable>, stimuli: &Stimuli, pin: u8) -> Result<(), NoMemory>
    ensures { OnOk result (variables.new.items ≡ variables.old.items ++ input_at stimuli.now pin) }
{
    if !Pin(pin).is_input() || !stimuli.is_driven(Pin(pin)) {
        return Ok(());
    }
    push(variables, Variable::Wire(Signal::Input(Pin(pin))))
}

// The inputs that are driven.
fn push_inputs(variables: &mut Vec<Variable>, stimuli: &Stimuli) -> Result<(), NoMemory>
    ensures { OnOk result (variables.new.items ≡ variables.old.items ++ inputs stimuli.now pin_count) }
{
    for pin in 0..PIN_COUNT {
        push_input(variables, stimuli, pin)?;
    }
    Ok(())
}

// Whether a channel has a value.
fn has_value(samples: &[Sample], channel: u8) -> bool
    ensures { result ≡ value_stands samples.now channel }
{
    samples.iter().any(|s| s.channel == channel)
}

// An analogue input, where it has values.
fn push_channel(
    variables: &mut Vec<Variable>,
    samples: &[Sample],
    channel: u8,
) -> Result<(), NoMemory>
    ensures { OnOk result (variables.new.items ≡ variables.old.items ++ channel_at samples.now channel) }
{
    if !has_value(samples, channel) {
        return Ok(());
    }
    push(variables, Variable::Analog(channel))
}

// The analogue inputs that have values.
fn push_channels(variables: &mut Vec<Variable>, samples: &[Sample]) -> Result<(), NoMemory>
    ensures { OnOk result (variables.new.items ≡ variables.old.items ++ channels samples.now channel_count) }
{
    for channel in 0..CHANNEL_COUNT {
        push_channel(variables, samples, channel)?;
    }
    Ok(())
}

// The requests that the processor may enter.
fn push_entries(variables: &mut Vec<Variable>) -> Result<(), NoMemory>
    ensures { OnOk result (variables.new.items ≡ variables.old.items ++ entries entry_count) }
{
    for number in 0..ENTRY_COUNT {
        push(variables, Variable::Entry(number))?;
    }
    Ok(())
}

// Those that the transfer server may serve.
fn push_transfers(variables: &mut Vec<Variable>) -> Result<(), NoMemory>
    ensures { OnOk result (variables.new.items ≡ variables.old.items ++ transfers transfer_count) }
{
    for number in 0..TRANSFER_COUNT {
        push(variables, Variable::Transfer(number))?;
    }
    Ok(())
}

fn variables_in(
    alloc: Global,
    stimuli: &Stimuli,
    samples: &[Sample],
) -> Result<Vec<Variable>, NoMemory>
    ensures variables { IfOk result (λ variables. variables.items ≡ variables_of stimuli.now samples.now) }
    ensures known { IfOk result (λ variables. All IsVariable variables.items) }
{
    let mut variables = Vec::new(alloc);
    push_outputs(&mut variables)?;
    push_inputs(&mut variables, stimuli)?;
    push_channels(&mut variables, samples)?;
    push_entries(&mut variables)?;
    push_transfers(&mut variables)?;
    push(&mut variables, Variable::Undefined)?;
    push(&mut variables, Variable::Life)?;
    Ok(variables)
}

// How many picoseconds a state time has: two periods of an oscillator, rounded down.
fn state_length(clock: u32) -> u64
    requires { 1 ≤ clock }
    ensures value { result ≡ picoseconds clock }
    ensures bounded { result ≤ 2000000000000 }
{
    2_000_000_000_000 / u64::from(clock)
}

// The level or the value of a variable before state 0, where it has one.
fn put_start(text: &mut Vec<u8>, variable: Variable, start: &Levels) -> Result<(), NoMemory>
    ensures { OnOk result (text.new.items ≡ text.old.items ++ start_line (level_in start.now) variable) }
{
    match variable {
        Variable::Wire(signal) => put_level(text, signal, start.level(signal)),
        Variable::Analog(channel) => put_value(text, channel, 0),
        _ => Ok(()),
    }
}

// Declares variables.
#[tactic(auto, using(crate::proofs::Pieces::known_rest), unfolding(crate::specs::Dump::declarations))]
fn put_declarations(text: &mut Vec<u8>, variables: &[Variable]) -> Result<(), NoMemory>
    requires { All IsVariable variables.now }
    ensures { OnOk result (text.new.items ≡ text.old.items ++ declarations variables.now) }
{
    let mut left = variables;
    while let [variable, rest @ ..] = left {
        put_declaration(text, *variable)?;
        left = rest;
    }
    Ok(())
}

// The levels and values of variables before state 0.
#[tactic(auto, unfolding(crate::specs::Dump::start_lines))]
fn put_starts(text: &mut Vec<u8>, variables: &[Variable], start: &Levels) -> Result<(), NoMemory>
    ensures { OnOk result (text.new.items ≡ text.old.items ++ start_lines (level_in start.now) variables.now) }
{
    let mut left = variables;
    while let [variable, rest @ ..] = left {
        put_start(text, *variable, start)?;
        left = rest;
    }
    Ok(())
}

impl Shown {
    /// What a dump shows of a run whose inputs these stimuli and values drive, of a board whose oscillator has so many hertz.
    pub(crate) fn new(
        alloc: Global,
        clock: u32,
        stimuli: &Stimuli,
        values: Analog,
    ) -> Result<Shown, NoMemory>
        requires { 1 ≤ clock }
        ensures { IfOk result (λ shown. shown_in shown ≡ shown_of clock stimuli.now values) }
    {
        Ok(Shown {
            variables: variables_in(alloc, stimuli, values.samples())?,
            start: start_levels(stimuli, 0),
            values,
            length: state_length(clock),
        })
    }

    /// Puts the declarations, and the levels before state 0.
    pub(crate) fn put_prefix(&self, text: &mut Vec<u8>) -> Result<(), NoMemory>
        ensures { OnOk result (text.new.items ≡ text.old.items ++ prefix_text (shown_in self.now)) }
    {
        text.extend_from_slice(HEAD)?;
        put_declarations(text, self.variables.as_slice())?;
        text.extend_from_slice(HEAD_END)?;
        put_starts(text, self.variables.as_slice(), &self.start)?;
        text.extend_from_slice(b"$end\n")?;
        Ok(())
    }
}
