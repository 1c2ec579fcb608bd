// What drives the inputs from a state on.
ghost use Rattle.std.specs.Prelude.{◌≡◌, ℕ, IfOk, filter, nat_le};
ghost use Rattle.std.specs.List.Sorted.{IsNonDecreasing, IsNonDecreasingBy};
ghost use Rattle.kc_base.specs.Pins.{pin_count};
ghost use Rattle.kc_stim.specs.Drives.{driven_from, from_on, levels_known, sooner_by as sooner};
ghost use Rattle.kc_stim.specs.Index.{list_of};
ghost use Rattle.kc_stim.specs.Later.{edges_from};
ghost use Rattle.kc_stim.specs.Parts.{drives_in, IsWhole};
ghost use Rattle.kc_stim.specs.Proper.{AreProper};

use crate::index::Index;
use crate::stimulus::Stimulus;
use kc_base::{Level, NoMemory, PIN_COUNT, Pin, StateTime};
use std::alloc::Global;

// A stimulus in states that count from a state on.
fn sooner_by(at: StateTime, stimulus: &Stimulus) -> Stimulus
    ensures { result ≡ sooner at stimulus.now }
{
    Stimulus {
        at: stimulus.at.saturating_sub(at),
        pin: stimulus.pin,
        level: stimulus.level,
    }
}

// The stimuli at or after a state. The first is found by search, so those that are over cost nothing.
fn not_over(stimuli: &[Stimulus], at: StateTime) -> &[Stimulus]
    requires { IsNonDecreasingBy (λ s. s.at) stimuli.now }
    ensures { result.now ≡ filter (λ s. nat_le at s.at) stimuli.now }
{
    let first = stimuli.partition_point(|s| s.at < at);
    &stimuli[first..]
}

// The stimuli from a state on.
fn later_stimuli(
    alloc: Global,
    stimuli: &[Stimulus],
    at: StateTime,
) -> Result<Vec<Stimulus>, NoMemory>
    requires { IsNonDecreasingBy (λ s. s.at) stimuli.now }
    ensures { IfOk result (λ later. later.items ≡ from_on at stimuli.now) }
{
    let later = not_over(stimuli, at)
        .iter()
        .map(|s| sooner_by(at, s))
        .collect(alloc)?;
    Ok(later)
}

// The lists of the pins from a state on.
fn later_lists(
    alloc: Global,
    by_pin: &[Vec<Stimulus>],
    at: StateTime,
) -> Result<Vec<Vec<Stimulus>>, NoMemory>
    requires { (pin : ℕ) → IsNonDecreasingBy (λ s. s.at) (list_of by_pin.now pin) }
    ensures { IfOk result (λ later. (pin : ℕ) → list_of later.items pin ≡ from_on at (list_of by_pin.now pin)) }
{
    let mut later = Vec::with_capacity(alloc, by_pin.len())?;
    for own in by_pin {
        later.push(later_stimuli(alloc, own.as_slice(), at)?)?;
    }
    Ok(later)
}

// The states with an edge at or after a state, found in the same way.
fn edges_not_over(edges: &[StateTime], at: StateTime) -> &[StateTime]
    requires { IsNonDecreasing edges.now }
    ensures { result.now ≡ filter (λ e. nat_le at e) edges.now }
{
    let first = edges.partition_point(|edge| *edge < at);
    &edges[first..]
}

// The states with an edge from a state on.
fn later_edges(
    alloc: Global,
    edges: &[StateTime],
    at: StateTime,
) -> Result<Vec<StateTime>, NoMemory>
    requires { IsNonDecreasing edges.now }
    ensures { IfOk result (λ later. later.items ≡ edges_from at edges.now) }
{
    let later = edges_not_over(edges, at)
        .iter()
        .map(|edge| edge.saturating_sub(at))
        .collect(alloc)?;
    Ok(later)
}

// The levels of the pins before a state.
fn levels_before(alloc: Global, index: &Index, at: StateTime) -> Result<Vec<Level>, NoMemory>
    requires { IsWhole index.now }
    ensures { IfOk result (λ levels. levels.items ≡ levels_known (drives_in index.now).stimuli at pin_count) }
{
    let mut levels = Vec::new(alloc);
    for pin in 0..PIN_COUNT {
        levels.push(index.level_before(Pin(pin), at))?;
    }
    Ok(levels)
}

/// What drives the inputs from a state on, which becomes state 0.
pub(crate) fn from_state(alloc: Global, index: &Index, at: StateTime) -> Result<Index, NoMemory>
    requires whole { IsWhole index.now }
    requires proper { AreProper (drives_in index.now) }
    ensures drives { IfOk result (λ later. drives_in later ≡ driven_from at (drives_in index.now)) }
    ensures whole { IfOk result IsWhole }
{
    let mut wires = Vec::new(alloc);
    wires.extend_from_slice(index.wires.as_slice())?;
    Ok(Index {
        wires,
        start: levels_before(alloc, index, at)?,
        stimuli: later_stimuli(alloc, index.stimuli.as_slice(), at)?,
        by_pin: later_lists(alloc, index.by_pin.as_slice(), at)?,
        edges: later_edges(alloc, index.edges.as_slice(), at)?,
    })
}
