// The machine of a board with its further units.
ghost use Rattle.std.specs.Prelude.{◌≡◌, ◌≤◌, ℕ, bit_xor, IfOk};
ghost use Rattle.kc_base.specs.Limits.{max_states};
ghost use Rattle.kc_block_spec.specs.Levels.{stimulated_before};
ghost use Rattle.kc_kit_running.specs.Fitted.{units_at, fitted_agrees, rxd_before};
ghost use Rattle.kc_kit_running.specs.Running.{machine_of};

use crate::board::Board;
use kc_base::{Level, NoMemory, Pin, StateTime};
use kc_block_units::{has_pin, start_levels};
use kc_convert::{Analog, Converter, Pulses};
use kc_extra::Pair;
use kc_kit_inputs::Driving;
use kc_machine::Machine;
use kc_serial::Serial;
use kc_stim::Stimuli;
use std::alloc::Global;

/// The further units that are fitted to the board.
pub(crate) type FittedUnit = Pair<Serial, Pair<Converter, Pulses>>;

/// The level of RXD before state 0.
fn rxd_level(stimuli: &Stimuli) -> Level
    ensures { result ≡ rxd_before stimuli.now }
{
    Level::of(has_pin(start_levels(stimuli), Pin::RXD.0))
}

/// The units before the first state of a run, where these drive the inputs: the pins from their state 0 on, the analogue
/// inputs from state `from` on.
pub(crate) fn fitted_unit(stimuli: &Stimuli, values: Analog, from: StateTime) -> FittedUnit
    requires { from ≤ max_states }
    ensures unit { result ≡ units_at stimuli.now values from }
    ensures agrees { (edges : ℕ) → fitted_agrees edges (bit_xor (stimulated_before stimuli.now 0) edges) result }
{
    let analog = Pair::of(Converter::new(values, from), Pulses::new());
    Pair::of(Serial::new(rxd_level(stimuli)), analog)
}

/// The machine of a board before its first state.
pub(crate) fn fitted_machine(alloc: Global, board: Board) -> Result<Machine<FittedUnit>, NoMemory>
    ensures { IfOk result (λ machine. machine.machine ≡ machine_of board.driving board.image) }
{
    let Board { image, driving } = board;
    let Driving { stimuli, values } = driving;
    let unit = fitted_unit(&stimuli, values, 0);
    Machine::new(alloc, image, stimuli, unit)
}
