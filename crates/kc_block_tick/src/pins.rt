// Which edges reach Timer 2 and HSI.
ghost use Rattle.std.specs.Prelude.{◌≡◌, ◌<◌};
ghost use Rattle.kc_block_spec.specs.Control.{timer2_inputs as inputs_of, hsi_enabled as hsi_enabled_by};
ghost use Rattle.kc_block_units.specs.Events.{has_timer2_edge as timer2_edge_in, has_hsi_edge as hsi_edge_in};

use crate::commands::resets;
use kc_base::{Pin, weight};
use kc_block_spec::BoardRegisters;
use kc_block_units::{has_pin, hsi_bits};
use kc_hsi::PinEdges;
use kc_timers::{T2Control, T2Inputs};

/// The levels of the inputs in a state, with their edges: those that rise, and those that fall.
#[derive(Clone, Copy)]
pub(crate) struct Inputs {
    pub levels: u64,
    pub edges: u64,
    pub rise: u64,
    pub fall: u64,
}

/// Whether HSI0, HSI1, T2CLK, T2RST, T2UD or T2CAP has an edge.
pub(crate) fn has_timer2_edge(edges: u64) -> bool
    ensures { result ≡ timer2_edge_in edges }
{
    let hsi = has_pin(edges, Pin::HSI0.0) | has_pin(edges, Pin::HSI1.0);
    let clocks = has_pin(edges, Pin::T2CLK.0) | has_pin(edges, Pin::T2RST.0);
    let others = has_pin(edges, Pin::T2UD.0) | has_pin(edges, Pin::T2CAP.0);
    hsi | (clocks | others)
}

/// Whether HSI0, HSI1, HSI2 or HSI3 has an edge.
pub(crate) fn has_hsi_edge(edges: u64) -> bool
    ensures { result ≡ hsi_edge_in edges }
{
    let low = has_pin(edges, Pin::HSI0.0) | has_pin(edges, Pin::HSI1.0);
    low | (has_pin(edges, Pin::HSI2.0) | has_pin(edges, Pin::HSI3.0))
}

/// What reaches Timer 2: an edge of the chosen clock pin, a rise of the chosen and enabled reset pin or a fired channel 14, a
/// rise of T2CAP.
pub(crate) fn timer2_inputs(control: T2Control, inputs: Inputs, fired: Option<u8>) -> T2Inputs
    ensures { result ≡ inputs_of control inputs.edges inputs.rise fired }
{
    let clock = if control.hsi1 { Pin::HSI1 } else { Pin::T2CLK };
    let reset = if control.reset_hsi0 {
        Pin::HSI0
    } else {
        Pin::T2RST
    };
    T2Inputs {
        clock: has_pin(inputs.edges, clock.0),
        reset: control.reset_on && has_pin(inputs.rise, reset.0) || resets(fired),
        capture: has_pin(inputs.rise, Pin::T2CAP.0),
    }
}

/// The pins of HSI that IOC0 enables.
fn hsi_enabled(ioc0: u8) -> u8
    ensures { result ≡ hsi_enabled_by ioc0 }
{
    let control = u64::from(ioc0);
    weight(has_pin(control, 0), 1)
        + weight(has_pin(control, 2), 2)
        + weight(has_pin(control, 4), 4)
        + weight(has_pin(control, 6), 8)
}

/// The edges of the pins of HSI, and those that IOC0 enables.
pub(crate) fn hsi_edges(board_registers: &BoardRegisters, inputs: Inputs) -> PinEdges
    ensures { result ≡ hsi_edges_of board_registers.now inputs.rise inputs.fall }
{
    PinEdges {
        rising: hsi_bits(inputs.rise),
        falling: hsi_bits(inputs.fall),
        enabled: hsi_enabled(board_registers.ioc0),
    }
}

ghost use Rattle.kc_block_spec.specs.Control.{hsi_edges as hsi_edges_of};
