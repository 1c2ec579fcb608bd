// The levels of the outputs.
ghost use Rattle.std.specs.Prelude.{◌≡◌, ◌<◌, ◌^◌};
ghost use Rattle.kc_base.specs.Bits.{weight as weight_of};
ghost use Rattle.kc_hso.specs.Cam.{latch_bits as latch_bits_of};
ghost use Rattle.kc_block_spec.specs.Levels.{outputs as outputs_of, printed as printed_of};

use crate::masks::has_pin;
use kc_block_spec::BoardRegisters;
use kc_hso::Hso;

fn weight(is: bool, value: u64) -> u64
    ensures { result ≡ weight_of is value }
{
    if is { value } else { 0 }
}

fn latch_bits(hso: &Hso) -> u64
    ensures value { result ≡ latch_bits_of hso.now.inner.latches }
    ensures few { result < 64 }
{
    weight(hso.latch(0), 1)
        + weight(hso.latch(1), 2)
        + weight(hso.latch(2), 4)
        + weight(hso.latch(3), 8)
        + weight(hso.latch(4), 16)
        + weight(hso.latch(5), 32)
}

/// HSO0 to HSO5 on their pins: HSO4 and HSO5 only where IOC1.4 and IOC1.6 are 1.
pub fn outputs(board_registers: &BoardRegisters, hso: &Hso) -> u8
    ensures value { result ≡ outputs_of board_registers.now hso.now.inner }
    ensures few { result < 64 }
{
    let control = u64::from(board_registers.ioc1);
    let gate = 15 + weight(has_pin(control, 4), 16) + weight(has_pin(control, 6), 32);
    (latch_bits(hso) & gate) as u8
}

/// The pins that are printed: the outputs, port 1, and P20, P25, P26, P27.
pub fn printed(board_registers: &BoardRegisters, hso: &Hso) -> u64
    ensures value { result ≡ printed_of board_registers.now hso.now.inner }
    ensures pins { result < 2 ^ 18 }
{
    let port2 = u64::from(board_registers.port2);
    u64::from(outputs(board_registers, hso))
        + 64 * u64::from(board_registers.port1)
        + weight(has_pin(port2, 0), 0x4000)
        + weight(has_pin(port2, 5), 0x8000)
        + weight(has_pin(port2, 6), 0x10000)
        + weight(has_pin(port2, 7), 0x20000)
}
