//! What registers read that hold no unit's data: ports and pins.
ghost use Rattle.std.specs.Prelude.{◌≡◌, ◌+◌, ◌-◌, ◌%◌, ◌<◌, ◌≤◌, bit_and};
ghost use Rattle.kc_base.specs.Bits.{weight as weight_of};
ghost use Rattle.kc_block_spec.specs.Reading.{port0_levels, port1_levels, port2_read};

use kc_base::{Pin, StateTime, bit, weight};
use kc_block_spec::BoardRegisters;
use kc_block_units::has_pin;

/// IOS1: its bits 0 to 4, Timer 1's overflow, and the bits of HSI.
pub(crate) fn ios1(low: u8, overflowed: bool, flags: u8) -> u8
    requires { flags ≤ 192 }
    ensures { result ≡ low % 32 + weight_of overflowed 32 + flags }
{
    low % 32 + weight(overflowed, 32) + flags
}

/// PORT0: the levels of P00 to P07.
pub(crate) fn port0(levels: u64) -> u8
    ensures { result ≡ port0_levels levels }
{
    ((levels >> 28) % 256) as u8
}

/// PORT1: its latch and the levels of P10 to P17, both by AND.
pub(crate) fn port1(board_registers: &BoardRegisters) -> u8
    ensures { result ≡ bit_and board_registers.now.port1 (port1_levels board_registers.now.levels) }
{
    board_registers.port1 & ((board_registers.levels >> 6) % 256) as u8
}

/// PORT2: latch bits, levels, and both by AND.
pub(crate) fn port2(board_registers: &BoardRegisters) -> u8
    ensures { result ≡ port2_read board_registers.now }
{
    let latch = board_registers.port2;
    let levels = board_registers.levels;
    weight(bit(latch, 0), 1)
        + weight(has_pin(levels, Pin::EXTINT.0), 4)
        + weight(has_pin(levels, Pin::T2CLK.0), 8)
        + weight(has_pin(levels, Pin::T2RST.0), 16)
        + weight(bit(latch, 5), 32)
        + weight(bit(latch, 6) && has_pin(levels, Pin::T2UD.0), 64)
        + weight(bit(latch, 7) && has_pin(levels, Pin::T2CAP.0), 128)
}

/// The state of an access, whose Tick was the last before the present state.
pub(crate) fn state_before(now: StateTime) -> StateTime
    ensures { result ≡ now - 1 }
{
    now.saturating_sub(1)
}
