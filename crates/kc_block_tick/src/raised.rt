// The requests that a Tick raises, and the data beside the units after it.
ghost use Rattle.std.specs.Prelude.{◌≡◌, ◌*◌, ◌≤◌, Bool, Option, ℕ};
ghost use Rattle.kc_base.specs.Limits.{max_states};
ghost use Rattle.kc_block_spec.specs.Tick.{passes as passes_in, pin_requests, timer_requests, hsi_requests, board_registers_after, request as request_of, ◌∪◌};
ghost use Rattle.kc_block_spec.specs.Fired.{fired_request};

use crate::commands::request_bits;
use kc_base::{IntSet, Pin, StateTime};
use kc_block_spec::BoardRegisters;
use kc_block_units::has_pin;
use kc_hsi::HsiOut;
use kc_timers::T2Out;

/// Whether Timer 1 passes from FFFFH to 0 at the end of a state.
pub(crate) fn passes(now: StateTime) -> bool
    requires { now ≤ 4 * max_states }
    ensures { result ≡ passes_in now }
{
    (now + 1) % 0x80000 == 0
}

fn request(n: u16, raised: bool) -> u16
    requires { n ≤ 15 }
    ensures { result ≡ request_of n raised }
{
    if raised { 1 << n } else { 0 }
}

fn by_pins(board_registers: &BoardRegisters, rise: u64) -> u16
    ensures { result ≡ pin_requests board_registers.now rise }
{
    let chosen = if has_pin(u64::from(board_registers.ioc1), 1) {
        Pin::P07
    } else {
        Pin::EXTINT
    };
    request(4, has_pin(rise, Pin::HSI0.0))
        | request(7, has_pin(rise, chosen.0))
        | request(13, has_pin(rise, Pin::EXTINT.0))
        | request(15, has_pin(rise, Pin::NMI.0))
}

fn by_timers(board_registers: &BoardRegisters, passed: bool, counted: T2Out) -> u16
    ensures { result ≡ timer_requests board_registers.now passed counted }
{
    let ioc1 = u64::from(board_registers.ioc1);
    let first = passed & has_pin(ioc1, 2);
    let second = counted.overflow & has_pin(ioc1, 3);
    request(0, first | second) | request(11, counted.captured) | request(12, counted.overflow)
}

fn by_hsi(board_registers: &BoardRegisters, queued: HsiOut) -> u16
    ensures { result ≡ hsi_requests board_registers.now queued }
{
    let full = has_pin(u64::from(board_registers.ioc1), 7);
    let second = if full { queued.sixth } else { queued.loaded };
    request(2, second) | request(10, queued.fourth) | request(14, queued.sixth)
}

/// What pins, timers, HSI and a fired command raise.
pub(crate) fn raised(
    board_registers: &BoardRegisters,
    rise: u64,
    passed: bool,
    counted: T2Out,
    queued: HsiOut,
    fired: Option<u8>,
) -> u16
    ensures { result ≡ pin_requests board_registers.now rise ∪ timer_requests board_registers.now passed counted ∪ hsi_requests board_registers.now queued ∪ fired_request fired }
{
    by_pins(board_registers, rise)
        | by_timers(board_registers, passed, counted)
        | by_hsi(board_registers, queued)
        | request_bits(fired)
}

/// Bit 4 of IOS1, which an overflow of Timer 2 sets.
pub(crate) fn overflow_bit(counted: T2Out) -> u8
    ensures { result ≡ request_of 4 counted.overflow }
{
    if counted.overflow { 16 } else { 0 }
}

/// Sets bits of IOS1 and IOS2 and requests, and keeps the levels.
pub(crate) fn set_board_registers(
    board_registers: &mut BoardRegisters,
    levels: u64,
    ios1: u8,
    ios2: u8,
    raised: u16,
)
    ensures { board_registers.new ≡ board_registers_after board_registers.old levels ios1 ios2 raised }
{
    board_registers.levels = levels;
    board_registers.ios1 |= ios1;
    board_registers.ios2 |= ios2;
    board_registers.requests.raise(IntSet(raised));
}
