//! What registers read in the present state, without any effect and without a call of a unit that counts.
ghost use Rattle.std.specs.Prelude.{◌≡◌, ◌*◌, ◌≤◌, ◌^◌};
ghost use Rattle.kc_hsi.specs.Input.{status_of, flags_of};
ghost use Rattle.kc_hso.specs.Cam.{ios0_of};
ghost use Rattle.kc_block_spec.specs.Reading.{byte_value, word_value};
ghost use Rattle.kc_block_spec.specs.Looking.{levels_shown as levels_seen};
ghost use Rattle.kc_block_units.specs.Scheduler.{shown_units, IsScheduled, IsPresent};
ghost use Rattle.kc_block_units.specs.Standing.{standing};

use crate::values::{ios1, port0, port1, port2};
use kc_base::StateTime;
use kc_block_spec::{BoardRegisters, ReadableByte, ReadableWord};
use kc_block_units::{Scheduler, has_overflowed, hsi_bits, stimulated, wired_inputs};
use kc_extra::Extra;
use kc_timers::timer1;

fn hsi_status<X: Extra>(scheduler: &Scheduler<X>, levels: u8, now: StateTime) -> u8
    requires { IsScheduled X.further X.agrees (standing X.plain scheduler.now) now }
    ensures { result ≡ status_of (shown_units X.further (standing X.plain scheduler.now) now).hsi.held.events levels }
{
    scheduler.hsi.unit.read_status(levels)
}

fn ios0<X: Extra>(scheduler: &Scheduler<X>, now: StateTime) -> u8
    requires { IsScheduled X.further X.agrees (standing X.plain scheduler.now) now }
    ensures { result ≡ ios0_of (shown_units X.further (standing X.plain scheduler.now) now).hso }
{
    scheduler.hso.unit.ios0()
}

fn has_flag<X: Extra>(scheduler: &Scheduler<X>, now: StateTime) -> bool
    requires { IsScheduled X.further X.agrees (standing X.plain scheduler.now) now }
    ensures { result ≡ (shown_units X.further (standing X.plain scheduler.now) now).overflowed }
{
    scheduler.flag.unit | has_overflowed(scheduler.flag.at, now)
}

fn hsi_flags<X: Extra>(scheduler: &Scheduler<X>, now: StateTime) -> u8
    requires { IsScheduled X.further X.agrees (standing X.plain scheduler.now) now }
    ensures flags { result ≡ flags_of (shown_units X.further (standing X.plain scheduler.now) now).hsi }
    ensures high { result ≤ 192 }
{
    scheduler.hsi.unit.flags()
}

/// What a byte register reads in state `now`, with these data beside the units.
pub(crate) fn byte_at<X: Extra>(
    scheduler: &Scheduler<X>,
    board_registers: &BoardRegisters,
    now: StateTime,
    register: ReadableByte,
) -> u8
    requires { IsScheduled X.further X.agrees (standing X.plain scheduler.now) now }
    ensures { result ≡ byte_value (record (shown_units X.further (standing X.plain scheduler.now) now) { board_registers = board_registers.now }) register }
{
    match register {
        ReadableByte::Zeros => 0,
        ReadableByte::IntMask => (board_registers.requests.mask % 256) as u8,
        ReadableByte::IntMask1 => (board_registers.requests.mask / 256) as u8,
        ReadableByte::IntPend => (board_registers.requests.pending % 256) as u8,
        ReadableByte::IntPend1 => (board_registers.requests.pending / 256) as u8,
        ReadableByte::Wsr => board_registers.wsr,
        ReadableByte::HsiStatus => hsi_status(scheduler, hsi_bits(board_registers.levels), now),
        ReadableByte::Port0 => port0(board_registers.levels),
        ReadableByte::Port1 => port1(board_registers),
        ReadableByte::Port2 => port2(board_registers),
        ReadableByte::Ios0 => ios0(scheduler, now),
        ReadableByte::Ios1 => ios1(
            board_registers.ios1,
            has_flag(scheduler, now),
            hsi_flags(scheduler, now),
        ),
        ReadableByte::Ios2 => board_registers.ios2,
        ReadableByte::Ioc3 => board_registers.ioc3,
    }
}

/// What a word register reads in state `t`, with the units as they are at the start of state `now`.
pub(crate) fn word_at<X: Extra>(
    scheduler: &Scheduler<X>,
    now: StateTime,
    t: StateTime,
    register: ReadableWord,
) -> u16
    requires present { IsPresent X.further X.agrees (standing X.plain scheduler.now) now }
    ensures { result ≡ word_value t (shown_units X.further (standing X.plain scheduler.now) now) register }
{
    match register {
        ReadableWord::HsiTime => scheduler.hsi.unit.time(),
        ReadableWord::Timer1 => timer1(t),
        ReadableWord::Timer2 => scheduler.view(now).value,
        ReadableWord::T2Capture => scheduler.timer2.unit.captured(),
        ReadableWord::PtsSelect => scheduler.board_registers.requests.select,
        ReadableWord::PtsService => scheduler.board_registers.requests.service,
    }
}

/// The data beside the units with the levels that inputs have at the start of state `now`.
pub(crate) fn seen_at<X: Extra>(scheduler: &Scheduler<X>, now: StateTime) -> BoardRegisters
    requires { IsScheduled X.further X.agrees (standing X.plain scheduler.now) now }
    ensures { result ≡ record scheduler.now.board_registers { levels = levels_seen now (shown_units X.further (standing X.plain scheduler.now) now) } }
{
    let driven = stimulated(&scheduler.stimuli, now);
    let wired = scheduler.board_registers.levels & wired_inputs(&scheduler.stimuli);
    BoardRegisters {
        levels: driven | wired,
        ..scheduler.board_registers
    }
}
