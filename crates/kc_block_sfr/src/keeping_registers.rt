//! The data beside the units after a byte write.
ghost use Rattle.std.specs.Prelude.{◌≡◌};
ghost use Rattle.kc_block_spec.specs.declared.board_registers.BoardRegisters.{BoardRegisters as ABoardRegisters};
ghost use Rattle.kc_block_spec.specs.Writing.{board_registers_with as board_registers_after, with_low as low_changed, with_high as high_changed};

use kc_block_spec::{BoardRegisters, WritableByte};
use kc_intc::Requests;

/// A word with another low byte.
fn with_low(word: u16, low: u8) -> u16
    ensures { result ≡ low_changed word low }
{
    256 * (word / 256) + u16::from(low)
}

/// A word with another high byte.
fn with_high(word: u16, high: u8) -> u16
    ensures { result ≡ high_changed word high }
{
    word % 256 + 256 * u16::from(high)
}

/// The requests and masks after a byte write.
fn requests_with(old: Requests, register: WritableByte, value: u8) -> Requests
    ensures { (s : ABoardRegisters) → s.requests ≡ old → result ≡ (board_registers_after s register value).requests }
{
    match register {
        WritableByte::IntMask => Requests {
            mask: with_low(old.mask, value),
            ..old
        },
        WritableByte::IntMask1 => Requests {
            mask: with_high(old.mask, value),
            ..old
        },
        WritableByte::IntPend => Requests {
            pending: with_low(old.pending, value),
            ..old
        },
        WritableByte::IntPend1 => Requests {
            pending: with_high(old.pending, value),
            ..old
        },
        _ => old,
    }
}

/// The data beside the units after a byte write.
pub(crate) fn board_registers_with(
    board_registers: &BoardRegisters,
    register: WritableByte,
    value: u8,
) -> BoardRegisters
    ensures { result ≡ board_registers_after board_registers.now register value }
{
    match register {
        WritableByte::Zeros | WritableByte::HsiMode | WritableByte::HsoCommand => *board_registers,
        WritableByte::IntMask
        | WritableByte::IntMask1
        | WritableByte::IntPend
        | WritableByte::IntPend1 => BoardRegisters {
            requests: requests_with(board_registers.requests, register, value),
            ..*board_registers
        },
        WritableByte::Wsr => BoardRegisters {
            wsr: value,
            ..*board_registers
        },
        WritableByte::Port1 => BoardRegisters {
            port1: value,
            ..*board_registers
        },
        WritableByte::Port2 => BoardRegisters {
            port2: value & 0xE1,
            ..*board_registers
        },
        WritableByte::Ioc0 => BoardRegisters {
            ioc0: value & 0xFD,
            ..*board_registers
        },
        WritableByte::Ioc1 => BoardRegisters {
            ioc1: value,
            ..*board_registers
        },
        WritableByte::Ioc2 => BoardRegisters {
            ioc2: value & 0x7F,
            ..*board_registers
        },
        WritableByte::Ioc3 => BoardRegisters {
            ioc3: value,
            ..*board_registers
        },
    }
}
