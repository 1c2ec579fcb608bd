// The registers of the serial port, all in window 0.
ghost use Rattle.std.specs.Prelude.{◌≡◌, ◌+◌, ◌*◌, ◌<◌, ◌≤◌};
ghost use Rattle.kc_serial.specs.Port.{is_on as is_on_by, receives as receives_by};
ghost use Rattle.kc_serial.specs.Registers.{is_readable as readable, is_writable as writable, status as status_of, with_byte as byte_queued, with_rate as rate_set, with_control as control_set};

use crate::sending::Sending;
use crate::serial::Serial;
use kc_base::{bit, weight};

/// The byte to be sent, and the last one received.
pub(crate) const SBUF: u8 = 0x07;

pub(crate) const BAUD_RATE: u8 = 0x0E;

/// SP_CON where it is written, SP_STAT where it is read.
pub(crate) const SP_CON: u8 = 0x11;

pub(crate) fn is_readable(window: u8, sfr: u8) -> bool
    ensures { result ≡ readable window sfr }
{
    window == 0 && (sfr == SBUF || sfr == SP_CON)
}

pub(crate) fn is_writable(window: u8, sfr: u8) -> bool
    ensures { result ≡ writable window sfr }
{
    window == 0 && (sfr == SBUF || sfr == BAUD_RATE || sfr == SP_CON)
}

/// Whether SP_CON has the port on.
fn is_on(control: u8) -> bool
    ensures { result ≡ is_on_by control }
{
    control % 4 == 1
}

/// Whether SP_CON lets it receive.
pub(crate) fn receives(control: u8) -> bool
    ensures { result ≡ receives_by control }
{
    is_on(control) && bit(control, 3)
}

/// SP_STAT.
pub(crate) fn status(port: &Serial) -> u8
    ensures { result ≡ status_of port.now }
{
    weight(port.flags.received, 64)
        + weight(port.flags.sent, 32)
        + weight(port.flags.framing, 16)
        + weight(port.waiting.is_none(), 8)
        + weight(port.flags.overrun, 4)
}

/// A write of SBUF.
pub(crate) fn write_byte(port: &mut Serial, byte: u8)
    ensures { port.new ≡ byte_queued byte port.old }
{
    if !is_on(port.control) {
        return;
    }
    match port.sending {
        Sending::Idle => port.sending = Sending::Next(byte),
        _ => port.waiting = Some(byte),
    }
}

/// A write of the baud rate register.
pub(crate) fn write_rate(port: &mut Serial, value: u8)
    ensures { port.new ≡ rate_set value port.old }
{
    port.rate = port.rate / 256 + 256 * u16::from(value);
}

/// A write of SP_CON.
pub(crate) fn write_control(port: &mut Serial, value: u8)
    ensures { port.new ≡ control_set value port.old }
{
    port.control = value;
    if !is_on(value) {
        port.waiting = None;
    }
    if !receives(value) {
        port.reception = None;
    }
}
