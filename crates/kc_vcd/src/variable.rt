// The variables of a dump.
ghost use Rattle.std.specs.Prelude.{◌≡◌, ◌<◌, ◌++◌, decimal, OnOk};
ghost use Rattle.kc_base.specs.Pins.{IsPin, pin_name};
ghost use Rattle.kc_trace.specs.Signals.{pin_of};
ghost use Rattle.kc_vcd.specs.Variables.{signal_name, name_of, signal_number as number_of_signal, number_of, code_of, IsVariable};

use kc_base::{NoMemory, Pin, put_number};
use kc_trace::Signal;

/// A variable of a dump: the level of a signal, the value of an analogue input, or what happens: an entry through the vector of a
/// request, a cycle of the transfer server for one, an undefined use, or a life that begins behind another one.
#[derive(Clone, Copy)]
pub(crate) enum Variable {
    Wire(Signal),
    Analog(u8),
    Entry(u8),
    Transfer(u8),
    Undefined,
    Life,
}

fn pin_in(signal: Signal) -> Pin
    ensures { result.0 ≡ pin_of signal }
{
    match signal {
        Signal::Output(pin) => pin,
        Signal::Input(pin) => pin,
    }
}

// What is behind the name of the pin.
fn ending(signal: Signal) -> &'static [u8]
    ensures { signal_name signal ≡ pin_name (pin_of signal) ++ result.now }
{
    match signal {
        Signal::Input(pin) if pin.is_printed() => b"_in",
        _ => b"",
    }
}

fn put_numbered(text: &mut Vec<u8>, word: &[u8], number: u8) -> Result<(), NoMemory>
    ensures { OnOk result (text.new.items ≡ text.old.items ++ word.now ++ decimal number) }
{
    text.extend_from_slice(word)?;
    put_number(text, u128::from(number))
}

fn put_signal(text: &mut Vec<u8>, signal: Signal) -> Result<(), NoMemory>
    requires { IsPin (pin_of signal) }
    ensures { OnOk result (text.new.items ≡ text.old.items ++ signal_name signal) }
{
    text.extend_from_slice(pin_in(signal).name().as_bytes())?;
    text.extend_from_slice(ending(signal))?;
    Ok(())
}

// A pin has its number; an input that is printed too has one behind those of all pins.
fn signal_number(signal: Signal) -> u16
    ensures value { result ≡ number_of_signal signal }
    ensures few { result < 300 }
{
    match signal {
        Signal::Output(pin) => u16::from(pin.0),
        Signal::Input(pin) => {
            if pin.is_printed() {
                35 + u16::from(pin.0)
            } else {
                u16::from(pin.0)
            }
        }
    }
}

impl Variable {
    /// Puts its name.
    pub(crate) fn put_name(self, text: &mut Vec<u8>) -> Result<(), NoMemory>
        requires { IsVariable self }
        ensures { OnOk result (text.new.items ≡ text.old.items ++ name_of self) }
    {
        match self {
            Variable::Wire(signal) => put_signal(text, signal),
            Variable::Analog(channel) => put_numbered(text, b"A", channel),
            Variable::Entry(number) => put_numbered(text, b"entry", number),
            Variable::Transfer(number) => put_numbered(text, b"transfer", number),
            Variable::Undefined => Ok(text.extend_from_slice(b"undefined")?),
            Variable::Life => Ok(text.extend_from_slice(b"life")?),
        }
    }

    // Which it is among all that there may be.
    fn number(self) -> u16
        ensures { result ≡ number_of self }
    {
        match self {
            Variable::Wire(signal) => signal_number(signal),
            Variable::Analog(channel) => 49 + u16::from(channel),
            Variable::Entry(number) => 57 + u16::from(number),
            Variable::Transfer(number) => 75 + u16::from(number),
            Variable::Undefined => 90,
            Variable::Life => 91,
        }
    }

    /// Its code, a printable character.
    pub(crate) fn code(self) -> u8
        ensures { result ≡ code_of self }
    {
        33 + ((32 + self.number()) % 94) as u8
    }
}
