// The lines of a dump.
ghost use Rattle.std.specs.Prelude.{◌≡◌, ◌<◌, ◌+◌, ◌/◌, ◌%◌, ◌^◌, ◌++◌, OnOk};
ghost use Rattle.kc_vcd.specs.Variables.{IsVariable};
ghost use Rattle.kc_vcd.specs.declared.change.Change.TheVariants.{Happens};
ghost use Rattle.kc_vcd.specs.Dump.{type_of, declaration, level_line, digits, significant, value_line, change_text, stamp};

use crate::variable::Variable;
use kc_base::{Level, NoMemory, StateTime, put_number};
use kc_trace::{Signal, level_digit};

fn type_text(variable: Variable) -> &'static [u8]
    ensures { result.now ≡ type_of variable }
{
    match variable {
        Variable::Wire(_) => b"wire 1 ",
        Variable::Analog(_) => b"wire 10 ",
        _ => b"event 1 ",
    }
}

/// Declares a variable.
pub(crate) fn put_declaration(text: &mut Vec<u8>, variable: Variable) -> Result<(), NoMemory>
    requires { IsVariable variable }
    ensures { OnOk result (text.new.items ≡ text.old.items ++ declaration variable) }
{
    text.extend_from_slice(b"$var ")?;
    text.extend_from_slice(type_text(variable))?;
    text.extend_from_slice(&[variable.code(), b' '])?;
    variable.put_name(text)?;
    text.extend_from_slice(b" $end\n")?;
    Ok(())
}

/// Puts the level that a signal takes.
pub(crate) fn put_level(text: &mut Vec<u8>, signal: Signal, level: Level) -> Result<(), NoMemory>
    ensures { OnOk result (text.new.items ≡ text.old.items ++ level_line signal level) }
{
    let code = Variable::Wire(signal).code();
    text.extend_from_slice(&[level_digit(level), code, b'\n'])?;
    Ok(())
}

// The binary digit of a value at a place, counted from the lowest.
fn digit(value: u16, place: u8) -> u8
    requires { place < 10 }
    ensures { result ≡ 48 + value / 2 ^ place % 2 }
{
    b'0' + ((value >> place) % 2) as u8
}

// The ten binary digits of a value, the highest first.
fn digits_of(value: u16) -> [u8; 10]
    ensures { result ≡ digits value }
{
    [
        digit(value, 9),
        digit(value, 8),
        digit(value, 7),
        digit(value, 6),
        digit(value, 5),
        digit(value, 4),
        digit(value, 3),
        digit(value, 2),
        digit(value, 1),
        digit(value, 0),
    ]
}

// Digits without the zeros in front, but for the last digit.
#[tactic(auto, using(crate::proofs::Trimmed::none_left, crate::proofs::Trimmed::stops, crate::proofs::Trimmed::last_stays, crate::proofs::Trimmed::skips))]
fn trimmed(digits: &[u8]) -> &[u8]
    ensures { result.now ≡ significant digits.now }
{
    let mut left = digits;
    while let [digit, rest @ ..] = left {
        if *digit != b'0' {
            return left;
        }
        if rest.is_empty() {
            return left;
        }
        left = rest;
    }
    left
}

/// Puts the value that an analogue input takes.
pub(crate) fn put_value(text: &mut Vec<u8>, channel: u8, value: u16) -> Result<(), NoMemory>
    ensures { OnOk result (text.new.items ≡ text.old.items ++ value_line channel value) }
{
    text.extend_from_slice(b"b")?;
    text.extend_from_slice(trimmed(&digits_of(value)))?;
    text.extend_from_slice(&[b' ', Variable::Analog(channel).code(), b'\n'])?;
    Ok(())
}

/// Puts that something happens.
pub(crate) fn put_event(text: &mut Vec<u8>, variable: Variable) -> Result<(), NoMemory>
    ensures { OnOk result (text.new.items ≡ text.old.items ++ change_text (Happens variable)) }
{
    text.extend_from_slice(&[b'1', variable.code(), b'\n'])?;
    Ok(())
}

/// Puts the time of a state of the run, where it is another one than the state before, with states of so many picoseconds.
pub(crate) fn put_stamp(
    text: &mut Vec<u8>,
    length: u64,
    before: StateTime,
    at: StateTime,
) -> Result<(), NoMemory>
    ensures { OnOk result (text.new.items ≡ text.old.items ++ stamp length before at) }
{
    if at == before {
        return Ok(());
    }
    text.extend_from_slice(b"#")?;
    put_number(text, u128::from(length) * u128::from(at))?;
    text.extend_from_slice(b"\n")?;
    Ok(())
}
