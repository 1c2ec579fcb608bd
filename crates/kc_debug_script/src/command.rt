// Commands, and the lines that ask for them.
ghost use Rattle.std.specs.Prelude.{◌≡◌, IfSome};
ghost use Rattle.kc_debug_script.specs.Commands.{is_writable as may_be_written, letter_alone as alone, letter_with as with_fields, command_of, IsBounded};

use crate::fields::number;
use kc_base::{HOLE_START, IMAGE_START, MAX_STATES, StateTime, hex_byte, hex_word, split_at_space};

/// What a line of a script asks for.
#[derive(Clone, Copy, PartialEq, Eq, Drop)]
pub enum Command {
    /// So many activities, 1 to 1,000,000.
    Step(u32),
    /// A run until a state, 1 to 10^15, or until an activity would start at a breakpoint.
    Go(StateTime),
    /// A breakpoint at an address.
    Break(u16),
    /// The program counter, the status word, the window register and the register file.
    Registers,
    /// So many bytes, 1 to 256, from an address on.
    Show { from: u16, count: u16 },
    /// A byte that is put at an address, 0018H or above and not 1FFEH or 1FFFH.
    Write { addr: u16, value: u8 },
    /// The last activities.
    History,
    /// The end of the script.
    Quit,
}

/// The most activities of one command.
const STEP_LIMIT: u64 = 1_000_000;

/// The most bytes that one command shows.
pub const SHOW_LIMIT: u64 = 256;

/// Whether commands may write the byte at an address: 0018H or above, and neither 1FFEH nor 1FFFH.
pub fn is_writable(addr: u16) -> bool
    ensures { result ≡ may_be_written addr }
{
    0x18 <= addr && !(HOLE_START..IMAGE_START).contains(&addr)
}

/// The command that is a letter alone, if it is one.
pub fn letter_alone(letter: u8) -> Option<Command>
    ensures { result ≡ alone letter }
{
    match letter {
        b'l' => Some(Command::History),
        b'q' => Some(Command::Quit),
        b'r' => Some(Command::Registers),
        _ => None,
    }
}

/// The run to a state that stands behind `g`, if it is one.
pub fn go(fields: &[u8]) -> Option<Command>
    ensures value { result ≡ with_fields 103 fields.now }
    ensures bounded { IfSome result IsBounded }
{
    Some(Command::Go(number(fields, MAX_STATES)?))
}

/// The activities that stand behind `s`, if it is a number of them.
pub fn step(fields: &[u8]) -> Option<Command>
    ensures value { result ≡ with_fields 115 fields.now }
    ensures bounded { IfSome result IsBounded }
{
    Some(Command::Step(number(fields, STEP_LIMIT)? as u32))
}

fn show(fields: &[u8]) -> Option<Command>
    ensures value { result ≡ with_fields 109 fields.now }
    ensures bounded { IfSome result IsBounded }
{
    let (first, second) = split_at_space(fields);
    let from = hex_word(first)?;
    let count = number(second, SHOW_LIMIT)? as u16;
    Some(Command::Show { from, count })
}

fn write(fields: &[u8]) -> Option<Command>
    ensures value { result ≡ with_fields 119 fields.now }
    ensures bounded { IfSome result IsBounded }
{
    let (first, second) = split_at_space(fields);
    let addr = hex_word(first)?;
    if !is_writable(addr) {
        return None;
    }
    let value = hex_byte(second)?;
    Some(Command::Write { addr, value })
}

// What stands behind a letter and a space.
fn letter_with(letter: u8, fields: &[u8]) -> Option<Command>
    ensures value { result ≡ with_fields letter fields.now }
    ensures bounded { IfSome result IsBounded }
{
    match letter {
        b'b' => Some(Command::Break(hex_word(fields)?)),
        b'g' => go(fields),
        b'm' => show(fields),
        b's' => step(fields),
        b'w' => write(fields),
        _ => None,
    }
}

/// The command of a line, if it is one.
pub(crate) fn read_command(line: &[u8]) -> Option<Command>
    ensures value { result ≡ command_of line.now }
    ensures bounded { IfSome result IsBounded }
{
    match line {
        [letter] => letter_alone(*letter),
        [letter, b' ', fields @ ..] => letter_with(*letter, fields),
        _ => None,
    }
}
