// The lines of a debugger, each made in place, with no memory.
ghost use Rattle.std.specs.Prelude.{◌≡◌, ◌+◌, ◌≤◌, ◌<◌, ◌++◌, ◌∷◌, [], decimal, codes};
ghost use Rattle.arrayvec.specs.ArrayVec.{array_vec_len};
ghost use Rattle.kc_debug.specs.InLives.{stand_line as line_of_stand_in_life};
ghost use Rattle.kc_debug.specs.Lines.{memory_line as line_of_memory, shown_bytes, stand_line as line_of_stand, state_fields};

use crate::activities::Begun;
use arrayvec::ArrayVec;
use kc_base::StateTime;
use kc_extra::Extra;
use kc_machine::Machine;
use kc_trace::{LineBytes, put_decimal, put_hex, put_text};

fn put_state(line: &mut LineBytes, at: StateTime, pc: u16)
    requires { array_vec_len line.old + 25 ≤ 160 }
    ensures items { line.new.items ≡ line.old.items ++ state_fields at pc }
    ensures len { array_vec_len line.new ≤ array_vec_len line.old + 25 }
{
    put_decimal(line, at);
    put_text(line, b" ");
    put_hex(line, 4, pc);
}

/// The line of where a machine stands.
pub fn stand_line<X: Extra + Drop>(machine: &Machine<X>) -> LineBytes
    ensures { result.items ≡ line_of_stand machine.now.machine }
{
    let mut line = ArrayVec::new();
    put_text(&mut line, b"T ");
    put_state(&mut line, machine.now(), machine.pc());
    line.push(b'\n');
    line
}

/// The line of an activity, without its source line and its end.
pub fn activity_fields(begun: &Begun) -> LineBytes
    ensures fields { result.items ≡ codes "A " ++ state_fields begun.now.at begun.now.pc }
    ensures short { array_vec_len result ≤ 30 }
{
    let mut line = ArrayVec::new();
    put_text(&mut line, b"A ");
    put_state(&mut line, begun.at, begun.pc);
    line
}

/// The line of where a machine stands in the life of this number.
pub fn stand_line_in_life<X: Extra + Drop>(machine: &Machine<X>, life: u16) -> LineBytes
    ensures { result.items ≡ line_of_stand_in_life life machine.now.machine }
{
    let mut line = ArrayVec::new();
    put_text(&mut line, b"T ");
    put_state(&mut line, machine.now(), machine.pc());
    put_text(&mut line, b" ");
    put_decimal(&mut line, u64::from(life));
    line.push(b'\n');
    line
}

/// The line of an activity in the life of this number, without its source line and its end.
pub(crate) fn activity_fields_in_life(begun: &Begun, life: u16) -> LineBytes
    ensures { result.items ≡ codes "A " ++ state_fields begun.now.at begun.now.pc ++ codes " " ++ decimal life }
{
    let mut line = activity_fields(begun);
    put_text(&mut line, b" ");
    put_decimal(&mut line, u64::from(life));
    line
}

/// The number of a source line, behind its module.
pub(crate) fn line_number(number: u32) -> LineBytes
    ensures { result.items ≡ codes ":" ++ decimal number }
{
    let mut line = ArrayVec::new();
    put_text(&mut line, b":");
    put_decimal(&mut line, u64::from(number));
    line
}

// So many bytes from an address on, as a machine shows them.
fn put_bytes<X: Extra + Drop>(line: &mut LineBytes, machine: &mut Machine<X>, from: u16, count: u16)
    requires count { count ≤ 16 }
    requires room { array_vec_len line.old + 32 < 160 }
    ensures items { line.new.items ≡ line.old.items ++ shown_bytes X.further machine.old.machine from count }
    ensures len { array_vec_len line.new ≤ array_vec_len line.old + 32 }
    ensures same { machine.new.machine ≡ machine.old.machine }
    ensures moves { machine.new.moves ≤ machine.old.moves + count }
{
    for byte in 0..count {
        let value = machine.peek(from.wrapping_add(byte));
        put_hex(line, 2, u16::from(value));
    }
}

/// The line of some bytes of memory, 16 at most.
pub(crate) fn memory_line<X: Extra + Drop>(
    machine: &mut Machine<X>,
    from: u16,
    count: u16,
) -> LineBytes
    requires count { count ≤ 16 }
    ensures items { result.items ≡ line_of_memory X.further machine.old.machine from count }
    ensures same { machine.new.machine ≡ machine.old.machine }
    ensures moves { machine.new.moves ≤ machine.old.moves + count }
{
    let mut line = ArrayVec::new();
    put_text(&mut line, b"M ");
    put_hex(&mut line, 4, from);
    put_text(&mut line, b" ");
    put_bytes(&mut line, machine, from, count);
    line.push(b'\n');
    line
}
