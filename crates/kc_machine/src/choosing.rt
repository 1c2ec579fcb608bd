// What the next activity follows from.
ghost use Rattle.std.specs.Prelude.{◌≡◌, ◌<◌, length};
ghost use Rattle.kc_base.specs.Limits.{transfer_count};
ghost use Rattle.kc_exec_spec.specs.Entering.{vector_at, entry_states};
ghost use Rattle.kc_pts.specs.Cycles.{vector_of};
ghost use Rattle.kc_machine_spec.specs.Machine.{fetched, can_fetch};

use arrayvec::ArrayVec;
use kc_base::REGISTER_FILE_END;
use kc_bus::is_outside;

fn can_fetch(addr: u16) -> bool
    ensures { result ≡ can_fetch addr }
{
    !(addr < REGISTER_FILE_END || is_outside(addr))
}

/// The bytes from an address on, up to seven and up to the first that can't be fetched.
pub(crate) fn fetch(memory: &[u8], addr: u16) -> ArrayVec<u8, 7>
    requires { length memory.now ≡ 65536 }
    ensures { result.items ≡ fetched 7 memory.now addr }
{
    let mut bytes = ArrayVec::new();
    let mut at = addr;
    while bytes.len() < 7 {
        if !can_fetch(at) {
            return bytes;
        }
        bytes.push(memory[at as usize]);
        at = at.wrapping_add(1);
    }
    bytes
}

/// The states of an entry or a trap, by the stack pointer.
pub(crate) fn entry_time(sp: u16) -> u8
    ensures value { result ≡ entry_states sp }
    ensures some { 0 < result }
{
    if sp.wrapping_add(0xFFFE) < REGISTER_FILE_END {
        12
    } else {
        14
    }
}

/// Where the vector of a request stands.
pub(crate) fn vector_at(number: u8) -> u16
    requires { number < 16 }
    ensures { result ≡ vector_at number }
{
    if number < 8 {
        0x2000 + 2 * u16::from(number)
    } else {
        0x2030 + 2 * (u16::from(number) - 8)
    }
}

/// Where the address of the control block of a request stands.
pub(crate) fn vector_of(number: u8) -> u16
    requires { number < transfer_count }
    ensures { result ≡ vector_of number }
{
    0x2040 + 2 * u16::from(number)
}
