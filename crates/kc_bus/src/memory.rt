// The bytes of the common memory, one for each address, as they are read and written from 0018H on.
ghost use Rattle.std.specs.Prelude.{◌≡◌, ◌+◌, ◌*◌, ◌/◌, ◌%◌, OnOk, OnErr, length, slice_index, slice_set};
ghost use Rattle.kc_exec_spec.specs.Access.{Accepts};
ghost use Rattle.kc_exec_spec.specs.Memory.{reads, writes};

use crate::map::{is_fixed, is_outside};
use kc_base::Kind;

/// A byte read.
pub fn read_byte(bytes: &[u8], addr: u16) -> Result<u8, Kind>
    requires { length bytes.now ≡ 65536 }
    ensures { result ≡ reads addr (slice_index bytes.now addr) }
{
    if is_outside(addr) {
        Err(Kind::OutsideMap)
    } else {
        Ok(bytes[addr as usize])
    }
}

/// A word read at an even address.
pub fn read_word(bytes: &[u8], addr: u16) -> Result<u16, Kind>
    requires long { length bytes.now ≡ 65536 }
    requires even { addr % 2 ≡ 0 }
    ensures { result ≡ reads addr (slice_index bytes.now addr + 256 * slice_index bytes.now (addr + 1)) }
{
    if is_outside(addr) {
        Err(Kind::OutsideMap)
    } else {
        let low = bytes[addr as usize];
        let high = bytes[addr as usize + 1];
        Ok(u16::from(low) + 256 * u16::from(high))
    }
}

fn writable(addr: u16) -> Result<(), Kind>
    ensures { Accepts result (writes addr) }
{
    if is_outside(addr) {
        Err(Kind::OutsideMap)
    } else if is_fixed(addr) {
        Err(Kind::RomWrite)
    } else {
        Ok(())
    }
}

/// A byte write.
pub fn write_byte(bytes: &mut [u8], addr: u16, value: u8) -> Result<(), Kind>
    requires { length bytes.old ≡ 65536 }
    ensures answer { Accepts result (writes addr) }
    ensures ok { OnOk result (bytes.new ≡ slice_set bytes.old addr value) }
    ensures err { OnErr result (bytes.new ≡ bytes.old) }
{
    writable(addr)?;
    bytes[addr as usize] = value;
    Ok(())
}

/// A word write at an even address, the low byte first.
pub fn write_word(bytes: &mut [u8], addr: u16, value: u16) -> Result<(), Kind>
    requires long { length bytes.old ≡ 65536 }
    requires even { addr % 2 ≡ 0 }
    ensures answer { Accepts result (writes addr) }
    ensures ok { OnOk result (bytes.new ≡ slice_set (slice_set bytes.old addr (value % 256)) (addr + 1) (value / 256)) }
    ensures err { OnErr result (bytes.new ≡ bytes.old) }
{
    writable(addr)?;
    bytes[addr as usize] = (value % 256) as u8;
    bytes[addr as usize + 1] = (value / 256) as u8;
    Ok(())
}
