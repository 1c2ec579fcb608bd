ghost use Rattle.std.specs.Prelude.{◌≡◌};
ghost use Rattle.kc_exec_spec.specs.Memory.{is_hole, is_rom};

use kc_base::{HOLE_START, IMAGE_START, ROM_END};

/// Whether an address is in the hole of the profile's memory map, 1FFEH and 1FFFH, where nothing answers.
#[inline(always)]
pub fn is_outside(addr: u16) -> bool
    ensures { result ≡ is_hole addr }
{
    (HOLE_START..IMAGE_START).contains(&addr)
}

/// Whether an address is in the ROM of the profile's memory map, 2000H to 5FFFH, which no access changes.
#[inline(always)]
pub fn is_fixed(addr: u16) -> bool
    ensures { result ≡ is_rom addr }
{
    (IMAGE_START..ROM_END).contains(&addr)
}
