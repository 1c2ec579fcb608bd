// The boards that are tested: images of some bytes, and their machines.
ghost use Rattle.std.specs.Prelude.{◌≡◌, IfOk};

use kc_base::{Image, NoMemory};
use kc_extra::NoExtra;
use kc_machine::Machine;
use kc_stim::Stimuli;
use std::alloc::Global;

/// Puts bytes into an image, from an address on.
fn put(image: &mut Image, at: u16, bytes: &[u8]) {
    let mut addr = at;
    for byte in bytes {
        if addr >= 0x2000 {
            image.set(addr, *byte);
        }
        addr = addr.wrapping_add(1);
    }
}

/// The image of some bytes, each run of them from its address on.
pub fn image_of(alloc: Global, parts: &[(u16, &[u8])]) -> Result<Image, NoMemory> {
    let mut image = Image::blank(alloc)?;
    for (at, bytes) in parts {
        put(&mut image, *at, bytes);
    }
    Ok(image)
}

/// The machine of that image, without stimuli and without a further unit, before its first state.
pub fn machine_of(alloc: Global, parts: &[(u16, &[u8])]) -> Result<Machine<NoExtra>, NoMemory>
    ensures { IfOk result (λ machine. machine.machine.time ≡ 0) }
{
    let image = image_of(alloc, parts)?;
    Machine::new(alloc, image, Stimuli::none(alloc), NoExtra::new())
}
