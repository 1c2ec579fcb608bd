// Modules packed into a library.
ghost use Rattle.std.specs.Prelude.{◌≡◌, ◌<◌, ◌≤◌, ◌^◌, ◌++◌, OnOk, IfOk, All, length};
ghost use Rattle.kc_obj_module.specs.Spelling.{long_bytes, spelling};
ghost use Rattle.kc_lib.specs.Format.{member_bytes, library_bytes, IsMember};
ghost use Rattle.kc_lib.specs.Names as named;
ghost use Rattle.kc_lib.specs.Answers.{IsPacked, ReportsPacked, IsOnce};

use crate::faults::LibFault;
use crate::givers::Givers;
use kc_base::{NoMemory, Text};
use kc_obj_module::{Module, encode};
use std::alloc::Global;

// Refuses modules of which two give a name.
fn check_names(alloc: Global, modules: &[Module]) -> Result<(), LibFault>
    ensures { IsOnce (named.doubled modules.now) result }
{
    let mut givers = Givers::new(alloc);
    for (number, module) in modules.iter().enumerate() {
        if let Some(name) = givers.second(module.publics()) {
            return Err(LibFault::Duplicate(Text::of(alloc, name.as_slice())?));
        }
        givers.add(alloc, number, module)?;
    }
    Ok(())
}

// Adds 32 bits of a number, low byte first.
fn put_long(out: &mut Vec<u8>, number: usize) -> Result<(), NoMemory>
    ensures { OnOk result (out.new.items ≡ out.old.items ++ long_bytes number) }
{
    let high = number / 65536;
    out.push((number % 256) as u8)?;
    out.push((number / 256 % 256) as u8)?;
    out.push((high % 256) as u8)?;
    out.push((high / 256 % 256) as u8)?;
    Ok(())
}

// Adds the length of a module's object, and the object.
fn put_member(alloc: Global, out: &mut Vec<u8>, module: &Module) -> Result<(), NoMemory>
    ensures { OnOk result (out.new.items ≡ out.old.items ++ member_bytes «module».now) }
{
    let object = encode(alloc, module)?;
    put_long(out, object.len())?;
    out.extend_from_slice(&object)?;
    Ok(())
}

// The bytes of a library of these modules.
fn spell(alloc: Global, modules: &[Module]) -> Result<Vec<u8>, NoMemory>
    requires { length modules.now ≤ 64 }
    ensures { IfOk result (λ bytes. bytes.items ≡ library_bytes modules.now) }
{
    let mut out = Vec::from_slice(alloc, &[0x4B, 0x4C, 0x01, modules.len() as u8])?;
    for module in modules {
        put_member(alloc, &mut out, module)?;
    }
    Ok(out)
}

// Each of the modules can be a member of a library. It does nothing when it runs.
fn can_be_members(modules: &[Module])
    requires { All (λ m. length (spelling m) < 2 ^ 32) modules.now }
    ensures { All IsMember modules.now }
{
    for module in modules {
        module.keeps_rules();
        module.has_room();
    }
}

fn packed(alloc: Global, modules: &[Module]) -> Result<Vec<u8>, LibFault>
    requires { length modules.now ≤ 64 }
    ensures { IsPacked modules.now result }
{
    check_names(alloc, modules)?;
    Ok(spell(alloc, modules)?)
}

/// Packs 1 to 64 modules into a library, in their order: the bytes 4BH, 4CH and 1, the number of modules, and for each
/// module the length of its object in 4 bytes, low byte first, and the object, which has less than 4 GB. They are read as
/// these modules.
/// The refusal is the first name, by modules and in each by its publics, that an earlier module makes public too.
pub fn pack(alloc: Global, modules: &[Module]) -> Result<Vec<u8>, LibFault>
    requires some { 0 < length modules.now }
    requires few { length modules.now ≤ 64 }
    requires short { All (λ m. length (spelling m) < 2 ^ 32) modules.now }
    ensures answer { IsPacked modules.now result }
    ensures library { ReportsPacked modules.now result }
{
    can_be_members(modules);
    packed(alloc, modules)
}
