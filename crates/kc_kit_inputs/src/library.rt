// Libraries, and what modules take from them.
ghost use Rattle.std.specs.Prelude.{◌≡◌, ◌≤◌, Ok, Err, IfOk, IfErr, length};
ghost use Rattle.kc_base.specs.Limits.{file_limit};
ghost use Rattle.kc_kit_files.specs.Response.{IsRefused};
ghost use Rattle.kc_kit_inputs.specs.Library.{library_of, TakenAre};

use crate::input_lines::byte_refusal;
use kc_kit_files::Refusal;
use kc_lib::{LibCode, LibFault, Library};
use kc_obj_module::Module;
use std::alloc::Global;

/// The library that a file holds, or the refusal of its first fault.
pub fn read_library(alloc: Global, name: &str, bytes: &[u8]) -> Result<Library, Refusal>
    requires { length bytes.now ≤ file_limit }
    ensures library { IfOk result (λ library. library_of name.now bytes.now ≡ Ok library) }
    ensures refusal { IfErr result (IsRefused (λ response. library_of name.now bytes.now ≡ Err response)) }
{
    match Library::read(alloc, bytes) {
        Ok(library) => Ok(library),
        Err(LibFault::At { at, code }) => Err(byte_refusal(alloc, name, at, b"B", code.number())),
        Err(LibFault::NoMemory) => Err(Refusal::NoMemory),
        Err(LibFault::Duplicate(_)) => unreachable!(),
        Err(LibFault::TooMany) => unreachable!(),
    }
}

/// The members that modules take from a library of this name, or the refusal where with them they are more than 64.
pub fn take_members(
    alloc: Global,
    name: &str,
    library: &Library,
    modules: &[Module],
) -> Result<Vec<Module>, Refusal>
    ensures taken { IfOk result (λ taken. TakenAre name.now modules.now library.now (Ok taken.items)) }
    ensures refusal { IfErr result (IsRefused (λ response. TakenAre name.now modules.now library.now (Err response))) }
{
    match library.take(alloc, modules) {
        Ok(taken) => Ok(taken),
        Err(LibFault::TooMany) => {
            let number = LibCode::TooMany.number();
            Err(byte_refusal(alloc, name, 0, b"B", number))
        }
        Err(LibFault::NoMemory) => Err(Refusal::NoMemory),
        Err(_) => unreachable!(),
    }
}
