// Objects read to modules.
ghost use Rattle.std.specs.Prelude.{◌≡◌, ◌≤◌, ◌<◌, ◌^◌, ◌++◌, ◌∷◌, [], Ok, Err, IfOk, IfErr, OnOk, All, length, map, string_bytes};
ghost use Rattle.kc_base.specs.Limits.{file_limit};
ghost use Rattle.kc_obj_module.specs.Spelling.{spelling};
ghost use Rattle.kc_kit_files.specs.Response.{IsRefused};
ghost use Rattle.kc_kit_files.specs.Reads.{AllShort};
ghost use Rattle.kc_kit_inputs.specs.Objects.{object_of, modules_of};

use crate::input_lines::byte_refusal;
use kc_base::NoMemory;
use kc_kit_files::Refusal;
use kc_obj::{ObjFault, decode};
use kc_obj_module::Module;
use std::alloc::Global;

// The module of an object, or the refusal of its first fault.
fn read_object(alloc: Global, name: &str, bytes: &[u8]) -> Result<Module, Refusal>
    requires { length bytes.now ≤ file_limit }
    ensures object { IfOk result (λ m. object_of name.now bytes.now ≡ Ok m) }
    ensures short { IfOk result (λ m. length (spelling m) < 2 ^ 32) }
    ensures refusal { IfErr result (IsRefused (λ response. object_of name.now bytes.now ≡ Err response)) }
{
    match decode(alloc, bytes) {
        Ok(object) => Ok(object),
        Err(ObjFault::At { at, code }) => Err(byte_refusal(alloc, name, at, b"O", code)),
        Err(ObjFault::NoMemory) => Err(Refusal::NoMemory),
    }
}

fn push(modules: &mut Vec<Module>, object: Module) -> Result<(), NoMemory>
    ensures { OnOk result (modules.new.items ≡ modules.old.items ++ object ∷ []) }
{
    modules.push(object)?;
    Ok(())
}

/// The modules of some objects, or the refusal of the first with a fault.
pub fn read_objects(
    alloc: Global,
    names: &[String],
    texts: &[Vec<u8>],
) -> Result<Vec<Module>, Refusal>
    requires count { length texts.now ≡ length names.now }
    requires short { AllShort (map (λ t. t.items) texts.now) }
    ensures objects { IfOk result (λ ms. modules_of object_of (map string_bytes names.now) (map (λ t. t.items) texts.now) ≡ Ok ms.items) }
    ensures count { IfOk result (λ ms. length ms.items ≡ length names.now) }
    ensures short { IfOk result (λ ms. All (λ m. length (spelling m) < 2 ^ 32) ms.items) }
    ensures refusal { IfErr result (IsRefused (λ response. modules_of object_of (map string_bytes names.now) (map (λ t. t.items) texts.now) ≡ Err response)) }
{
    let mut modules = Vec::new(alloc);
    for i in 0..names.len() {
        match read_object(alloc, names[i].as_str(), &texts[i]) {
            Ok(object) => push(&mut modules, object)?,
            Err(refusal) => return Err(refusal),
        }
    }
    Ok(modules)
}
