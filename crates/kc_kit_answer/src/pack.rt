// The command that packs objects into a library.
ghost use Rattle.std.specs.Prelude.{◌≡◌, ◌<◌, ◌^◌, All, length, map, string_bytes};
ghost use Rattle.kc_obj_module.specs.Spelling.{spelling};
ghost use Rattle.kc_lib.specs.Names.{doubled};
ghost use Rattle.kc_kit_files.specs.Reads.{AllShort};
ghost use Rattle.kc_kit_words.specs.Asked.{asked, AreFew, IsWithin};
ghost use Rattle.kc_kit_answer.specs.Jobs.{IsPrepared, Prepares};
ghost use Rattle.kc_kit_answer.specs.Pack.{PackAnswer, packed};

use crate::job::Job;
use crate::writing::writing;
use kc_base::Files;
use kc_kit_files::{Refusal, read_files};
use kc_kit_inputs::read_objects;
use kc_kit_messages::{Origins, link_refusal};
use kc_kit_running::Output;
use kc_kit_words::{Command, Pack};
use kc_lib::LibFault;
use kc_link::LinkFault;
use kc_obj_module::Module;
use std::alloc::Global;

/// Reads objects and packs the library that is to be written.
pub fn prepare_pack<'a, F: Files>(
    alloc: Global,
    pack: &Pack<'a>,
    files: &mut F,
) -> Result<Job<'a>, Refusal>
    requires { IsWithin (Command.Pack pack.now) }
    ensures { Prepares F.held F.read_faults F.write_faults (asked (Command.Pack pack.now)) files.old result files.new }
{
    match read_files(alloc, pack.files, files) {
        Ok(texts) => pack_texts(alloc, pack, &texts),
        Err(refusal) => Err(refusal),
    }
}

// Packs the objects of some texts.
fn pack_texts<'a>(alloc: Global, pack: &Pack<'a>, texts: &[Vec<u8>]) -> Result<Job<'a>, Refusal>
    requires within { AreFew (length pack.now.files.now) }
    requires count { length texts.now ≡ length pack.now.files.now }
    requires short { AllShort (map (λ t. t.items) texts.now) }
    ensures { IsPrepared (PackAnswer (map string_bytes pack.now.files.now) pack.now.out.now (map (λ t. t.items) texts.now)) result }
{
    match read_objects(alloc, pack.files, texts) {
        Ok(modules) => pack_modules(alloc, pack, &modules),
        Err(refusal) => Err(refusal),
    }
}

// Packs modules, one of each file.
fn pack_modules<'a>(alloc: Global, pack: &Pack<'a>, modules: &[Module]) -> Result<Job<'a>, Refusal>
    requires few { AreFew (length modules.now) }
    requires short { All (λ m. length (spelling m) < 2 ^ 32) modules.now }
    ensures { IsPrepared (λ response. response ≡ packed (map string_bytes pack.now.files.now) pack.now.out.now modules.now (doubled modules.now)) result }
{
    match kc_lib::pack(alloc, modules) {
        Ok(bytes) => {
            let file = Output {
                name: pack.out,
                bytes,
            };
            writing(alloc, file, None, None)
        }
        Err(LibFault::Duplicate(name)) => {
            let origins = Origins {
                files: pack.files,
                members: None,
            };
            let fault = LinkFault::OverlapName(name);
            Err(link_refusal(alloc, &origins, modules, &fault))
        }
        Err(LibFault::NoMemory) => Err(Refusal::NoMemory),
        Err(_) => unreachable!(),
    }
}
