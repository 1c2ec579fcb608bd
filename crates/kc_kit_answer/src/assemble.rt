// The command that assembles a source to an object.
ghost use Rattle.std.specs.Prelude.{◌≤◌, length, IfOk};
ghost use Rattle.kc_base.specs.Limits.{file_limit};
ghost use Rattle.std.specs.Option.{option_map};
ghost use Rattle.kc_asm.specs.Assembled.{IsModule};
ghost use Rattle.kc_kit_inputs.specs.FaultDiagnostics.{IsFaultDiagnostic};
ghost use Rattle.kc_kit_words.specs.Asked.{asked};
ghost use Rattle.kc_kit_answer.specs.Assemble.{AreListings, AssembleAnswer};
ghost use Rattle.kc_kit_answer.specs.Jobs.{IsPrepared, Prepares, maybe_written};

use crate::job::Job;
use crate::writing::writing;
use kc_asm_list::listing;
use kc_base::{Files, NoMemory};
use kc_kit_files::{Refusal, read_file};
use kc_kit_inputs::assemble_source;
use kc_kit_running::Output;
use kc_kit_words::{Assemble, Command};
use kc_lex::SourceFault;
use kc_obj_module::{Module, encode};
use std::alloc::Global;

/// Reads a source and assembles the object that is to be written.
pub fn prepare_assemble<'a, F: Files>(
    alloc: Global,
    assemble: &Assemble<'a>,
    files: &mut F,
) -> Result<Job<'a>, Refusal>
    ensures { Prepares F.held F.read_faults F.write_faults (asked (Command.Assemble assemble.now)) files.old result files.new }
{
    match read_file(alloc, assemble.file, files) {
        Ok(text) => object_text(alloc, assemble, &text),
        Err(refusal) => Err(refusal),
    }
}

// The object of the source with a text.
fn object_text<'a>(alloc: Global, assemble: &Assemble<'a>, text: &[u8]) -> Result<Job<'a>, Refusal>
    requires { length text.now ≤ file_limit }
    ensures { IsPrepared (AssembleAnswer IsFaultDiagnostic assemble.now.file.now assemble.now.out.now (option_map (λ l. l.now) assemble.now.list) text.now) result }
{
    let made = match assemble_source(alloc, assemble.file, text) {
        Ok(made) => made,
        Err(refusal) => return Err(refusal),
    };
    let Ok(bytes) = encode(alloc, &made) else {
        return Err(Refusal::NoMemory);
    };
    let file = Output {
        name: assemble.out,
        bytes,
    };
    match listing_file(alloc, assemble, text, &made) {
        Ok(list) => writing(alloc, file, None, list),
        Err(NoMemory) => Err(Refusal::NoMemory),
    }
}

// The listing of a source with its module, where one is asked for.
fn listing_file<'a>(
    alloc: Global,
    assemble: &Assemble<'a>,
    text: &[u8],
    made: &Module,
) -> Result<Option<Output<'a>>, NoMemory>
    requires short { length text.now ≤ file_limit }
    requires made { IsModule text.now made.now }
    ensures { IfOk result (λ file. AreListings (option_map (λ l. l.now) assemble.now.list) text.now made.now (maybe_written file)) }
{
    match assemble.list {
        None => Ok(None),
        Some(name) => match listing(alloc, text, made) {
            Ok(bytes) => Ok(Some(Output { name, bytes })),
            Err(SourceFault::NoMemory) => Err(NoMemory),
            Err(_) => unreachable!(),
        },
    }
}
