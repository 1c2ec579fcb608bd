// The command that links objects.
ghost use Rattle.std.specs.Prelude.{◌≡◌, ◌≤◌, ◌++◌, ℕ, Some, IfOk, List, length, map, string_bytes};
ghost use Rattle.kc_base.specs.Limits.{file_limit};
ghost use Rattle.kc_link_place.specs.Placements.{IsPlacement};
ghost use Rattle.kc_link.specs.Placed.{placed, ArePlacedAt};
ghost use Rattle.kc_link.specs.LineMap.{IsLineMap};
ghost use Rattle.kc_link.specs.declared.lines.LineAt.{LineAt};
ghost use Rattle.kc_kit_files.specs.Reads.{AllShort};
ghost use Rattle.kc_kit_words.specs.Asked.{asked, beside_in, AreLinkable, IsWithin};
ghost use Rattle.kc_kit_words.specs.Inputs.{inputs_in};
ghost use Rattle.kc_kit_answer.specs.Jobs.{IsPrepared, Prepares, maybe_written};
ghost use Rattle.kc_kit_answer.specs.Lines.{map_text};
ghost use Rattle.kc_kit_answer.specs.Link.{Completed, LinkAnswer, LinksTo, IsMap, map_writes};
ghost use Rattle.kc_kit_messages.specs.Origins.{words_of};
ghost use Rattle.kc_kit_answer.specs.Places.{Placing};

use crate::job::Job;
use crate::line_map::map_text;
use crate::placing::place_modules;
use crate::writing::writing;
use kc_base::{Files, NoMemory};
use kc_kit_files::{Refusal, read_files};
use kc_kit_inputs::{input_for, read_inputs, read_library, read_objects, take_members};
use kc_kit_messages::{Members, Origins};
use kc_kit_running::Output;
use kc_kit_words::{Command, Link, Role};
use kc_link::{Placement, image_at, lines_at, map_at};
use kc_obj_module::Module;
use std::alloc::Global;

/// Reads objects, and a library where one is named, and links them to the files that are to be written.
pub fn prepare_link<'a, F: Files>(
    alloc: Global,
    link: &Link<'a>,
    files: &mut F,
) -> Result<Job<'a>, Refusal>
    requires { IsWithin (Command.Link link.now) }
    ensures { Prepares F.held F.read_faults F.write_faults (asked (Command.Link link.now)) files.old result files.new }
{
    let texts = match read_files(alloc, link.files, files) {
        Ok(texts) => texts,
        Err(refusal) => return Err(refusal),
    };
    match read_inputs(alloc, link.inputs, files) {
        Ok(inputs) => link_texts(alloc, link, &texts, &inputs),
        Err(refusal) => Err(refusal),
    }
}

// Links the objects of some texts, over inputs with others.
fn link_texts<'a>(
    alloc: Global,
    link: &Link<'a>,
    texts: &[Vec<u8>],
    inputs: &[Vec<u8>],
) -> Result<Job<'a>, Refusal>
    requires within { IsWithin (Command.Link link.now) }
    requires count { length texts.now ≡ length link.now.files.now }
    requires short { AllShort (map (λ t. t.items) texts.now) }
    requires inputs { AllShort (map (λ t. t.items) inputs.now) }
    ensures { IsPrepared (LinkAnswer (map string_bytes link.now.files.now) (inputs_in link.now.inputs) link.now.out.now (beside_in link.now.beside) link.now.placing (map (λ t. t.items) texts.now) (map (λ t. t.items) inputs.now)) result }
{
    let modules = match read_objects(alloc, link.files, texts) {
        Ok(modules) => modules,
        Err(refusal) => return Err(refusal),
    };
    match input_for(Role::Library, link.inputs, inputs) {
        Some((name, bytes)) => link_library(alloc, link, modules, name, bytes),
        None => {
            let origins = Origins {
                files: link.files,
                members: None,
            };
            link_modules(alloc, link, &origins, &modules)
        }
    }
}

// Links modules with the members that they take from a library by its name and its bytes.
fn link_library<'a>(
    alloc: Global,
    link: &Link<'a>,
    modules: Vec<Module>,
    name: &str,
    bytes: &[u8],
) -> Result<Job<'a>, Refusal>
    requires linkable { AreLinkable (length modules.items) link.now.placing }
    requires count { length modules.items ≡ length link.now.files.now }
    requires short { length bytes.now ≤ file_limit }
    ensures { IsPrepared (Completed (map string_bytes link.now.files.now) (Some (name.now, bytes.now)) (λ files. Placing files link.now.placing (LinksTo link.now.out.now (beside_in link.now.beside) link.now.placing)) modules.items) result }
{
    let library = match read_library(alloc, name, bytes) {
        Ok(library) => library,
        Err(refusal) => return Err(refusal),
    };
    let taken = match take_members(alloc, name, &library, &modules) {
        Ok(taken) => taken,
        Err(refusal) => return Err(refusal),
    };
    let all = match joined(modules, taken) {
        Ok(all) => all,
        Err(NoMemory) => return Err(Refusal::NoMemory),
    };
    let (_, taken) = all.split_at(link.files.len());
    let origins = Origins {
        files: link.files,
        members: Some(Members {
            library: name,
            taken,
        }),
    };
    link_modules(alloc, link, &origins, &all)
}

// Modules, and others behind them.
fn joined(mut modules: Vec<Module>, others: Vec<Module>) -> Result<Vec<Module>, NoMemory>
    ensures { IfOk result (λ all. all.items ≡ modules.items ++ others.items) }
{
    let mut others = others;
    modules.append(&mut others)?;
    Ok(modules)
}

// Links modules from these files.
fn link_modules<'a>(
    alloc: Global,
    link: &Link<'a>,
    origins: &Origins<'_, '_, '_>,
    modules: &[Module],
) -> Result<Job<'a>, Refusal>
    requires { AreLinkable (length modules.now) link.now.placing }
    ensures { IsPrepared (Placing (words_of origins.now) link.now.placing (LinksTo link.now.out.now (beside_in link.now.beside) link.now.placing) modules.now) result }
{
    match place_modules(alloc, origins, modules, &link.placing) {
        Ok(placement) => outputs(alloc, link, modules, &placement),
        Err(refusal) => Err(refusal),
    }
}

// The files of modules at their places: the hex file of the image, and those beside it that are asked for.
fn outputs<'a>(
    alloc: Global,
    link: &Link<'a>,
    modules: &[Module],
    placement: &Placement,
) -> Result<Job<'a>, Refusal>
    requires linkable { AreLinkable (length modules.now) link.now.placing }
    requires placed { IsPlacement modules.now (placed modules.now link.now.placing) placement.now }
    ensures { (names : List (List ℕ)) → IsPrepared (Placing names link.now.placing (LinksTo link.now.out.now (beside_in link.now.beside) link.now.placing) modules.now) result }
{
    let Ok(image) = image_at(alloc, modules, placement) else {
        return Err(Refusal::NoMemory);
    };
    let Ok(bytes) = kc_hex::write(alloc, &image) else {
        return Err(Refusal::NoMemory);
    };
    let file = Output {
        name: link.out,
        bytes,
    };
    match beside(alloc, link, modules, placement) {
        Ok((lines, map)) => writing(alloc, file, lines, map),
        Err(NoMemory) => Err(Refusal::NoMemory),
    }
}

// The files beside the hex file.
fn beside<'a>(
    alloc: Global,
    link: &Link<'a>,
    modules: &[Module],
    placement: &Placement,
) -> Result<(Option<Output<'a>>, Option<Output<'a>>), NoMemory>
    requires linkable { AreLinkable (length modules.now) link.now.placing }
    requires placed { ArePlacedAt modules.now placement.now }
    ensures lines { IfOk result (λ files. IsMap (beside_in link.now.beside).lines modules.now placement.now.places (maybe_written files.0)) }
    ensures map { IfOk result (λ files. maybe_written files.1 ≡ map_writes (beside_in link.now.beside).map modules.now link.now.placing placement.now.places) }
{
    let lines = lines_file(alloc, link, modules, placement)?;
    let map = map_file(alloc, link, modules, placement)?;
    Ok((lines, map))
}

// The line map of modules at their places, where one is asked for.
fn lines_file<'a>(
    alloc: Global,
    link: &Link<'a>,
    modules: &[Module],
    placement: &Placement,
) -> Result<Option<Output<'a>>, NoMemory>
    requires { ArePlacedAt modules.now placement.now }
    ensures { IfOk result (λ file. IsMap (beside_in link.now.beside).lines modules.now placement.now.places (maybe_written file)) }
{
    match link.beside.lines {
        None => Ok(None),
        Some(name) => {
            let bytes = lines_of(alloc, modules, placement)?;
            Ok(Some(Output { name, bytes }))
        }
    }
}

// The text of the line map of modules at their places.
fn lines_of(alloc: Global, modules: &[Module], placement: &Placement) -> Result<Vec<u8>, NoMemory>
    requires { ArePlacedAt modules.now placement.now }
    ensures { IfOk result (λ text. (entries : List LineAt) × IsLineMap modules.now placement.now.places entries × (text.items ≡ map_text entries)) }
{
    let entries = lines_at(alloc, modules, placement)?;
    map_text(alloc, &entries)
}

// The map of the pieces and names of modules at their places, where one is asked for.
fn map_file<'a>(
    alloc: Global,
    link: &Link<'a>,
    modules: &[Module],
    placement: &Placement,
) -> Result<Option<Output<'a>>, NoMemory>
    requires { AreLinkable (length modules.now) link.now.placing }
    ensures { IfOk result (λ file. maybe_written file ≡ map_writes (beside_in link.now.beside).map modules.now link.now.placing placement.now.places) }
{
    match link.beside.map {
        None => Ok(None),
        Some(name) => {
            let bytes = map_at(alloc, modules, &placement.places, &link.placing)?;
            Ok(Some(Output { name, bytes }))
        }
    }
}
