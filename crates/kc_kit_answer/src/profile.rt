// The commands that run a board and write where its states go.
ghost use Rattle.std.specs.Prelude.{◌≡◌, ◌≤◌, IfOk, length, map, string_bytes};
ghost use Rattle.kc_base.specs.Limits.{file_limit};
ghost use Rattle.kc_link.specs.Placed.{ArePlacedAt};
ghost use Rattle.kc_kit_files.specs.Reads.{AllShort};
ghost use Rattle.kc_kit_words.specs.Asked.{asked, behind_in, AreLinkable, IsBounded, IsWithin};
ghost use Rattle.kc_kit_words.specs.Inputs.{inputs_in};
ghost use Rattle.kc_kit_inputs.specs.Driving.{given_in, AreShort};
ghost use Rattle.kc_kit_inputs.specs.FaultDiagnostics.{IsFaultDiagnostic};
ghost use Rattle.kc_kit_inputs.specs.Sources.{AreModules};
ghost use Rattle.kc_kit_running.specs.Profiled.{known};
ghost use Rattle.kc_kit_running.specs.Sources.{ArePlacedIn};
ghost use Rattle.kc_kit_answer.specs.Jobs.{IsBoardWithLines, IsPrepared, Prepares};
ghost use Rattle.kc_kit_answer.specs.Places.{Placing};
ghost use Rattle.kc_kit_answer.specs.Profile.{map_entry, AreEntries, AreLines, DrivenWithLines, FilledWithLines, LinesReported, ProfileAnswer, ProfileHexAnswer};

use crate::board::{board_of_hex, sources_of};
use crate::cover::sources_at;
use crate::job::Job;
use crate::placing::place_modules;
use kc_asm::linked_image;
use kc_base::{Files, Image, NoMemory};
use kc_debug_script::MapEntry;
use kc_kit_files::{Refusal, read_file, read_files};
use kc_kit_inputs::{Given, assemble_sources, driving_in, given_for, read_inputs};
use kc_kit_messages::Origins;
use kc_kit_running::{Board, Lines};
use kc_kit_words::{Behind, Command, Profile, ProfileHex, Ranges};
use kc_link::{LineAt, Placement, image_at, lines_at};
use kc_obj_module::Module;
use kc_source_laws::sources_are_read_well;
use std::alloc::Global;

// ---- a hex file

/// Reads a hex file that is to be run and of which a profile is written, and what drives the inputs.
pub fn prepare_profile_hex<'a, F: Files>(
    alloc: Global,
    run: &ProfileHex<'a>,
    files: &mut F,
) -> Result<Job<'a>, Refusal>
    requires { IsWithin (Command.ProfileHex run.now) }
    ensures { Prepares F.held F.read_faults F.write_faults (asked (Command.ProfileHex run.now)) files.old result files.new }
{
    let text = match read_file(alloc, run.file, files) {
        Ok(text) => text,
        Err(refusal) => return Err(refusal),
    };
    match read_inputs(alloc, run.inputs, files) {
        Ok(inputs) => profile_hex(alloc, run, &text, &inputs),
        Err(refusal) => Err(refusal),
    }
}

// The run of the hex file with a text, over inputs with others.
fn profile_hex<'a>(
    alloc: Global,
    run: &ProfileHex<'a>,
    text: &[u8],
    inputs: &[Vec<u8>],
) -> Result<Job<'a>, Refusal>
    requires bounded { IsBounded run.now.extent }
    requires short { length text.now ≤ file_limit }
    requires inputs { AllShort (map (λ t. t.items) inputs.now) }
    ensures { IsPrepared (ProfileHexAnswer run.now.file.now (inputs_in run.now.inputs) run.now.extent run.now.out.now text.now (map (λ t. t.items) inputs.now)) result }
{
    let given = given_for(run.inputs, inputs);
    match board_of_hex(alloc, run.file, text, given) {
        Ok(board) => Ok(Job::Profile {
            board,
            extent: run.extent,
            lines: Lines {
                entries: Vec::new(alloc),
                sources: Vec::new(alloc),
                linked: None,
            },
            behind: Behind {
                profile: Some(run.out),
                cover: None,
            },
        }),
        Err(refusal) => Err(refusal),
    }
}

// ---- sources

/// Reads sources and what drives the inputs, assembles and links the image that is to be run and of which a profile is written.
pub fn prepare_profile<'a, F: Files>(
    alloc: Global,
    run: &Profile<'a>,
    files: &mut F,
) -> Result<Job<'a>, Refusal>
    requires { IsWithin (Command.Profile run.now) }
    ensures { Prepares F.held F.read_faults F.write_faults (asked (Command.Profile run.now)) files.old result files.new }
{
    let texts = match read_files(alloc, run.files, files) {
        Ok(texts) => texts,
        Err(refusal) => return Err(refusal),
    };
    match read_inputs(alloc, run.inputs, files) {
        Ok(inputs) => profile_texts(alloc, run, &texts, &inputs),
        Err(refusal) => Err(refusal),
    }
}

// The run of the sources with some texts, over inputs with others.
fn profile_texts<'a>(
    alloc: Global,
    run: &Profile<'a>,
    texts: &[Vec<u8>],
    inputs: &[Vec<u8>],
) -> Result<Job<'a>, Refusal>
    requires within { IsWithin (Command.Profile run.now) }
    requires count { length texts.now ≡ length run.now.files.now }
    requires short { AllShort (map (λ t. t.items) texts.now) }
    requires inputs { AllShort (map (λ t. t.items) inputs.now) }
    ensures { IsPrepared (ProfileAnswer IsFaultDiagnostic (map string_bytes run.now.files.now) (inputs_in run.now.inputs) run.now.extent run.now.placing (behind_in run.now.behind) (map (λ t. t.items) texts.now) (map (λ t. t.items) inputs.now)) result }
{
    let given = given_for(run.inputs, inputs);
    match board_and_lines(alloc, run.files, texts, &run.placing, given) {
        Ok((board, lines)) => Ok(Job::Profile {
            board,
            extent: run.extent,
            lines,
            behind: run.behind,
        }),
        Err(refusal) => Err(refusal),
    }
}

// The board of the image that is linked from sources by their names and texts, with what given files drive, and what is known of
// their lines; or the refusal of the first fault or broken rule.
fn board_and_lines<'a>(
    alloc: Global,
    names: &'a [String],
    texts: &[Vec<u8>],
    placing: &Ranges,
    given: Given<'_>,
) -> Result<(Board, Lines<'a>), Refusal>
    requires linkable { AreLinkable (length names.now) placing.now }
    requires count { length texts.now ≡ length names.now }
    requires short { AllShort (map (λ t. t.items) texts.now) }
    requires given { AreShort given }
    ensures { IsBoardWithLines (LinesReported IsFaultDiagnostic (map string_bytes names.now) (given_in given.entry) placing.now (map (λ t. t.items) texts.now)) result }
{
    sources_are_read_well();
    linked_image();
    match assemble_sources(alloc, names, texts) {
        Ok(modules) => linked(alloc, names, texts, modules, placing, given),
        Err(refusal) => Err(refusal),
    }
}

// The board of the image that is linked from modules, and what is known of the lines of their sources.
fn linked<'a>(
    alloc: Global,
    names: &'a [String],
    texts: &[Vec<u8>],
    modules: Vec<Module>,
    placing: &Ranges,
    given: Given<'_>,
) -> Result<(Board, Lines<'a>), Refusal>
    requires linkable { AreLinkable (length modules.items) placing.now }
    requires count { length texts.now ≡ length names.now }
    requires made { AreModules (map (λ t. t.items) texts.now) modules.items }
    requires short { AllShort (map (λ t. t.items) texts.now) }
    requires given { AreShort given }
    ensures { IsBoardWithLines (λ report. Placing (map string_bytes names.now) placing.now (DrivenWithLines (given_in given.entry) (FilledWithLines (map string_bytes names.now) (map (λ t. t.items) texts.now)) report) modules.items) result }
{
    let origins = Origins {
        files: names,
        members: None,
    };
    match place_modules(alloc, &origins, &modules, placing) {
        Ok(placement) => linked_at(alloc, names, texts, modules, placement, given),
        Err(refusal) => Err(refusal),
    }
}

// The board of the image of modules at their places, and what is known of the lines of their sources.
fn linked_at<'a>(
    alloc: Global,
    names: &'a [String],
    texts: &[Vec<u8>],
    modules: Vec<Module>,
    placement: Placement,
    given: Given<'_>,
) -> Result<(Board, Lines<'a>), Refusal>
    requires placed { ArePlacedAt modules.items placement }
    requires count { length texts.now ≡ length names.now }
    requires made { AreModules (map (λ t. t.items) texts.now) modules.items }
    requires short { AllShort (map (λ t. t.items) texts.now) }
    requires given { AreShort given }
    ensures { IsBoardWithLines (λ report. DrivenWithLines (given_in given.entry) (FilledWithLines (map string_bytes names.now) (map (λ t. t.items) texts.now)) report modules.items placement.places) result }
{
    let Ok(image) = image_at(alloc, &modules, &placement) else {
        return Err(Refusal::NoMemory);
    };
    let lines = match lines_of(alloc, names, texts, modules, placement, &image) {
        Ok(lines) => lines,
        Err(NoMemory) => return Err(Refusal::NoMemory),
    };
    match driving_in(alloc, given) {
        Ok(driving) => Ok((Board { image, driving }, lines)),
        Err(refusal) => Err(refusal),
    }
}

// What is known of the lines of sources, with their modules at their places in an image.
fn lines_of<'a>(
    alloc: Global,
    names: &'a [String],
    texts: &[Vec<u8>],
    modules: Vec<Module>,
    placement: Placement,
    image: &Image,
) -> Result<Lines<'a>, NoMemory>
    requires placed { ArePlacedAt modules.items placement }
    requires count { length texts.now ≡ length names.now }
    requires made { AreModules (map (λ t. t.items) texts.now) modules.items }
    requires short { AllShort (map (λ t. t.items) texts.now) }
    ensures placed { IfOk result (λ lines. ArePlacedIn lines.linked) }
    ensures lines { IfOk result (λ lines. AreLines (map string_bytes names.now) (map (λ t. t.items) texts.now) image.now modules.items placement.places (known lines)) }
{
    let entries = entries_at(alloc, &modules, &placement)?;
    let sources = sources_at(alloc, names, texts, &modules, &placement, image)?;
    Ok(Lines {
        entries,
        sources,
        linked: Some(sources_of(names, modules, placement)),
    })
}

// The entries of the line map of modules at their places.
fn entries_at(
    alloc: Global,
    modules: &[Module],
    placement: &Placement,
) -> Result<Vec<MapEntry>, NoMemory>
    requires { ArePlacedAt modules.now placement.now }
    ensures { IfOk result (λ entries. AreEntries modules.now placement.now.places entries.items) }
{
    let lines = lines_at(alloc, modules, placement)?;
    entries_of(alloc, lines)
}

fn entry_of(line: LineAt) -> MapEntry
    ensures { result ≡ map_entry line }
{
    MapEntry {
        addr: line.addr,
        name: line.name,
        line: line.line,
    }
}

// The entries of a line map that are handed on.
fn entries_of(alloc: Global, lines: Vec<LineAt>) -> Result<Vec<MapEntry>, NoMemory>
    ensures { IfOk result (λ entries. entries.items ≡ map map_entry lines.items) }
{
    let mut entries = Vec::with_capacity(alloc, lines.len())?;
    for line in lines {
        entries.push(entry_of(line))?;
    }
    Ok(entries)
}
