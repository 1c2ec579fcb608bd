// Boards that are to be run.
ghost use Rattle.std.specs.Prelude.{◌≡◌, ◌≤◌, length, map, string_bytes, Some};
ghost use Rattle.kc_base.specs.Limits.{file_limit};
ghost use Rattle.kc_link.specs.Placed.{ArePlacedAt};
ghost use Rattle.kc_kit_files.specs.Reads.{AllShort};
ghost use Rattle.kc_kit_words.specs.Asked.{AreLinkable};
ghost use Rattle.kc_kit_inputs.specs.Driving.{given_in, AreShort};
ghost use Rattle.kc_kit_inputs.specs.FaultDiagnostics.{IsFaultDiagnostic};
ghost use Rattle.kc_kit_answer.specs.Hex.{HexReported};
ghost use Rattle.kc_kit_answer.specs.Jobs.{IsBoard, IsBoardOfSources};
ghost use Rattle.kc_kit_answer.specs.Places.{Placing};
ghost use Rattle.kc_kit_answer.specs.Run.{Driven, FilledReported, RunReported, SourcesReported};
ghost use Rattle.kc_kit_running.specs.Sources.{ArePlacedIn, lines_in, lines_of_files};

use crate::placing::place_modules;
use kc_asm::linked_image;
use kc_kit_files::Refusal;
use kc_kit_inputs::{Given, assemble_sources, driving_in, image_of};
use kc_kit_messages::Origins;
use kc_kit_running::{Board, Sources};
use kc_kit_words::Ranges;
use kc_link::{Placement, image_at};
use kc_obj_module::Module;
use kc_source_laws::sources_are_read_well;
use std::alloc::Global;

/// The board of a hex file by its name and its text, with what given files drive; or the refusal of the first fault.
pub(crate) fn board_of_hex(
    alloc: Global,
    name: &str,
    text: &[u8],
    given: Given<'_>,
) -> Result<Board, Refusal>
    requires text { length text.now ≤ file_limit }
    requires given { AreShort given }
    ensures { IsBoard (HexReported name.now (given_in given.entry) text.now) result }
{
    let image = match image_of(alloc, name, text) {
        Ok(image) => image,
        Err(refusal) => return Err(refusal),
    };
    match driving_in(alloc, given) {
        Ok(driving) => Ok(Board { image, driving }),
        Err(refusal) => Err(refusal),
    }
}

/// The board of the image that is linked from sources by their names and texts, with what given files drive; or the refusal
/// of the first fault or broken rule.
pub(crate) fn board_of_sources(
    alloc: Global,
    names: &[String],
    texts: &[Vec<u8>],
    placing: &Ranges,
    given: Given<'_>,
) -> Result<Board, Refusal>
    requires linkable { AreLinkable (length names.now) placing.now }
    requires count { length texts.now ≡ length names.now }
    requires short { AllShort (map (λ t. t.items) texts.now) }
    requires given { AreShort given }
    ensures { IsBoard (SourcesReported IsFaultDiagnostic (map string_bytes names.now) (given_in given.entry) placing.now (map (λ t. t.items) texts.now)) result }
{
    sources_are_read_well();
    linked_image();
    match assemble_sources(alloc, names, texts) {
        Ok(modules) => board_of_modules(alloc, names, &modules, placing, given),
        Err(refusal) => Err(refusal),
    }
}

/// The same board with its sources.
pub(crate) fn board_with_sources<'a>(
    alloc: Global,
    names: &'a [String],
    texts: &[Vec<u8>],
    placing: &Ranges,
    given: Given<'_>,
) -> Result<(Board, Sources<'a>), Refusal>
    requires linkable { AreLinkable (length names.now) placing.now }
    requires count { length texts.now ≡ length names.now }
    requires short { AllShort (map (λ t. t.items) texts.now) }
    requires given { AreShort given }
    ensures { IsBoardOfSources (RunReported IsFaultDiagnostic (map string_bytes names.now) (given_in given.entry) placing.now (map (λ t. t.items) texts.now)) result }
{
    sources_are_read_well();
    linked_image();
    match assemble_sources(alloc, names, texts) {
        Ok(modules) => board_with_modules(alloc, names, modules, placing, given),
        Err(refusal) => Err(refusal),
    }
}

// The board of the image that is linked from the modules of files, with these.
fn board_with_modules<'a>(
    alloc: Global,
    files: &'a [String],
    modules: Vec<Module>,
    placing: &Ranges,
    given: Given<'_>,
) -> Result<(Board, Sources<'a>), Refusal>
    requires linkable { AreLinkable (length modules.items) placing.now }
    requires given { AreShort given }
    ensures { IsBoardOfSources (λ report. Placing (map string_bytes files.now) placing.now (λ ms places. Driven (given_in given.entry) FilledReported (report (lines_of_files (map string_bytes files.now) ms places)) ms places) modules.items) result }
{
    let origins = Origins {
        files,
        members: None,
    };
    let placement = match place_modules(alloc, &origins, &modules, placing) {
        Ok(placement) => placement,
        Err(refusal) => return Err(refusal),
    };
    match board_at(alloc, &modules, &placement, given) {
        Ok(board) => Ok((board, sources_of(files, modules, placement))),
        Err(refusal) => Err(refusal),
    }
}

/// The sources of an image, of modules at their places.
pub(crate) fn sources_of<'a>(
    files: &'a [String],
    modules: Vec<Module>,
    placement: Placement,
) -> Sources<'a>
    requires { ArePlacedAt modules.items placement }
    ensures placed { ArePlacedIn (Some result) }
    ensures lines { lines_in (Some result) ≡ lines_of_files (map string_bytes files.now) modules.items placement.places }
{
    Sources {
        files,
        modules,
        placement,
    }
}

// The board of the image that is linked from modules.
fn board_of_modules(
    alloc: Global,
    names: &[String],
    modules: &[Module],
    placing: &Ranges,
    given: Given<'_>,
) -> Result<Board, Refusal>
    requires linkable { AreLinkable (length modules.now) placing.now }
    requires given { AreShort given }
    ensures { IsBoard (λ report. Placing (map string_bytes names.now) placing.now (Driven (given_in given.entry) FilledReported report) modules.now) result }
{
    let origins = Origins {
        files: names,
        members: None,
    };
    match place_modules(alloc, &origins, modules, placing) {
        Ok(placement) => board_at(alloc, modules, &placement, given),
        Err(refusal) => Err(refusal),
    }
}

/// The board of the image of modules at their places, with what given files drive; or the refusal of the first fault in those.
pub(crate) fn board_at(
    alloc: Global,
    modules: &[Module],
    placement: &Placement,
    given: Given<'_>,
) -> Result<Board, Refusal>
    requires placed { ArePlacedAt modules.now placement.now }
    requires given { AreShort given }
    ensures { IsBoard (λ report. Driven (given_in given.entry) FilledReported report modules.now placement.now.places) result }
{
    let Ok(image) = image_at(alloc, modules, placement) else {
        return Err(Refusal::NoMemory);
    };
    match driving_in(alloc, given) {
        Ok(driving) => Ok(Board { image, driving }),
        Err(refusal) => Err(refusal),
    }
}
