// What a linker's map, a line map and notes say of an image.
ghost use Rattle.std.specs.Prelude.{◌≡◌, ◌≤◌, Ok, Err, IfOk, IfErr, IfSome, length, map};
ghost use Rattle.std.specs.Option.{option_map};
ghost use Rattle.kc_base.specs.Limits.{file_limit};
ghost use Rattle.kc_bound.specs.Reading.{is_in_rom as is_rom, no_notes as spec_no_notes, notes_read};
ghost use Rattle.kc_debug_script.specs.Fields.{if_is};
ghost use Rattle.kc_kit_files.specs.Reads.{AllShort};
ghost use Rattle.kc_kit_files.specs.Response.{IsRefused};
ghost use Rattle.kc_kit_words.specs.Inputs.{inputs_in};
ghost use Rattle.kc_kit_inputs.specs.Annotations.{address_in, annotation_files as annotations_among, annotations_of, files_in, names_in as names_said, notes_in as notes_said, said_in, AreWithin};

use crate::input_lines::line_refusal;
use crate::reading::input_for;
use crate::scripts::lines_in;
use kc_addresses::{LineMap, MapFault, Names, hex_value};
use kc_base::{IMAGE_START, ROM_END};
use kc_bound::{Notes, NotesFault, address as noted_address};
use kc_kit_files::Refusal;
use kc_kit_words::{Inputs, Role};
use std::alloc::Global;

/// The files that say more of an image, each by its name and its text where there is one.
#[derive(Clone, Copy)]
pub struct AnnotationFiles<'a> {
    pub map: Option<(&'a str, &'a [u8])>,
    pub lines: Option<(&'a str, &'a [u8])>,
    pub notes: Option<(&'a str, &'a [u8])>,
}

/// Public names of an image, the lines of its sources, and notes on its instructions.
#[derive(Drop)]
pub struct Annotations {
    pub names: Names,
    pub lines: LineMap,
    pub notes: Notes,
}

/// The files among these inputs that say more of an image.
pub fn annotation_files<'a>(inputs: Inputs<'a>, texts: &'a [Vec<u8>]) -> AnnotationFiles<'a>
    requires { AllShort (map (λ t. t.items) texts.now) }
    ensures files { files_in result ≡ annotations_among (inputs_in inputs.entry) (map (λ t. t.items) texts.now) }
    ensures within { AreWithin result }
{
    AnnotationFiles {
        map: input_for(Role::Map, inputs, texts),
        lines: input_for(Role::Lines, inputs, texts),
        notes: input_for(Role::Notes, inputs, texts),
    }
}

// The public names of a map with a text, or the refusal of its first line that is none.
fn read_names(alloc: Global, name: &str, text: &[u8]) -> Result<Names, Refusal>
    requires { length text.now ≤ file_limit }
    ensures names { IfOk result (λ names. names_said (Some (name.now, text.now)) ≡ Ok names) }
    ensures refusal { IfErr result (IsRefused (λ response. names_said (Some (name.now, text.now)) ≡ Err response)) }
{
    match Names::read(alloc, text) {
        Ok(names) => Ok(names),
        Err(MapFault::BadLine(line)) => Err(line_refusal(alloc, name, text, line, b"BADNAMES")),
        Err(MapFault::NoMemory) => Err(Refusal::NoMemory),
    }
}

// The public names of a map by its name and its text, and none without one.
fn names_in(alloc: Global, file: Option<(&str, &[u8])>) -> Result<Names, Refusal>
    requires { IfSome file (λ f. length f.1.now ≤ file_limit) }
    ensures names { IfOk result (λ names. names_said (option_map (λ f. (f.0.now, f.1.now)) file.entry) ≡ Ok names) }
    ensures refusal { IfErr result (IsRefused (λ response. names_said (option_map (λ f. (f.0.now, f.1.now)) file.entry) ≡ Err response)) }
{
    match file {
        Some((name, text)) => read_names(alloc, name, text),
        None => Ok(Names::none(alloc)),
    }
}

// The notes with a text, or the refusal of their first line that is none.
fn read_notes(
    alloc: Global,
    names: &Names,
    lines: &LineMap,
    name: &str,
    text: &[u8],
) -> Result<Notes, Refusal>
    requires { length text.now ≤ file_limit }
    ensures notes { IfOk result (λ notes. notes_said names.now lines.now (Some (name.now, text.now)) ≡ Ok (notes_read notes)) }
    ensures refusal { IfErr result (IsRefused (λ response. notes_said names.now lines.now (Some (name.now, text.now)) ≡ Err response)) }
{
    match Notes::read(alloc, text, names, lines) {
        Ok(notes) => Ok(notes),
        Err(NotesFault::BadNote(line)) => Err(line_refusal(alloc, name, text, line, b"BADNOTE")),
        Err(NotesFault::NoMemory) => Err(Refusal::NoMemory),
    }
}

fn no_notes(alloc: Global) -> Notes
    ensures { notes_read result ≡ spec_no_notes }
{
    Notes {
        loops: Vec::new(alloc),
        goes: Vec::new(alloc),
        words: Vec::new(alloc),
        ends: Vec::new(alloc),
    }
}

// The notes of a file by its name and its text, and none without one.
fn notes_in(
    alloc: Global,
    names: &Names,
    lines: &LineMap,
    file: Option<(&str, &[u8])>,
) -> Result<Notes, Refusal>
    requires { IfSome file (λ f. length f.1.now ≤ file_limit) }
    ensures notes { IfOk result (λ notes. notes_said names.now lines.now (option_map (λ f. (f.0.now, f.1.now)) file.entry) ≡ Ok (notes_read notes)) }
    ensures refusal { IfErr result (IsRefused (λ response. notes_said names.now lines.now (option_map (λ f. (f.0.now, f.1.now)) file.entry) ≡ Err response)) }
{
    match file {
        Some((name, text)) => read_notes(alloc, names, lines, name, text),
        None => Ok(no_notes(alloc)),
    }
}

/// What files say of an image, or the refusal of the first fault: the map is checked first, then the line map, and the notes last.
pub fn annotations_in(alloc: Global, files: AnnotationFiles<'_>) -> Result<Annotations, Refusal>
    requires { AreWithin files }
    ensures annotations { IfOk result (λ annotations. annotations_of (files_in files.entry) ≡ Ok (said_in annotations)) }
    ensures refusal { IfErr result (IsRefused (λ response. annotations_of (files_in files.entry) ≡ Err response)) }
{
    let names = match names_in(alloc, files.map) {
        Ok(names) => names,
        Err(refusal) => return Err(refusal),
    };
    let lines = match lines_in(alloc, files.lines) {
        Ok(lines) => lines,
        Err(refusal) => return Err(refusal),
    };
    match notes_in(alloc, &names, &lines, files.notes) {
        Ok(notes) => Ok(Annotations {
            names,
            lines,
            notes,
        }),
        Err(refusal) => Err(refusal),
    }
}

// A number, where it is an address of the ROM.
fn in_rom(number: u64) -> Option<u16>
    ensures { result ≡ if_is is_rom (Some number) }
{
    if u64::from(IMAGE_START) <= number && number < u64::from(ROM_END) {
        Some(number as u16)
    } else {
        None
    }
}

/// The address of the ROM that a word stands for: four hex digits or a hexadecimal number of the assembler, a public name, or a line of
/// a module. `None` where it stands for none.
pub fn address(annotations: &Annotations, word: &str) -> Option<u16>
    ensures { result ≡ address_in (said_in annotations.now) word.now }
{
    let word = word.as_bytes();
    match hex_value(0xFFFF, word) {
        Some(number) => in_rom(number),
        None => noted_address(&annotations.names, &annotations.lines, word),
    }
}
