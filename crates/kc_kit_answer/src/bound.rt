// The command that bounds the states of a routine.
ghost use Rattle.std.specs.Prelude.{◌≡◌, ◌≤◌, Ok, Err, IfOk, IfErr, length, map};
ghost use Rattle.std.specs.Option.{option_map};
ghost use Rattle.kc_base.specs.Limits.{file_limit};
ghost use Rattle.kc_bound.specs.Reading.{notes_read};
ghost use Rattle.kc_kit_files.specs.Reads.{AllShort};
ghost use Rattle.kc_kit_files.specs.declared.status.Status.TheVariants as status;
ghost use Rattle.kc_kit_files.specs.Response.{says, reports, IsRefused};
ghost use Rattle.kc_kit_words.specs.Asked.{asked, IsWithin};
ghost use Rattle.kc_kit_words.specs.Inputs.{inputs_in};
ghost use Rattle.kc_kit_inputs.specs.Annotations.{said_in};
ghost use Rattle.kc_kit_answer.specs.Bound.{report_status, end_of as end_said, place_of as place_said, unknown_diagnostic as unknown_text, with_end as end_added, BoundAnswer, IsReported, PassesAnswer};
ghost use Rattle.kc_kit_answer.specs.Jobs.{does, IsDoable, IsPrepared, Prepares};
ghost use Rattle.kc_kit_answer.specs.Lines.{usage_line};

use crate::job::Job;
use kc_base::{Files, Image, NoMemory};
use kc_bound::Notes;
use kc_debug_script::LineMap;
use kc_kit_bound::{Report, report_bound};
use kc_kit_files::{Cause, Refusal, put_word, read_file, refusal_of};
use kc_kit_inputs::{
    Annotations, address, annotation_files, annotations_in, image_of, read_inputs,
};
use kc_kit_verdict::Verdict;
use kc_kit_words::{Bound, Command, Wanted};
use std::alloc::Global;

/// Reads a hex file, and the maps and the notes that are named, for a routine that is to be bounded.
pub fn prepare_bound<'a, F: Files>(
    alloc: Global,
    bound: &Bound<'a>,
    files: &mut F,
) -> Result<Job<'a>, Refusal>
    requires { IsWithin (Command.Bound bound.now) }
    ensures { Prepares F.held F.read_faults F.write_faults (asked (Command.Bound bound.now)) files.old result files.new }
{
    let text = match read_file(alloc, bound.file, files) {
        Ok(text) => text,
        Err(refusal) => return Err(refusal),
    };
    match read_inputs(alloc, bound.inputs, files) {
        Ok(inputs) => bound_text(alloc, bound, &text, &inputs),
        Err(refusal) => Err(refusal),
    }
}

// The bound of a routine of the hex file with a text, over inputs with others.
fn bound_text<'a>(
    alloc: Global,
    bound: &Bound<'a>,
    text: &[u8],
    inputs: &[Vec<u8>],
) -> Result<Job<'a>, Refusal>
    requires short { length text.now ≤ file_limit }
    requires inputs { AllShort (map (λ t. t.items) inputs.now) }
    ensures { IsPrepared (BoundAnswer bound.now.file.now bound.now.from.now (option_map (λ t. t.now) bound.now.to) (inputs_in bound.now.inputs) bound.now.wanted text.now (map (λ t. t.items) inputs.now)) result }
{
    let image = match image_of(alloc, bound.file, text) {
        Ok(image) => image,
        Err(refusal) => return Err(refusal),
    };
    match annotations_in(alloc, annotation_files(bound.inputs, inputs)) {
        Ok(annotations) => bound_passes(alloc, bound, &image, annotations),
        Err(refusal) => Err(refusal),
    }
}

// The diagnostic of a word that is no address of the ROM.
fn unknown_diagnostic(alloc: Global, word: &[u8]) -> Result<Vec<u8>, NoMemory>
    ensures { IfOk result (λ diagnostic. diagnostic.items ≡ unknown_text word.now) }
{
    let mut diagnostic = Vec::from_slice(alloc, b"kc96: error: there is no address ")?;
    put_word(&mut diagnostic, word)?;
    diagnostic.extend_from_slice(b" in 2000H-5FFFH\n")?;
    Ok(diagnostic)
}

// The refusal of such a word.
fn unknown(alloc: Global, word: &str) -> Refusal
    ensures { IsRefused (λ response. response ≡ reports status.Usage usage_line (unknown_text word.now)) result }
{
    match unknown_diagnostic(alloc, word.as_bytes()) {
        Ok(diagnostic) => refusal_of(alloc, Cause::Usage, b"usage", b"\n", b"", diagnostic),
        Err(NoMemory) => Refusal::NoMemory,
    }
}

// The address that a word stands for.
fn place_of(alloc: Global, annotations: &Annotations, word: &str) -> Result<u16, Refusal>
    ensures place { IfOk result (λ a. place_said (said_in annotations.now) word.now ≡ Ok a) }
    ensures refusal { IfErr result (IsRefused (λ response. place_said (said_in annotations.now) word.now ≡ Err response)) }
{
    match address(annotations, word) {
        Some(at) => Ok(at),
        None => Err(unknown(alloc, word)),
    }
}

// The address at which a pass ends beside its return, where a word is given for one.
fn end_of(
    alloc: Global,
    annotations: &Annotations,
    word: Option<&str>,
) -> Result<Option<u16>, Refusal>
    ensures place { IfOk result (λ a. end_said (said_in annotations.now) (option_map (λ w. w.now) word.entry) ≡ Ok a) }
    ensures refusal { IfErr result (IsRefused (λ response. end_said (said_in annotations.now) (option_map (λ w. w.now) word.entry) ≡ Err response)) }
{
    let Some(word) = word else {
        return Ok(None);
    };
    match place_of(alloc, annotations, word) {
        Ok(at) => Ok(Some(at)),
        Err(refusal) => Err(refusal),
    }
}

// Notes with one end more, where there is one.
fn with_end(mut notes: Notes, end: Option<u16>) -> Result<Notes, NoMemory>
    ensures { IfOk result (λ ended. notes_read ended ≡ end_added end (notes_read notes)) }
{
    if let Some(at) = end {
        notes.ends.push(at)?;
    }
    Ok(notes)
}

// The bound from a word on, and to another one where it is given, with what is wanted beside it.
fn bound_passes<'a>(
    alloc: Global,
    bound: &Bound<'a>,
    image: &Image,
    annotations: Annotations,
) -> Result<Job<'a>, Refusal>
    ensures { IsPrepared (PassesAnswer bound.now.from.now (option_map (λ t. t.now) bound.now.to) bound.now.wanted image.now (said_in annotations)) result }
{
    let first = match place_of(alloc, &annotations, bound.from) {
        Ok(first) => first,
        Err(refusal) => return Err(refusal),
    };
    let last = match end_of(alloc, &annotations, bound.to) {
        Ok(last) => last,
        Err(refusal) => return Err(refusal),
    };
    let Annotations { lines, notes, .. } = annotations;
    match with_end(notes, last) {
        Ok(notes) => report_job(alloc, image, &notes, &lines, first, bound.wanted),
        Err(NoMemory) => Err(Refusal::NoMemory),
    }
}

// The job that prints what is reported of the passes from an address.
fn report_job<'a>(
    alloc: Global,
    image: &Image,
    notes: &Notes,
    lines: &LineMap,
    from: u16,
    wanted: Wanted,
) -> Result<Job<'a>, Refusal>
    ensures { IsPrepared (IsReported image.now (notes_read notes.now) lines.now from wanted) result }
{
    match report_bound(alloc, image, notes, lines, from, wanted) {
        Ok(report) => Ok(printed(alloc, report)),
        Err(NoMemory) => Err(Refusal::NoMemory),
    }
}

// The job that prints a report.
fn printed<'a>(alloc: Global, report: Report) -> Job<'a>
    ensures does { does result ≡ says (report_status report.is_bound) report.text.items }
    ensures doable { IsDoable result }
{
    let Report { text, is_bound } = report;
    Job::Report {
        verdict: Verdict {
            text,
            diagnostic: Vec::new(alloc),
            is_broken: !is_bound,
        },
    }
}
