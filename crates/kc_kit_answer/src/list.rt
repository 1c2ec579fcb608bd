// The command that lists the instructions of a hex file.
ghost use Rattle.std.specs.Prelude.{◌≡◌, ◌≤◌, false};
ghost use Rattle.kc_base.specs.Limits.{image_start};
ghost use Rattle.kc_kit_files.specs.Outside.{Prints, shown_by};
ghost use Rattle.kc_kit_words.specs.Asked.{asked, IsWithin};
ghost use Rattle.kc_kit_answer.specs.Hex.{ListingOf};
ghost use Rattle.kc_kit_answer.specs.Jobs.{Prepares};

use crate::job::Job;
use kc_base::{Files, Image, Sink};
use kc_code::line_at;
use kc_kit_files::{Refusal, Status, read_file};
use kc_kit_inputs::image_of;
use kc_kit_words::{Command, List};
use kc_trace::TraceOut;
use std::alloc::Global;

/// Reads a hex file that is to be listed.
pub fn prepare_list<'a, F: Files>(
    alloc: Global,
    list: &List<'a>,
    files: &mut F,
) -> Result<Job<'a>, Refusal>
    requires { IsWithin (Command.List list.now) }
    ensures { Prepares F.held F.read_faults F.write_faults (asked (Command.List list.now)) files.old result files.new }
{
    let text = match read_file(alloc, list.file, files) {
        Ok(text) => text,
        Err(refusal) => return Err(refusal),
    };
    match image_of(alloc, list.file, &text) {
        Ok(image) => Ok(Job::List {
            image,
            first: list.first,
            last: list.last,
        }),
        Err(refusal) => Err(refusal),
    }
}

/// Prints the lines of a listing.
pub(crate) fn list_image<S: Sink>(
    image: &Image,
    first: u16,
    last: u16,
    out: &mut TraceOut<S>,
) -> Status
    requires ready { out.old.failed ≡ false }
    requires first { image_start ≤ first }
    requires order { first ≤ last }
    ensures { Prints (ListingOf first last image.now) (shown_by S.written S.faults out.old.sink) result (shown_by S.written S.faults out.new.sink) }
{
    let mut at = u32::from(first);
    while at <= u32::from(last) {
        let (line, count) = line_at(image, at as u16);
        out.put_text(line.as_slice());
        at += u32::from(count);
    }
    if out.failed() {
        Status::WriteFault
    } else {
        Status::Done
    }
}
