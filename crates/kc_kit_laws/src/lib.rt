//! Laws of answers, without code: sources that are linked and run answer as their objects do; a command has one answer; what
//! it writes for other commands is read again. They stand on `kc_kit_answer`. Example: `run a.a96` prints what `hex` prints
//! of the file that `asm` and `link` make of that source.
#![tactic(auto)]

ghost use Rattle.kc_kit_laws.specs.Alike.{RunsAlike};
ghost use Rattle.kc_kit_laws.specs.OneAnswer.{OneAnswer, OneDiagnostic, OneOutcome};
ghost use Rattle.kc_kit_laws.specs.Readable.{WrittenIsReadable};
ghost use Rattle.kc_kit_laws.specs.StartLevels.{StartLevelsAgree};
ghost use Rattle.kc_kit_laws.specs.Told.{BoundIsTold};

use kc_asm::linked_image;
use kc_asm_laws::{
    filled_are_bytes, modules_fit, one_answer_of_text, one_instructions, one_listing, one_origin,
};
use kc_bound::certified_is_bounded;
use kc_bound_requests::{closed_shows_served, gaps_are_short, latency_is_short, waits_are_short};
use kc_hex::written_is_read;
use kc_lib::laws::taken_once;
use kc_link::{one_image, one_line_map};
use kc_obj::laws::spelled_is_decoded;
use kc_source_laws::sources_are_read_well;

/// Objects that are assembled of each source and linked to a hex file, and that file run, answer as the sources run. Each
/// source has fewer than 2^32 bytes.
pub fn runs_are_alike()
    ensures { RunsAlike }
{
    modules_fit();
    filled_are_bytes();
    sources_are_read_well();
    linked_image();
    spelled_is_decoded();
    written_is_read();
}

/// A command has one answer over what the files hold: whatever may be replied is the same status, text and files. `bound` is left
/// out, which has one for each certificate.
pub fn one_answer()
    ensures { OneAnswer }
{
    one_answer_of_text();
    one_image();
    one_line_map();
    taken_once();
    one_listing();
    one_instructions();
}

/// A command has one diagnostic too: what may be replied with what is said of a fault of a source is the same with the same diagnostic.
pub fn one_diagnostic()
    ensures { OneDiagnostic }
{
    one_answer_of_text();
    one_image();
    one_line_map();
    taken_once();
    one_listing();
    one_instructions();
    one_origin();
}

/// What a command writes for commands to read, an object, a library, a hex file or a line map, is not too long for them.
pub fn written_is_readable()
    ensures { WrittenIsReadable }
{}

/// Calls with the same words, over files that hold the same, give the same status, print the same and leave the same in the
/// files, but where memory is wanted, a read fails or a write fails.
pub fn one_outcome()
    ensures { OneOutcome }
{
    one_answer();
}

/// Before state 0 of a run an input has in its lives the level that it has where nothing has driven it yet.
pub fn start_levels_agree()
    ensures { StartLevelsAgree }
{}

/// What `bound` prints of a routine is so of each pass through it, on every machine whose ROM holds the image: its states, where requests
/// are served, and how long one waits.
pub fn bound_is_told<X>()
    ensures { BoundIsTold X }
{
    certified_is_bounded::<X>();
    closed_shows_served::<X>();
    gaps_are_short::<X>();
    waits_are_short::<X>();
    latency_is_short::<X>();
}
