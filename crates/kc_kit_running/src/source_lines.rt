// The lines of sources by the addresses of their bytes.
ghost use Rattle.std.specs.Prelude.{◌≡◌, map, string_bytes, Some};
ghost use Rattle.std.specs.Option.{option_map};
ghost use Rattle.kc_link.specs.Placed.{ArePlacedAt};
ghost use Rattle.kc_kit_running.specs.Sources.{ArePlacedIn, line_of, line_of_file, lines_in, lines_of_files};

use crate::sources::Sources;
use kc_kit_messages::FileLine;
use kc_link::{SourceLine, source_line};

/// The line of a file of which the bytes begin at an address, where sources are known.
pub(crate) fn line_in<'s, 'a>(sources: &'s Option<Sources<'a>>, addr: u16) -> Option<FileLine<'s>>
    requires { ArePlacedIn sources.now }
    ensures { option_map line_of result ≡ lines_in sources.now addr }
{
    match sources {
        None => None,
        Some(sources) => line_at(sources, addr),
    }
}

// The same of sources.
fn line_at<'s, 'a>(sources: &'s Sources<'a>, addr: u16) -> Option<FileLine<'s>>
    requires { ArePlacedAt sources.now.modules.items sources.now.placement }
    ensures { option_map line_of result ≡ lines_of_files (map string_bytes sources.now.files.now) sources.now.modules.items sources.now.placement.places addr }
{
    match source_line(&sources.modules, &sources.placement, addr) {
        None => None,
        Some(at) => line_among(sources.files, at),
    }
}

// A line of one of some files.
#[tactic(auto, using(crate::proofs::SourceLemmas::file_named))]
fn line_among(files: &[String], at: SourceLine) -> Option<FileLine<'_>>
    ensures { option_map line_of result ≡ line_of_file (map string_bytes files.now) (Some at) }
{
    match files.get(at.index) {
        None => None,
        Some(file) => Some(FileLine {
            file: file.as_str(),
            line: at.line,
        }),
    }
}
