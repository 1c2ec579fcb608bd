// What is said in words of broken rules of the linker.
ghost use Rattle.std.specs.Prelude.{◌≡◌, ◌++◌, codes, decimal, fold, None, IfOk, OnOk, slice_get};
ghost use Rattle.std.specs.Option.{option_copied};
ghost use Rattle.kc_kit_messages.specs.Rules.{file_at};
ghost use Rattle.kc_kit_messages.specs.RuleDiagnostics.{or_later, line_among, line_in, line_text, rule_diagnostic, link_diagnostic};
ghost use Rattle.kc_kit_messages.specs.Origins.{words_of};

use crate::diagnostics::{put_error, put_number};
use crate::origins::{Origins, file_at, joined};
use crate::rule_files::in_files;
use crate::rule_lines::place_text;
use kc_base::{NoMemory, address_text};
use kc_kit_files::{put_shown, shown};
use kc_link::kind_word;
use kc_link_place::LinkFault;
use kc_obj_module::{Lines, Module};
use std::alloc::Global;

// The line of the last of these entries that belongs to a piece and stands at an offset or below it.
fn line_of(piece: u16, offset: u16, entries: &[Lines]) -> Option<u32>
    ensures { result ≡ fold (or_later piece offset) None entries.now }
{
    let mut found = None;
    let mut left = entries;
    while let [entry, rest @ ..] = left {
        if entry.piece == piece && entry.offset <= offset {
            found = Some(entry.line);
        }
        left = rest;
    }
    found
}

// The line of the source from which the bytes at an offset of a piece of a module come, where line entries report it.
fn line_among(piece: u16, offset: u16, entries: Option<&[Lines]>) -> Option<u32>
    ensures { result ≡ line_among piece offset (option_copied entries.entry) }
{
    match entries {
        Some(entries) => line_of(piece, offset, entries),
        None => None,
    }
}

// The same in one of some modules.
fn line_in(piece: u16, offset: u16, modules: &[Module], index: u16) -> Option<u32>
    ensures { result ≡ line_in piece offset (slice_get modules.now index) }
{
    match modules.get(usize::from(index)) {
        Some(object) => line_among(piece, offset, object.lines()),
        None => None,
    }
}

// Puts a line behind the name of its file.
fn put_line(diagnostic: &mut Vec<u8>, line: Option<u32>) -> Result<(), NoMemory>
    ensures { OnOk result (diagnostic.new.items ≡ diagnostic.old.items ++ line_text line) }
{
    if let Some(line) = line {
        put_number(diagnostic, line)?;
    }
    Ok(())
}

// A rule that is broken at a place, with more of it.
fn rule_diagnostic(
    alloc: Global,
    place: &[u8],
    rule: &[u8],
    more: &[u8],
) -> Result<Vec<u8>, NoMemory>
    ensures { IfOk result (λ diagnostic. diagnostic.items ≡ rule_diagnostic place.now rule.now more.now) }
{
    let mut behind = Vec::from_slice(alloc, b" ")?;
    put_shown(&mut behind, more)?;
    let mut diagnostic = shown(alloc, place)?;
    put_error(&mut diagnostic, rule, &behind)?;
    Ok(diagnostic)
}

// A rule that is broken by a name or at an address, in these files.
fn files_diagnostic(
    alloc: Global,
    rule: &[u8],
    what: &[u8],
    files: &[u8],
) -> Result<Vec<u8>, NoMemory>
    ensures { IfOk result (λ diagnostic. diagnostic.items ≡ rule_diagnostic (codes "kc96") rule.now (what.now ++ files.now)) }
{
    let more = joined(alloc, what, files)?;
    rule_diagnostic(alloc, b"kc96", rule, &more)
}

// A number that does not fit, in a file where its line may be known.
fn range_diagnostic(
    alloc: Global,
    file: &[u8],
    line: Option<u32>,
    piece: u16,
    offset: u16,
) -> Result<Vec<u8>, NoMemory>
    ensures { IfOk result (λ diagnostic. diagnostic.items ≡ rule_diagnostic (file.now ++ line_text line) (codes "range") (decimal piece ++ codes " " ++ decimal offset)) }
{
    let mut place = Vec::from_slice(alloc, file)?;
    put_line(&mut place, line)?;
    let more = place_text(alloc, piece, offset)?;
    rule_diagnostic(alloc, &place, b"range", &more)
}

/// The diagnostic of modules from these files that break a rule of the linker.
pub(crate) fn link_diagnostic(
    alloc: Global,
    origins: &Origins<'_, '_, '_>,
    modules: &[Module],
    fault: &LinkFault,
) -> Result<Vec<u8>, NoMemory>
    ensures { IfOk result (λ diagnostic. diagnostic.items ≡ link_diagnostic (words_of origins.now) modules.now fault.now) }
{
    match fault {
        LinkFault::Unresolved(name) => {
            let files = in_files(alloc, origins, modules, fault)?;
            files_diagnostic(alloc, b"unresolved", name.as_slice(), &files)
        }
        LinkFault::OverlapName(name) => {
            let files = in_files(alloc, origins, modules, fault)?;
            files_diagnostic(alloc, b"duplicate", name.as_slice(), &files)
        }
        LinkFault::OverlapPlace(place) => {
            let files = in_files(alloc, origins, modules, fault)?;
            files_diagnostic(alloc, b"overlap", address_text(*place).as_slice(), &files)
        }
        LinkFault::Capacity { kind, module } => {
            let file = file_at(alloc, origins, usize::from(*module))?;
            rule_diagnostic(alloc, &file, b"capacity", kind_word(*kind))
        }
        LinkFault::Range {
            module,
            piece,
            offset,
        } => {
            let file = file_at(alloc, origins, usize::from(*module))?;
            let line = line_in(*piece, *offset, modules, *module);
            range_diagnostic(alloc, &file, line, *piece, *offset)
        }
        LinkFault::NoMemory => Err(NoMemory),
    }
}
