// A walk through a routine, as it is printed.
ghost use Rattle.std.specs.Prelude.{◌≡◌, ◌++◌, IfOk, OnOk, flat_map};
ghost use Rattle.std.specs.Option.{option_copied};
ghost use Rattle.kc_kit_bound.specs.Walks as spec;
ghost use Rattle.kc_kit_bound.specs.Walks.{IsWalkText};

use crate::texts::put_at;
use kc_base::{Image, NoMemory, put_number};
use kc_bound::{Certificate, Notes};
use kc_bound_walk::{Spent, find_walk};
use kc_debug_script::{LineMap, MapEntry};
use std::alloc::Global;

// The line where no walk is found.
fn no_walk(alloc: Global, from: u16) -> Result<Vec<u8>, NoMemory>
    ensures { IfOk result (λ text. text.items ≡ spec.no_walk from) }
{
    let mut text = Vec::new(alloc);
    text.extend_from_slice(b"walk")?;
    put_at(&mut text, from)?;
    text.extend_from_slice(b" none\n")?;
    Ok(text)
}

// Puts the source line of an address, if it has one.
fn put_source(text: &mut Vec<u8>, found: Option<&MapEntry>) -> Result<(), NoMemory>
    ensures { OnOk result (text.new.items ≡ text.old.items ++ spec.source_text (option_copied found.entry)) }
{
    if let Some(entry) = found {
        text.push(b' ')?;
        text.extend_from_slice(entry.name.as_slice())?;
        text.push(b':')?;
        put_number(text, u128::from(entry.line))?;
    }
    Ok(())
}

fn put_line(text: &mut Vec<u8>, lines: &LineMap, s: Spent) -> Result<(), NoMemory>
    ensures { OnOk result (text.new.items ≡ text.old.items ++ spec.walk_line lines.now s) }
{
    text.extend_from_slice(b"walk")?;
    put_at(text, s.at)?;
    text.push(b' ')?;
    put_number(text, u128::from(s.states))?;
    text.extend_from_slice(b" x ")?;
    put_number(text, u128::from(s.times))?;
    put_source(text, lines.find(s.at))?;
    text.push(b'\n')?;
    Ok(())
}

// The lines of what is spent.
fn spent_text(alloc: Global, lines: &LineMap, spent: &[Spent]) -> Result<Vec<u8>, NoMemory>
    ensures { IfOk result (λ text. text.items ≡ flat_map (spec.walk_line lines.now) spent.now) }
{
    let mut text = Vec::new(alloc);
    let mut left = spent;
    while let [s, rest @ ..] = left {
        put_line(&mut text, lines, *s)?;
        left = rest;
    }
    Ok(text)
}

/// A walk from an address through an image that costs as much as one that is found, in its lines: what is spent where, how often, and
/// from which source line; or a line that says that none is found. A certificate tells which ways cost most.
pub(crate) fn walk_text(
    alloc: Global,
    image: &Image,
    notes: &Notes,
    from: u16,
    c: &Certificate,
    lines: &LineMap,
) -> Result<Vec<u8>, NoMemory>
    ensures { IfOk result (λ text. IsWalkText image.now notes.now from lines.now text.items) }
{
    match find_walk(alloc, image, notes, from, c)? {
        Some(spent) => spent_text(alloc, lines, spent.as_slice()),
        None => no_walk(alloc, from),
    }
}
