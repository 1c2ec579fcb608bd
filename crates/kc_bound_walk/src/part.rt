// Parts of walks: each is made of steps that the image has, and tells what it takes of the turns of loops.
ghost use Rattle.std.specs.Prelude.{◌≡◌, ◌++◌, IfOk, IfSome};
ghost use Rattle.kc_bound_walk.specs.Walks.{with_spent, with_all, spent_by};
ghost use Rattle.kc_bound_walk.specs.Parts.{IsPart};
ghost use Rattle.kc_bound_walk.specs.Walks.{IsWhole};

use crate::lines::{Spent, add, add_all, multiplied};
use crate::steps::{after_way, is_way, states_of};
use crate::turns::{Turns, are_enough, none_taken, with_part, with_step, with_times};
use kc_base::{Image, NoMemory};
use kc_bound::{Notes, Way};
use std::alloc::Global;

/// A part of a walk: where it begins, the address to which it has come, the calls that it has opened, the last one first, what it takes
/// of the turns of each loop, and what it spends.
#[derive(Drop)]
pub(crate) struct Part {
    pub(crate) begins: u16,
    pub(crate) at: u16,
    pub(crate) open_calls: Vec<u16>,
    pub(crate) turns: Vec<Option<Turns>>,
    pub(crate) lines: Vec<Spent>,
}

/// Without a step.
pub(crate) fn part_at(
    alloc: Global,
    image: &Image,
    notes: &Notes,
    at: u16,
) -> Result<Part, NoMemory>
    ensures { IfOk result (IsPart image.now notes.now) }
{
    let _image = image;
    Ok(Part {
        begins: at,
        at,
        open_calls: Vec::new(alloc),
        turns: none_taken(alloc, notes.loops.as_slice())?,
        lines: Vec::new(alloc),
    })
}

// What is spent with a step behind; `None` where a number is too large.
fn lines_with(part: Part, way: Way) -> Result<Option<Vec<Spent>>, NoMemory>
    ensures { IfOk result (λ found. IfSome found (λ lines. lines.items ≡ with_spent part.lines.items (spent_by (record { at = part.at; way = way })))) }
{
    let mut lines = part.lines;
    let s = Spent {
        at: part.at,
        states: states_of(way),
        times: 1,
    };
    if add(&mut lines, s)? {
        Ok(Some(lines))
    } else {
        Ok(None)
    }
}

/// With a step behind, by a way that leads on; `None` where there is no such way, or a number is too large.
pub(crate) fn with_way(
    alloc: Global,
    image: &Image,
    notes: &Notes,
    part: Part,
    way: Way,
) -> Result<Option<Part>, NoMemory>
    requires { IsPart image.now notes.now part }
    ensures { IfOk result (λ found. IfSome found (IsPart image.now notes.now)) }
{
    if !is_way(alloc, image, notes, part.at, way)? {
        return Ok(None);
    }
    let Some(place) = after_way(alloc, notes, way, part.open_calls.as_slice())? else {
        return Ok(None);
    };
    let turns = with_step(
        alloc,
        notes.loops.as_slice(),
        part.turns.as_slice(),
        part.at,
    )?;
    let begins = part.begins;
    let Some(lines) = lines_with(part, way)? else {
        return Ok(None);
    };
    Ok(Some(Part {
        begins,
        at: place.at,
        open_calls: place.open_calls,
        turns,
        lines,
    }))
}

/// What a walk spends that is over by a way behind a part; `None` where the way leads on, where it takes more turns of a loop than there
/// are, and where a number is too large.
pub(crate) fn ended_by(
    alloc: Global,
    image: &Image,
    notes: &Notes,
    part: Part,
    way: Way,
) -> Result<Option<Vec<Spent>>, NoMemory>
    requires { IsPart image.now notes.now part }
    ensures { IfOk result (λ found. IfSome found (λ lines. IsWhole image.now notes.now part.begins lines.items)) }
{
    if !is_way(alloc, image, notes, part.at, way)? {
        return Ok(None);
    }
    let None = after_way(alloc, notes, way, part.open_calls.as_slice())? else {
        return Ok(None);
    };
    let turns = with_step(
        alloc,
        notes.loops.as_slice(),
        part.turns.as_slice(),
        part.at,
    )?;
    if !are_enough(notes.loops.as_slice(), turns.as_slice()) {
        return Ok(None);
    }
    match lines_with(part, way)? {
        Some(lines) => Ok(Some(lines)),
        None => Ok(None),
    }
}

// Open calls, and others that are opened behind them.
fn calls_with(alloc: Global, calls: &[u16], others: &[u16]) -> Result<Vec<u16>, NoMemory>
    ensures { IfOk result (λ all. all.items ≡ others.now ++ calls.now) }
{
    let mut all = others.to_vec(alloc)?;
    all.extend_from_slice(calls)?;
    Ok(all)
}

// What is spent with what another part spends; `None` where a number is too large.
fn lines_with_all(part: Part, more: &[Spent]) -> Result<Option<Vec<Spent>>, NoMemory>
    ensures { IfOk result (λ found. IfSome found (λ lines. lines.items ≡ with_all part.lines.items more.now)) }
{
    let mut lines = part.lines;
    if add_all(&mut lines, more)? {
        Ok(Some(lines))
    } else {
        Ok(None)
    }
}

/// With another part behind; `None` where that begins elsewhere, or a number is too large.
pub(crate) fn with_other(
    alloc: Global,
    image: &Image,
    notes: &Notes,
    part: Part,
    other: &Part,
) -> Result<Option<Part>, NoMemory>
    requires part { IsPart image.now notes.now part }
    requires other { IsPart image.now notes.now other.now }
    ensures { IfOk result (λ found. IfSome found (IsPart image.now notes.now)) }
{
    let _image = image;
    let _notes = notes;
    if other.begins != part.at {
        return Ok(None);
    }
    let turns = with_part(alloc, part.turns.as_slice(), other.turns.as_slice())?;
    let calls = calls_with(
        alloc,
        part.open_calls.as_slice(),
        other.open_calls.as_slice(),
    )?;
    let begins = part.begins;
    let Some(lines) = lines_with_all(part, other.lines.as_slice())? else {
        return Ok(None);
    };
    Ok(Some(Part {
        begins,
        at: other.at,
        open_calls: calls,
        turns,
        lines,
    }))
}

/// So many times one behind the other, twice or more; `None` where a part does not lead back to its begin, where it has open calls, or
/// a number is too large.
pub(crate) fn many_times(
    alloc: Global,
    image: &Image,
    notes: &Notes,
    part: Part,
    times: u64,
) -> Result<Option<Part>, NoMemory>
    requires { IsPart image.now notes.now part }
    ensures { IfOk result (λ found. IfSome found (IsPart image.now notes.now)) }
{
    let _image = image;
    let _notes = notes;
    if times < 2 || part.begins != part.at || !part.open_calls.is_empty() {
        return Ok(None);
    }
    let turns = with_times(alloc, part.turns.as_slice(), times)?;
    match multiplied(alloc, part.lines.as_slice(), times)? {
        Some(lines) => Ok(Some(Part {
            begins: part.begins,
            at: part.at,
            open_calls: part.open_calls,
            turns,
            lines,
        })),
        None => Ok(None),
    }
}
