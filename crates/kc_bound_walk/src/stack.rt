// How a walk is made of parts: each act puts a step or a part behind the last one that is open.
ghost use Rattle.std.specs.Prelude.{◌≡◌, IfOk, IfSome};
ghost use Rattle.std.specs.List.{All};
ghost use Rattle.kc_bound_walk.specs.Parts.{IsPart};
ghost use Rattle.kc_bound_walk.specs.Walks.{IsWhole};

use crate::lines::Spent;
use crate::part::{Part, ended_by, many_times, part_at, with_other, with_way};
use kc_base::{Image, NoMemory};
use kc_bound::{Notes, Way};
use std::alloc::Global;

/// What is done with the parts that are open, each of which is to be put behind the one before it, and with those that are kept.
#[derive(Clone, Copy, Drop)]
pub(crate) enum Act {
    /// Opens a part at an address, without a step.
    Begin(u16),
    /// Puts a step behind the last part.
    Step(Way),
    /// Puts the last part behind the one before it, so many times.
    Close(u64),
    /// Puts the last part behind the one before it, and keeps it.
    Keep,
    /// Puts a part that is kept behind the last one.
    Take(usize),
}

// Takes the last of some parts.
fn pop_part(image: &Image, notes: &Notes, parts: &mut Vec<Part>) -> Option<Part>
    requires { All (IsPart image.now notes.now) parts.old.items }
    ensures rest { All (IsPart image.now notes.now) parts.new.items }
    ensures last { IfSome result (IsPart image.now notes.now) }
{
    let _image = image;
    let _notes = notes;
    parts.pop()
}

fn begin(
    alloc: Global,
    image: &Image,
    notes: &Notes,
    open: &mut Vec<Part>,
    at: u16,
) -> Result<(), NoMemory>
    requires { All (IsPart image.now notes.now) open.old.items }
    ensures { All (IsPart image.now notes.now) open.new.items }
{
    let part = part_at(alloc, image, notes, at)?;
    open.push(part)?;
    Ok(())
}

fn step(
    alloc: Global,
    image: &Image,
    notes: &Notes,
    open: &mut Vec<Part>,
    way: Way,
) -> Result<bool, NoMemory>
    requires { All (IsPart image.now notes.now) open.old.items }
    ensures { All (IsPart image.now notes.now) open.new.items }
{
    let Some(part) = pop_part(image, notes, open) else {
        return Ok(false);
    };
    let Some(longer) = with_way(alloc, image, notes, part, way)? else {
        return Ok(false);
    };
    open.push(longer)?;
    Ok(true)
}

// Puts a part behind the last one.
fn put(
    alloc: Global,
    image: &Image,
    notes: &Notes,
    open: &mut Vec<Part>,
    other: &Part,
) -> Result<bool, NoMemory>
    requires open { All (IsPart image.now notes.now) open.old.items }
    requires other { IsPart image.now notes.now other.now }
    ensures { All (IsPart image.now notes.now) open.new.items }
{
    let Some(part) = pop_part(image, notes, open) else {
        return Ok(false);
    };
    let Some(longer) = with_other(alloc, image, notes, part, other)? else {
        return Ok(false);
    };
    open.push(longer)?;
    Ok(true)
}

fn close(
    alloc: Global,
    image: &Image,
    notes: &Notes,
    open: &mut Vec<Part>,
    times: u64,
) -> Result<bool, NoMemory>
    requires { All (IsPart image.now notes.now) open.old.items }
    ensures { All (IsPart image.now notes.now) open.new.items }
{
    let Some(part) = pop_part(image, notes, open) else {
        return Ok(false);
    };
    if times < 2 {
        return put(alloc, image, notes, open, &part);
    }
    let Some(repeated) = many_times(alloc, image, notes, part, times)? else {
        return Ok(false);
    };
    put(alloc, image, notes, open, &repeated)
}

fn keep(
    alloc: Global,
    image: &Image,
    notes: &Notes,
    open: &mut Vec<Part>,
    kept: &mut Vec<Part>,
) -> Result<bool, NoMemory>
    requires open { All (IsPart image.now notes.now) open.old.items }
    requires kept { All (IsPart image.now notes.now) kept.old.items }
    ensures open { All (IsPart image.now notes.now) open.new.items }
    ensures kept { All (IsPart image.now notes.now) kept.new.items }
{
    let Some(part) = pop_part(image, notes, open) else {
        return Ok(false);
    };
    let is_put = put(alloc, image, notes, open, &part)?;
    kept.push(part)?;
    Ok(is_put)
}

fn take(
    alloc: Global,
    image: &Image,
    notes: &Notes,
    open: &mut Vec<Part>,
    kept: &[Part],
    k: usize,
) -> Result<bool, NoMemory>
    requires open { All (IsPart image.now notes.now) open.old.items }
    requires kept { All (IsPart image.now notes.now) kept.now }
    ensures { All (IsPart image.now notes.now) open.new.items }
{
    match kept.get(k) {
        Some(other) => put(alloc, image, notes, open, other),
        None => Ok(false),
    }
}

/// Does one act; false where that cannot be.
pub(crate) fn act_on(
    alloc: Global,
    image: &Image,
    notes: &Notes,
    open: &mut Vec<Part>,
    kept: &mut Vec<Part>,
    act: Act,
) -> Result<bool, NoMemory>
    requires open { All (IsPart image.now notes.now) open.old.items }
    requires kept { All (IsPart image.now notes.now) kept.old.items }
    ensures open { All (IsPart image.now notes.now) open.new.items }
    ensures kept { All (IsPart image.now notes.now) kept.new.items }
{
    match act {
        Act::Begin(at) => {
            begin(alloc, image, notes, open, at)?;
            Ok(true)
        }
        Act::Step(way) => step(alloc, image, notes, open, way),
        Act::Close(times) => close(alloc, image, notes, open, times),
        Act::Keep => keep(alloc, image, notes, open, kept),
        Act::Take(k) => take(alloc, image, notes, open, kept.as_slice(), k),
    }
}

// What a walk from an address spends that is over by a way behind the last part.
fn end(
    alloc: Global,
    image: &Image,
    notes: &Notes,
    open: &mut Vec<Part>,
    from: u16,
    way: Way,
) -> Result<Option<Vec<Spent>>, NoMemory>
    requires { All (IsPart image.now notes.now) open.old.items }
    ensures { IfOk result (λ found. IfSome found (λ lines. IsWhole image.now notes.now from lines.items)) }
{
    let Some(part) = pop_part(image, notes, open) else {
        return Ok(None);
    };
    if part.begins != from {
        return Ok(None);
    }
    ended_by(alloc, image, notes, part, way)
}

/// What a walk from an address spends that is made by acts, and over by a way; `None` where they make none.
pub(crate) fn made_by(
    alloc: Global,
    image: &Image,
    notes: &Notes,
    from: u16,
    acts: &[Act],
    way: Way,
) -> Result<Option<Vec<Spent>>, NoMemory>
    ensures { IfOk result (λ found. IfSome found (λ lines. IsWhole image.now notes.now from lines.items)) }
{
    let mut open = Vec::new(alloc);
    let mut kept = Vec::new(alloc);
    for act in acts {
        if !act_on(alloc, image, notes, &mut open, &mut kept, *act)? {
            return Ok(None);
        }
    }
    end(alloc, image, notes, &mut open, from, way)
}
