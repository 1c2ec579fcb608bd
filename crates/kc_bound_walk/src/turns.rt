// What parts of a walk take of the turns of loops.
ghost use Rattle.std.specs.Prelude.{◌≡◌, ◌≤◌, IfOk, map};
ghost use Rattle.kc_bound.specs.Certified as certified;
ghost use Rattle.kc_bound.specs.Notes as notes_say;
ghost use Rattle.kc_bound_walk.specs.Parts as spec;

use kc_base::NoMemory;
use kc_bound::Loop;
use std::alloc::Global;

/// What a part of a walk takes of the turns of a loop: how many have to be left before it; and how many are left behind it, where the
/// count began anew, else so many fewer.
#[derive(Clone, Copy, Drop)]
pub(crate) struct Turns {
    pub(crate) needed: u64,
    pub(crate) left: Option<u64>,
}

/// How many turns are left behind a part, by how many there were.
pub(crate) fn left_behind(turns: Turns, before: u64) -> u64
    requires { turns.needed ≤ before }
    ensures { result ≡ spec.left_behind turns before }
{
    match turns.left {
        Some(left) => left,
        None => before - turns.needed,
    }
}

fn is_among(addresses: &[u16], at: u16) -> bool
    ensures { result ≡ notes_say.is_among addresses.now at }
{
    addresses.iter().any(|a| *a == at)
}

// How often the head of a loop begins with the begin of an address.
fn begins_at(l: &Loop, at: u16) -> u64
    ensures { result ≡ certified.begins_at at l.now }
{
    if l.head == at { 1 } else { 0 }
}

// The turns that the begin of an address gives.
fn given_at(l: &Loop, at: u16) -> Option<u64>
    ensures { result ≡ spec.given_at l.now at }
{
    if is_among(l.per.as_slice(), at) {
        Some(l.most)
    } else {
        None
    }
}

/// What the begin of an address takes of a loop and gives it.
pub(crate) fn turns_of(l: &Loop, at: u16) -> Turns
    ensures { result ≡ spec.turns_of l.now at }
{
    Turns {
        needed: begins_at(l, at),
        left: given_at(l, at),
    }
}

fn joined(first: Option<Turns>, second: Option<Turns>) -> Option<Turns>
    ensures { result ≡ spec.joined first second }
{
    let (Some(first), Some(second)) = (first, second) else {
        return None;
    };
    match first.left {
        None => {
            let needed = first.needed.checked_add(second.needed)?;
            Some(Turns {
                needed,
                left: second.left,
            })
        }
        Some(left) => {
            if second.needed > left {
                return None;
            }
            Some(Turns {
                needed: first.needed,
                left: Some(left_behind(second, left)),
            })
        }
    }
}

fn repeated(times: u64, turns: Option<Turns>) -> Option<Turns>
    ensures { result ≡ spec.repeated times turns }
{
    let turns = turns?;
    match turns.left {
        None => {
            let needed = times.checked_mul(turns.needed)?;
            Some(Turns { needed, left: None })
        }
        Some(left) => {
            if turns.needed <= left {
                Some(turns)
            } else {
                None
            }
        }
    }
}

/// What no step takes of each loop.
#[tactic(auto, unfolding(crate::specs::Parts::none_taken))]
pub(crate) fn none_taken(alloc: Global, loops: &[Loop]) -> Result<Vec<Option<Turns>>, NoMemory>
    ensures { IfOk result (λ all. all.items ≡ spec.none_taken loops.now) }
{
    let mut all = Vec::new(alloc);
    let mut left = loops;
    while let [_, rest @ ..] = left {
        let none = Turns {
            needed: 0,
            left: None,
        };
        all.push(Some(none))?;
        left = rest;
    }
    Ok(all)
}

/// What a part takes of each loop, with a step from an address behind it.
#[tactic(auto, unfolding(crate::specs::Parts::with_step))]
pub(crate) fn with_step(
    alloc: Global,
    loops: &[Loop],
    turns: &[Option<Turns>],
    at: u16,
) -> Result<Vec<Option<Turns>>, NoMemory>
    ensures { IfOk result (λ all. all.items ≡ spec.with_step loops.now turns.now at) }
{
    let mut all = Vec::new(alloc);
    let mut loops_left = loops;
    let mut turns_left = turns;
    while let [l, other_loops @ ..] = loops_left {
        let [t, other_turns @ ..] = turns_left else {
            return Ok(all);
        };
        all.push(joined(*t, Some(turns_of(l, at))))?;
        loops_left = other_loops;
        turns_left = other_turns;
    }
    Ok(all)
}

/// What a part and one behind it take of each loop.
#[tactic(auto, unfolding(crate::specs::Parts::with_part))]
pub(crate) fn with_part(
    alloc: Global,
    turns: &[Option<Turns>],
    more: &[Option<Turns>],
) -> Result<Vec<Option<Turns>>, NoMemory>
    ensures { IfOk result (λ all. all.items ≡ spec.with_part turns.now more.now) }
{
    let mut all = Vec::new(alloc);
    let mut turns_left = turns;
    let mut more_left = more;
    while let [t, other_turns @ ..] = turns_left {
        let [u, other_more @ ..] = more_left else {
            return Ok(all);
        };
        all.push(joined(*t, *u))?;
        turns_left = other_turns;
        more_left = other_more;
    }
    Ok(all)
}

/// What a part takes of each loop that comes so many times, twice or more.
pub(crate) fn with_times(
    alloc: Global,
    turns: &[Option<Turns>],
    times: u64,
) -> Result<Vec<Option<Turns>>, NoMemory>
    ensures { IfOk result (λ all. all.items ≡ map (spec.repeated times) turns.now) }
{
    let mut all = Vec::new(alloc);
    let mut left = turns;
    while let [t, rest @ ..] = left {
        all.push(repeated(times, *t))?;
        left = rest;
    }
    Ok(all)
}

fn is_enough(l: &Loop, turns: Option<Turns>) -> bool
    ensures { result ≡ spec.is_enough l.now turns }
{
    let Some(turns) = turns else {
        return false;
    };
    let first = if l.per.is_empty() { l.most } else { 0 };
    turns.needed <= first
}

/// Whether each loop has as many turns at first as a walk needs.
#[tactic(auto, unfolding(crate::specs::Parts::are_enough))]
pub(crate) fn are_enough(loops: &[Loop], turns: &[Option<Turns>]) -> bool
    ensures { result ≡ spec.are_enough loops.now turns.now }
{
    let mut loops_left = loops;
    let mut turns_left = turns;
    while let [l, other_loops @ ..] = loops_left {
        let [t, other_turns @ ..] = turns_left else {
            return false;
        };
        if !is_enough(l, *t) {
            return false;
        }
        loops_left = other_loops;
        turns_left = other_turns;
    }
    true
}
