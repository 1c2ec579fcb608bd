// The addresses that passes come to with what is left there, and which loops of the notes need a price: those to whose head a pass
// may come back before interrupts are asked for. Neither is exact, and `checked_latency` says what comes of them.
use crate::certificate::{EnabledSet, RequestCertificate};
use crate::checking::{enabled_at, is_in, is_past, number_of};
use crate::enabled::{EACH, Enabled};
use crate::finding::place_of;
use crate::latency_looking::lets_interrupts_in;
use crate::work::{may_leave, work_at};
use kc_base::{IMAGE_START, Image, NoMemory, ROM_END};
use kc_bound::{Notes, Way, is_end, ways};
use kc_exec_spec::Plan;
use std::alloc::Global;

/// An address that passes come to, with the work there, what may be allowed before it, and the ways on.
#[derive(Drop)]
pub(crate) struct Step {
    pub at: u16,
    pub work: Option<Plan>,
    pub before: EnabledSet,
    pub ways: Vec<Way>,
}

// An address, with what is allowed before its instruction.
#[derive(Clone, Copy, Drop)]
struct Place {
    at: u16,
    e: Enabled,
}

/// For each address of the ROM its step, if passes come to it and its ways are known.
pub(crate) fn steps_of(
    alloc: Global,
    image: &Image,
    notes: &Notes,
    from: u16,
    requests: &RequestCertificate,
) -> Result<Vec<Option<Step>>, NoMemory> {
    let mut steps = Vec::new(alloc);
    for at in IMAGE_START..ROM_END {
        let before = enabled_at(requests, at).before;
        let mut step = None;
        if before.bits != 0 && !is_past(notes, from, at) {
            if let Some(ways) = ways(alloc, image, notes, at)? {
                step = Some(Step {
                    at,
                    work: work_at(image, at),
                    before,
                    ways,
                });
            }
        }
        steps.push(step)?;
    }
    Ok(steps)
}

fn put_shut(todo: &mut Vec<Place>, notes: &Notes, at: u16, e: Enabled) -> Result<(), NoMemory> {
    if !lets_interrupts_in(e) && !is_end(notes, at) {
        todo.push(Place { at, e })?;
    }
    Ok(())
}

// Where a way leads, with this left, if interrupts are not asked for there. A routine that is called is passed by.
fn put_way(
    todo: &mut Vec<Place>,
    notes: &Notes,
    requests: &RequestCertificate,
    way: Way,
    after: Enabled,
) -> Result<(), NoMemory> {
    match way {
        Way::To { target, .. } => put_shut(todo, notes, target, after)?,
        Way::Call { back, .. } => {
            for e in EACH.iter() {
                if is_in(enabled_at(requests, back).before, *e) {
                    put_shut(todo, notes, back, *e)?;
                }
            }
        }
        Way::Back { .. } | Way::Out { .. } => {}
    }
    Ok(())
}

fn put_next(
    todo: &mut Vec<Place>,
    notes: &Notes,
    requests: &RequestCertificate,
    steps: &[Option<Step>],
    place: Place,
) -> Result<(), NoMemory> {
    let Some(k) = place_of(place.at) else {
        return Ok(());
    };
    let Some(Some(step)) = steps.get(k) else {
        return Ok(());
    };
    for way in step.ways.iter() {
        for after in EACH.iter() {
            if may_leave(step.work, place.e, *after) {
                put_way(todo, notes, requests, *way, *after)?;
            }
        }
    }
    Ok(())
}

// Marks a place by the number of a search; whether it did not have that mark.
fn mark(seen: &mut Vec<usize>, place: Place, search: usize) -> bool {
    let Some(k) = place_of(place.at) else {
        return false;
    };
    let k = 8 * k + usize::from(number_of(place.e));
    if k >= seen.len() || seen[k] == search {
        return false;
    }
    seen[k] = search;
    true
}

// Whether a pass may come back to an address before interrupts are asked for.
fn comes_back(
    alloc: Global,
    notes: &Notes,
    requests: &RequestCertificate,
    steps: &[Option<Step>],
    head: u16,
    seen: &mut Vec<usize>,
    search: usize,
) -> Result<bool, NoMemory> {
    let mut todo = Vec::new(alloc);
    for e in EACH.iter() {
        if is_in(enabled_at(requests, head).before, *e) {
            put_next(&mut todo, notes, requests, steps, Place { at: head, e: *e })?;
        }
    }
    for _ in 0..u64::MAX {
        let Some(place) = todo.pop() else {
            break;
        };
        if place.at == head {
            return Ok(true);
        }
        if mark(seen, place, search) {
            put_next(&mut todo, notes, requests, steps, place)?;
        }
    }
    Ok(false)
}

/// These prices, and 0 for each loop that needs none.
pub(crate) fn needed_prices(
    alloc: Global,
    notes: &Notes,
    requests: &RequestCertificate,
    steps: &[Option<Step>],
    prices: &[u64],
) -> Result<Vec<u64>, NoMemory> {
    let mut seen = Vec::new(alloc);
    for _ in 0..8 * (ROM_END - IMAGE_START) as usize {
        seen.push(0)?;
    }
    let mut needed = Vec::new(alloc);
    for k in 0..notes.loops.len() {
        let Some(price) = prices.get(k) else {
            break;
        };
        let head = notes.loops[k].head;
        let is_needed = *price != 0
            && comes_back(alloc, notes, requests, steps, head, &mut seen, k + 1)?;
        needed.push(if is_needed { *price } else { 0 })?;
    }
    Ok(needed)
}
