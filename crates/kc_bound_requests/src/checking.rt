ghost use Rattle.std.specs.Prelude.{◌≡◌, ℕ, ◌<◌, IfOk, IfSome, IsSome, IsTrue, Some};
ghost use Rattle.kc_bound_requests.specs.Closed as spec;
ghost use Rattle.kc_bound_requests.specs.Closed.{IsClosed, IsLeastOpen};

use crate::certificate::{EnabledAt, EnabledSet, Open, RequestCertificate};
use crate::enabled::{EACH, Enabled};
use crate::work::{may_leave, work_at};
use kc_base::{IMAGE_START, Image, NoMemory, ROM_END, bit, weight};
use kc_bound::{Notes, Way, is_end, ways};
use kc_exec_spec::Plan;
use std::alloc::Global;

/// No set, and what a certificate has of an address outside of the ROM.
pub(crate) const NO_SET: EnabledSet = EnabledSet { bits: 0 };

pub(crate) const NOTHING: EnabledAt = EnabledAt {
    before: NO_SET,
    behind: NO_SET,
};

pub(crate) fn number_of(e: Enabled) -> u8
    ensures value { result ≡ spec.number_of e }
    ensures bound { result < 8 }
{
    weight(e.interrupts, 1) + weight(e.server, 2) + weight(e.held, 4)
}

pub(crate) fn is_in(set: EnabledSet, e: Enabled) -> bool
    ensures { result ≡ spec.is_in set e }
{
    bit(set.bits, number_of(e))
}

// Whether the second set is within the first.
pub(crate) fn includes(set: EnabledSet, part: EnabledSet) -> bool
    ensures { result ≡ spec.includes set part }
{
    EACH.iter().all(|e| !is_in(part, *e) || is_in(set, *e))
}

// Whether all that work may leave where this was before it is within a set.
fn leaves_within(work: Option<Plan>, set: EnabledSet, before: Enabled) -> bool
    ensures { result ≡ spec.leaves_within work set before }
{
    EACH.iter().all(|after| !may_leave(work, before, *after) || is_in(set, *after))
}

fn includes_after(work: Option<Plan>, set: EnabledSet, before: EnabledSet) -> bool
    ensures { result ≡ spec.includes_after work set before }
{
    EACH.iter()
        .all(|e| !is_in(before, *e) || leaves_within(work, set, *e))
}

pub(crate) fn enabled_at(c: &RequestCertificate, at: u16) -> EnabledAt
    ensures { result ≡ spec.enabled_at c.now at }
{
    if at < IMAGE_START || at >= ROM_END {
        return NOTHING;
    }
    match c.places.get((at - IMAGE_START) as usize) {
        Some(place) => *place,
        None => NOTHING,
    }
}

pub(crate) fn is_past(notes: &Notes, from: u16, at: u16) -> bool
    ensures { result ≡ spec.is_past notes.now from at }
{
    is_end(notes, at) && at != from
}

fn is_closed_on(c: &RequestCertificate, work: Option<Plan>, here: EnabledAt, way: Way) -> bool
    ensures { result ≡ spec.is_closed_on c.now work here way }
{
    match way {
        Way::To { target, .. } => {
            let there = enabled_at(c, target);
            includes_after(work, there.before, here.before) && includes(here.behind, there.behind)
        }
        Way::Call { target, back, .. } => {
            let there = enabled_at(c, target);
            let behind = enabled_at(c, back);
            includes_after(work, there.before, here.before)
                && (includes(behind.before, there.behind) && includes(here.behind, behind.behind))
        }
        Way::Back { .. } => includes_after(work, here.behind, here.before),
        Way::Out { .. } => true,
    }
}

fn is_closed_on_all(
    c: &RequestCertificate,
    work: Option<Plan>,
    here: EnabledAt,
    ways: &[Way],
) -> bool
    ensures { result ≡ spec.is_closed_on_all c.now work here (Some ways.now) }
{
    ways.iter().all(|way| is_closed_on(c, work, here, *way))
}

// Whether an address keeps to what is asked of it.
fn is_closed(
    alloc: Global,
    image: &Image,
    notes: &Notes,
    from: u16,
    c: &RequestCertificate,
    at: u16,
) -> Result<bool, NoMemory>
    ensures { IfOk result (λ b. b ≡ spec.is_closed_at image.now notes.now from c.now at) }
{
    let here = enabled_at(c, at);
    if here.before.bits == 0 || is_past(notes, from, at) {
        return Ok(true);
    }
    match ways(alloc, image, notes, at)? {
        Some(ways) => Ok(is_closed_on_all(c, work_at(image, at), here, ways.as_slice())),
        None => Ok(false),
    }
}

// Whether each address does.
fn all_closed(
    alloc: Global,
    image: &Image,
    notes: &Notes,
    from: u16,
    c: &RequestCertificate,
) -> Result<bool, NoMemory>
    ensures sound { IfOk result (λ b. IsTrue b → (a : ℕ) → IsTrue (spec.is_closed_at image.now notes.now from c.now a)) }
    ensures all { IfOk result (λ b. ((a : ℕ) → IsTrue (spec.is_closed_at image.now notes.now from c.now a)) → IsTrue b) }
{
    for at in IMAGE_START..ROM_END {
        if !is_closed(alloc, image, notes, from, c, at)? {
            return Ok(false);
        }
    }
    Ok(true)
}

pub(crate) fn is_interruptible(work: Option<Plan>) -> bool
    ensures { result ≡ spec.is_interruptible work }
{
    match work {
        Some(Plan::BlockMove(interruptible)) => interruptible,
        _ => false,
    }
}

fn lets_in(work: Option<Plan>, set: EnabledSet) -> bool
    ensures { result ≡ spec.lets_in work set }
{
    EACH.iter().any(|e| {
        is_in(set, *e) && ((e.interrupts || e.server) && (!e.held || is_interruptible(work)))
    })
}

fn is_open(image: &Image, notes: &Notes, from: u16, c: &RequestCertificate, at: u16) -> bool
    ensures { result ≡ spec.is_open_at image.now notes.now from c.now at }
{
    !is_past(notes, from, at) && lets_in(work_at(image, at), enabled_at(c, at).before)
}

fn least_open(image: &Image, notes: &Notes, from: u16, c: &RequestCertificate) -> Option<u16>
    ensures { IsLeastOpen image.now notes.now from c.now result }
{
    for at in IMAGE_START..ROM_END {
        if is_open(image, notes, from, c, at) {
            return Some(at);
        }
    }
    None
}

/// The least address at which a request other than NMI may be served in a pass that begins with one of `first`, as a certificate
/// has it. `None` exactly where the certificate does not keep to what is asked of one.
pub fn checked(
    alloc: Global,
    image: &Image,
    notes: &Notes,
    from: u16,
    first: EnabledSet,
    c: &RequestCertificate,
) -> Result<Option<Open>, NoMemory>
    ensures closed { IfOk result (λ found. IfSome found (λ o. IsClosed image.now notes.now from first c.now)) }
    ensures least { IfOk result (λ found. IfSome found (λ o. IsLeastOpen image.now notes.now from c.now o.least)) }
    ensures all { IfOk result (λ found. IsClosed image.now notes.now from first c.now → IsSome found) }
{
    if !includes(enabled_at(c, from).before, first) {
        return Ok(None);
    }
    if !all_closed(alloc, image, notes, from, c)? {
        return Ok(None);
    }
    Ok(Some(Open {
        least: least_open(image, notes, from, c),
    }))
}
