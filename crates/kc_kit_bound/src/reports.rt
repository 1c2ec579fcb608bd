// What is printed of the passes through a routine.
ghost use Rattle.std.specs.Prelude.{◌≡◌, ◌++◌, false, IfOk, IfSome, OnOk, codes, flat_map};
ghost use Rattle.kc_kit_bound.specs.Refusals.{refusal_line};
ghost use Rattle.kc_kit_bound.specs.Reports as spec;
ghost use Rattle.kc_kit_bound.specs.Reports.{IsMaybeWalk, IsReport};
ghost use Rattle.kc_kit_bound.specs.Texts.{at_text};
ghost use Rattle.kc_kit_bound.specs.Told.{first_of as first_said, latency_first, IsOpenText, IsLatencyText};

use crate::refusals::{put_refusal, refusals_text};
use crate::stops::first_stop;
use crate::texts::{put_at, put_states};
use crate::told::{first_of, latency_text, open_text};
use crate::walk_text::walk_text;
use kc_base::{Image, NoMemory, put_number};
use kc_bound::{Bound, Certificate, Loop, Notes, checked};
use kc_bound_find::{Found, find};
use kc_debug_script::LineMap;
use kc_kit_words::Wanted;
use std::alloc::Global;

/// What is printed, and whether it is a bound: else the lines of refusals.
#[derive(Drop)]
pub struct Report {
    pub text: Vec<u8>,
    pub is_bound: bool,
}

fn put_stop(text: &mut Vec<u8>, stop: Option<u16>) -> Result<(), NoMemory>
    ensures { OnOk result (text.new.items ≡ text.old.items ++ spec.stop_text stop) }
{
    if let Some(at) = stop {
        text.extend_from_slice(b"stops")?;
        put_at(text, at)?;
        text.push(b'\n')?;
    }
    Ok(())
}

// Puts addresses, each behind a blank.
fn put_each(text: &mut Vec<u8>, addresses: &[u16]) -> Result<(), NoMemory>
    ensures { OnOk result (text.new.items ≡ text.old.items ++ flat_map at_text addresses.now) }
{
    let mut left = addresses;
    while let [at, rest @ ..] = left {
        put_at(text, *at)?;
        left = rest;
    }
    Ok(())
}

// Puts where the turns of a loop are counted anew.
fn put_per(text: &mut Vec<u8>, per: &[u16]) -> Result<(), NoMemory>
    ensures { OnOk result (text.new.items ≡ text.old.items ++ spec.per_text per.now) }
{
    if !per.is_empty() {
        text.extend_from_slice(b" per")?;
        put_each(text, per)?;
    }
    Ok(())
}

fn put_loop(text: &mut Vec<u8>, l: &Loop, price: u64) -> Result<(), NoMemory>
    ensures { OnOk result (text.new.items ≡ text.old.items ++ spec.loop_line l.now price) }
{
    text.extend_from_slice(b"loop")?;
    put_at(text, l.head)?;
    text.push(b' ')?;
    put_number(text, u128::from(price))?;
    text.extend_from_slice(b" x ")?;
    put_number(text, u128::from(l.most))?;
    put_per(text, l.per.as_slice())?;
    text.push(b'\n')?;
    Ok(())
}

// Puts the line of a loop, if it adds something to the bound.
fn put_priced(text: &mut Vec<u8>, l: &Loop, price: u64) -> Result<(), NoMemory>
    ensures { OnOk result (text.new.items ≡ text.old.items ++ spec.loop_text l.now price) }
{
    if price == 0 {
        return Ok(());
    }
    put_loop(text, l, price)
}

fn put_loops(text: &mut Vec<u8>, loops: &[Loop], prices: &[u64]) -> Result<(), NoMemory>
    ensures { OnOk result (text.new.items ≡ text.old.items ++ spec.loops_text loops.now prices.now) }
{
    let mut loops_left = loops;
    let mut prices_left = prices;
    while let [l, other_loops @ ..] = loops_left {
        let [price, other_prices @ ..] = prices_left else {
            return Ok(());
        };
        put_priced(text, l, *price)?;
        loops_left = other_loops;
        prices_left = other_prices;
    }
    Ok(())
}

// What is told beside a bound.
#[derive(Drop)]
struct Told {
    served: Vec<u8>,
    latency: Vec<u8>,
    walk: Vec<u8>,
}

// The lines of a walk, where it is asked for.
fn maybe_walk(
    alloc: Global,
    image: &Image,
    notes: &Notes,
    lines: &LineMap,
    from: u16,
    is_wanted: bool,
    c: &Certificate,
) -> Result<Vec<u8>, NoMemory>
    ensures { IfOk result (λ text. IsMaybeWalk is_wanted image.now notes.now from lines.now text.items) }
{
    if !is_wanted {
        return Ok(Vec::new(alloc));
    }
    walk_text(alloc, image, notes, from, c, lines)
}

// What is told beside a bound that a certificate shows. `None` where no certificate shows where requests are served.
fn tell(
    alloc: Global,
    image: &Image,
    notes: &Notes,
    lines: &LineMap,
    from: u16,
    wanted: Wanted,
    c: &Certificate,
) -> Result<Option<Told>, NoMemory>
    ensures served { IfOk result (λ found. IfSome found (λ t. IsOpenText image.now notes.now from (first_said wanted) t.served.items)) }
    ensures latency { IfOk result (λ found. IfSome found (λ t. IsLatencyText wanted.latency image.now notes.now from (latency_first wanted from) t.latency.items)) }
    ensures walk { IfOk result (λ found. IfSome found (λ t. IsMaybeWalk wanted.worst image.now notes.now from lines.now t.walk.items)) }
{
    let Some(served) = open_text(alloc, image, notes, from, first_of(wanted))? else {
        return Ok(None);
    };
    let latency = latency_text(alloc, image, notes, from, wanted, c)?;
    let walk = maybe_walk(alloc, image, notes, lines, from, wanted.worst, c)?;
    Ok(Some(Told {
        served,
        latency,
        walk,
    }))
}

// The text of a bound that a certificate shows, with what is told beside it.
fn bound_text(
    alloc: Global,
    image: &Image,
    notes: &Notes,
    from: u16,
    c: &Certificate,
    b: Bound,
    told: &Told,
) -> Result<Vec<u8>, NoMemory>
    ensures { IfOk result (λ text. text.items ≡ spec.bound_text image.now notes.now from c.now b told.now.served.items told.now.latency.items told.now.walk.items) }
{
    let mut text = Vec::new(alloc);
    put_states(&mut text, "bound", from, u128::from(b.over))?;
    text.extend_from_slice(told.served.as_slice())?;
    text.extend_from_slice(told.latency.as_slice())?;
    put_stop(&mut text, first_stop(image, notes, from, c))?;
    put_loops(&mut text, notes.loops.as_slice(), c.prices.as_slice())?;
    text.extend_from_slice(told.walk.as_slice())?;
    Ok(text)
}

// What is printed where a certificate is not let through by its check.
fn long_report(alloc: Global, from: u16) -> Result<Report, NoMemory>
    ensures text { IfOk result (λ report. report.text.items ≡ refusal_line (codes "long") from) }
    ensures no_bound { IfOk result (λ report. report.is_bound ≡ false) }
{
    let mut text = Vec::new(alloc);
    put_refusal(&mut text, "long", from)?;
    Ok(Report {
        text,
        is_bound: false,
    })
}

// What is printed of a certificate.
fn report_checked(
    alloc: Global,
    image: &Image,
    notes: &Notes,
    lines: &LineMap,
    from: u16,
    wanted: Wanted,
    c: &Certificate,
) -> Result<Report, NoMemory>
    ensures { IfOk result (λ report. IsReport image.now notes.now lines.now from wanted report.is_bound report.text.items) }
{
    let Some(b) = checked(alloc, image, notes, from, c)? else {
        return long_report(alloc, from);
    };
    match tell(alloc, image, notes, lines, from, wanted, c)? {
        Some(told) => Ok(Report {
            text: bound_text(alloc, image, notes, from, c, b, &told)?,
            is_bound: true,
        }),
        None => long_report(alloc, from),
    }
}

/// What is printed of the passes from an address of an image, with what is wanted beside a bound; the lines of the sources stand
/// behind those of a walk.
pub fn report_bound(
    alloc: Global,
    image: &Image,
    notes: &Notes,
    lines: &LineMap,
    from: u16,
    wanted: Wanted,
) -> Result<Report, NoMemory>
    ensures { IfOk result (λ report. IsReport image.now notes.now lines.now from wanted report.is_bound report.text.items) }
{
    match find(alloc, image, notes, from)? {
        Found::Certificate(c) => report_checked(alloc, image, notes, lines, from, wanted, &c),
        Found::Refused(refusals) => Ok(Report {
            text: refusals_text(alloc, refusals.as_slice())?,
            is_bound: false,
        }),
    }
}
