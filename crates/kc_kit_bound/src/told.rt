// What is told of requests in the passes through a routine.
ghost use Rattle.std.specs.Prelude.{◌≡◌, ◌≤◌, ◌++◌, true, IfOk, IfSome, OnOk};
ghost use Rattle.kc_kit_bound.specs.Told as spec;
ghost use Rattle.kc_kit_bound.specs.Told.{IsOpenText, IsLatencyText};

use crate::texts::{put_at, put_states};
use kc_base::{Image, MAX_STATES, NoMemory};
use kc_bound::{Certificate, Notes};
use kc_bound_requests::{
    AT_RESET, CALLED, ENTERED, EnabledSet, INTERRUPTIBLE, checked, checked_latency, find,
    find_latency,
};
use kc_kit_words::Wanted;
use std::alloc::Global;

/// Where a reset begins.
const RESET: u16 = 0x2080;

/// The most states of the entry of an interrupt.
const ENTRY_STATES: u64 = 14;

/// What may be allowed where a pass begins.
pub(crate) fn first_of(wanted: Wanted) -> EnabledSet
    ensures { result ≡ spec.first_of wanted }
{
    if wanted.entered { ENTERED } else { CALLED }
}

/// What may be allowed where a time without interrupts begins with a pass.
pub(crate) fn latency_first(wanted: Wanted, from: u16) -> EnabledSet
    ensures { result ≡ spec.latency_first wanted from }
{
    if wanted.entered {
        ENTERED
    } else if from == RESET {
        AT_RESET
    } else {
        INTERRUPTIBLE
    }
}

fn put_open(text: &mut Vec<u8>, least: Option<u16>) -> Result<(), NoMemory>
    ensures { OnOk result (text.new.items ≡ text.old.items ++ spec.open_text least) }
{
    if let Some(at) = least {
        text.extend_from_slice(b"open")?;
        put_at(text, at)?;
        text.push(b'\n')?;
    }
    Ok(())
}

fn put_shut(text: &mut Vec<u8>, from: u16, most: u64) -> Result<(), NoMemory>
    requires { most ≤ MAX_STATES }
    ensures { OnOk result (text.new.items ≡ text.old.items ++ spec.shut_text from most) }
{
    put_states(text, "shut", from, u128::from(most))?;
    put_states(text, "latency", from, u128::from(most + ENTRY_STATES))?;
    Ok(())
}

fn open_line(alloc: Global, least: Option<u16>) -> Result<Vec<u8>, NoMemory>
    ensures { IfOk result (λ text. text.items ≡ spec.open_text least) }
{
    let mut text = Vec::new(alloc);
    put_open(&mut text, least)?;
    Ok(text)
}

fn shut_lines(alloc: Global, from: u16, most: u64) -> Result<Vec<u8>, NoMemory>
    requires { most ≤ MAX_STATES }
    ensures { IfOk result (λ text. text.items ≡ spec.shut_text from most) }
{
    let mut text = Vec::new(alloc);
    put_shut(&mut text, from, most)?;
    Ok(text)
}

/// The line of the least address where a request other than NMI may be served, and no line where there is none. `None` where no
/// certificate shows which it is.
pub(crate) fn open_text(
    alloc: Global,
    image: &Image,
    notes: &Notes,
    from: u16,
    first: EnabledSet,
) -> Result<Option<Vec<u8>>, NoMemory>
    ensures { IfOk result (λ found. IfSome found (λ text. IsOpenText image.now notes.now from first text.items)) }
{
    let c = find(alloc, image, notes, from, first)?;
    match checked(alloc, image, notes, from, first, &c)? {
        Some(found) => Ok(Some(open_line(alloc, found.least)?)),
        None => Ok(None),
    }
}

// The line where no certificate of the time without interrupts is found.
fn no_shut(alloc: Global, from: u16) -> Result<Vec<u8>, NoMemory>
    ensures { IfOk result (λ text. text.items ≡ spec.no_shut from) }
{
    let mut text = Vec::new(alloc);
    text.extend_from_slice(b"shut")?;
    put_at(&mut text, from)?;
    text.extend_from_slice(b" none\n")?;
    Ok(text)
}

// The lines of the time without interrupts that a certificate shows, or the line where none is found.
fn shut_text(
    alloc: Global,
    image: &Image,
    notes: &Notes,
    from: u16,
    first: EnabledSet,
    c: &Certificate,
) -> Result<Vec<u8>, NoMemory>
    ensures { IfOk result (λ text. IsLatencyText true image.now notes.now from first text.items) }
{
    let prices = c.prices.clone()?;
    let shut = find_latency(alloc, image, notes, from, first, prices)?;
    match checked_latency(alloc, image, notes, from, first, &shut)? {
        Some(most) => shut_lines(alloc, from, most),
        None => no_shut(alloc, from),
    }
}

/// The lines of the most states without interrupts and of the most until a routine of one begins, where they are asked for; or the line
/// that no certificate shows them. The loops of the bound's certificate are paid by its prices.
pub(crate) fn latency_text(
    alloc: Global,
    image: &Image,
    notes: &Notes,
    from: u16,
    wanted: Wanted,
    c: &Certificate,
) -> Result<Vec<u8>, NoMemory>
    ensures { IfOk result (λ text. IsLatencyText wanted.latency image.now notes.now from (spec.latency_first wanted from) text.items) }
{
    if !wanted.latency {
        return Ok(Vec::new(alloc));
    }
    shut_text(alloc, image, notes, from, latency_first(wanted, from), c)
}
