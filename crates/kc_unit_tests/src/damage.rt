// Certificates with one number changed: each is refused, or shows no less. The bounds and times were worked by hand.
use crate::bounds::{all_notes, program};
use kc_base::{Image, NoMemory};
use kc_bound::{Certificate, Notes, Standing, checked};
use kc_bound_find::{Found, find};
use kc_bound_requests::{
    CALLED, ENTERED, EnabledAt, EnabledSet, INTERRUPTIBLE, LatencyCertificate, RequestCertificate,
    checked_latency, find_latency,
};
use std::alloc::Global;
use std::test::Fail;

/// The notes, and an address at which a pass is over beside its return.
fn notes_to(alloc: Global, end: Option<u16>) -> Result<Notes, NoMemory> {
    let mut notes = all_notes(alloc)?;
    if let Some(at) = end {
        notes.ends.push(at)?;
    }
    Ok(notes)
}

// ---- bounds

/// From where, where a pass is over beside its return, and its bound.
static BOUNDS: [(u16, Option<u16>, u64); 4] = [
    (0x2100, None, 31),
    (0x210B, None, 288),
    (0x2139, None, 96),
    (0x2143, Some(0x2143), 16),
];

/// What is changed of a standing.
#[derive(Clone, Copy)]
enum Change {
    Less,
    More,
    Rank,
    Leaves,
    Gone,
}

static CHANGES: [Change; 5] = [
    Change::Less,
    Change::More,
    Change::Rank,
    Change::Leaves,
    Change::Gone,
];

fn changed(standing: Standing, change: Change) -> Option<Standing> {
    let Standing {
        potential,
        rank,
        leaves,
    } = standing;
    match change {
        Change::Less => Some(Standing {
            potential: potential.saturating_sub(1),
            rank,
            leaves,
        }),
        Change::More => Some(Standing {
            potential: potential.saturating_add(1),
            rank,
            leaves,
        }),
        Change::Rank => Some(Standing {
            potential,
            rank: rank.saturating_sub(1),
            leaves,
        }),
        Change::Leaves => Some(Standing {
            potential,
            rank,
            leaves: !leaves,
        }),
        Change::Gone => None,
    }
}

fn set_standing(c: &mut Certificate, place: usize, standing: Option<Standing>) {
    if let Some(slot) = c.standings.get_mut(place) {
        *slot = standing;
    }
}

fn set_price(c: &mut Certificate, k: usize, price: u64) {
    if let Some(slot) = c.prices.get_mut(k) {
        *slot = price;
    }
}

/// Whether a certificate is refused, or shows no less than so many states.
fn shows_no_less(
    alloc: Global,
    image: &Image,
    notes: &Notes,
    from: u16,
    c: &Certificate,
    states: u64,
) -> Result<bool, NoMemory> {
    match checked(alloc, image, notes, from, c)? {
        Some(bound) => Ok(bound.over >= states),
        None => Ok(true),
    }
}

#[test]
fn a_changed_certificate_of_a_bound_shows_no_less(rt: HostRuntime) -> Result<(), Fail> {
    let alloc = rt.alloc();
    let image = program(alloc)?;
    for (from, end, states) in &BOUNDS {
        let notes = notes_to(alloc, *end)?;
        let Found::Certificate(mut c) = find(alloc, &image, &notes, *from)? else {
            panic!(rt; "{from:x}: no certificate");
        };
        // the addresses of the program, from 2000H on
        for place in 0x100..0x150 {
            let Some(Some(whole)) = c.standings.get(place).copied() else {
                continue;
            };
            for change in &CHANGES {
                set_standing(&mut c, place, changed(whole, *change));
                let kept = shows_no_less(alloc, &image, &notes, *from, &c, *states)?;
                assert!(rt; kept, "{from:x} {place:x}");
            }
            set_standing(&mut c, place, Some(whole));
        }
        for k in 0..notes.loops.len() {
            let Some(whole) = c.prices.get(k).copied() else {
                panic!(rt; "no price");
            };
            set_price(&mut c, k, whole.saturating_sub(1));
            let kept = shows_no_less(alloc, &image, &notes, *from, &c, *states)?;
            assert!(rt; kept, "{from:x} price {k}");
            set_price(&mut c, k, whole);
        }
    }
    Ok(())
}

// ---- requests

/// From where, where a pass is over beside its return, with what it begins, and the least address that is open.
static OPEN: [(u16, Option<u16>, EnabledSet, u16); 4] = [
    (0x2100, None, ENTERED, 0x2103),
    (0x210B, None, CALLED, 0x210B),
    (0x210B, None, ENTERED, 0x210E),
    (0x2143, Some(0x2143), ENTERED, 0x2146),
];

fn set_place(c: &mut RequestCertificate, place: usize, at: EnabledAt) {
    if let Some(slot) = c.places.get_mut(place) {
        *slot = at;
    }
}

/// Whether a certificate is refused, or shows an address that is no higher.
fn shows_no_higher(
    alloc: Global,
    image: &Image,
    notes: &Notes,
    from: u16,
    first: EnabledSet,
    c: &RequestCertificate,
    least: u16,
) -> Result<bool, NoMemory> {
    match kc_bound_requests::checked(alloc, image, notes, from, first, c)? {
        Some(open) => Ok(open.least.is_some_and(|at| at <= least)),
        None => Ok(true),
    }
}

#[test]
fn a_changed_certificate_of_requests_shows_no_higher_address(rt: HostRuntime) -> Result<(), Fail> {
    let alloc = rt.alloc();
    let image = program(alloc)?;
    for (from, end, first, least) in &OPEN {
        let notes = notes_to(alloc, *end)?;
        let mut c = kc_bound_requests::find(alloc, &image, &notes, *from, *first)?;
        for place in 0x100..0x150 {
            let Some(whole) = c.places.get(place).copied() else {
                panic!(rt; "no place");
            };
            for bit in [0x01, 0x02, 0x04, 0x08, 0x10, 0x20, 0x40, 0x80] {
                if whole.before.bits & bit == 0 {
                    continue;
                }
                let mut less = whole;
                less.before.bits &= !bit;
                set_place(&mut c, place, less);
                let kept = shows_no_higher(alloc, &image, &notes, *from, *first, &c, *least)?;
                assert!(rt; kept, "{from:x} {place:x} {bit:x}");
            }
            set_place(&mut c, place, whole);
        }
    }
    Ok(())
}

// ---- latency

/// From where, where a pass is over beside its return, with what it begins, and the longest time.
static SHUT: [(u16, Option<u16>, EnabledSet, u64); 2] = [
    (0x2139, None, ENTERED, 96),
    (0x2143, Some(0x2143), INTERRUPTIBLE, 9),
];

fn set_before(c: &mut LatencyCertificate, k: usize, states: u64) {
    if let Some(slot) = c.before.get_mut(k) {
        *slot = states;
    }
}

/// Whether a certificate is refused.
fn is_refused(
    alloc: Global,
    image: &Image,
    notes: &Notes,
    from: u16,
    first: EnabledSet,
    c: &LatencyCertificate,
) -> Result<bool, NoMemory> {
    Ok(checked_latency(alloc, image, notes, from, first, c)?.is_none())
}

#[test]
fn no_certificate_shows_a_shorter_time(rt: HostRuntime) -> Result<(), Fail> {
    let alloc = rt.alloc();
    let image = program(alloc)?;
    for (from, end, first, longest) in &SHUT {
        let notes = notes_to(alloc, *end)?;
        let Found::Certificate(bound) = find(alloc, &image, &notes, *from)? else {
            panic!(rt; "{from:x}: no certificate");
        };
        let mut c = find_latency(alloc, &image, &notes, *from, *first, bound.prices)?;
        assert!(rt; c.most == *longest, "{from:x}");
        c.most = longest.saturating_sub(1);
        let refused = is_refused(alloc, &image, &notes, *from, *first, &c)?;
        assert!(rt; refused, "{from:x}");
        // the numbers of the addresses of the program, eight for each
        for k in 0x800..0xA80 {
            let Some(whole) = c.before.get(k).copied() else {
                panic!(rt; "no number");
            };
            if whole == 0 {
                continue;
            }
            set_before(&mut c, k, whole - 1);
            let refused = is_refused(alloc, &image, &notes, *from, *first, &c)?;
            assert!(rt; refused, "{from:x} {k:x}");
            set_before(&mut c, k, whole);
        }
    }
    Ok(())
}
