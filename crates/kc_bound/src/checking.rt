ghost use Rattle.std.specs.Prelude.{◌≡◌, ℕ, ◌+◌, ◌-◌, ◌*◌, ◌^◌, ◌<◌, ◌≤◌, SomeIff, IfOk, IfSome, IsTrue, Some, length, vec_len};
ghost use Rattle.std.specs.List.{list_all};
ghost use Rattle.kc_bound.specs.Certified as spec;
ghost use Rattle.kc_bound.specs.Certified.{Shows};
ghost use Rattle.kc_bound.specs.Times.{times_of};

use crate::certificate::{Bound, Certificate, Standing};
use crate::instruction_ways::ways;
use crate::looking::{is_among, is_end};
use crate::notes::{Loop, Notes};
use crate::way::Way;
use kc_base::{IMAGE_START, Image, MAX_STATES, NoMemory, ROM_END};
use std::alloc::Global;

/// How many times a price is counted: once where an address is the loop's head, for all its turns where its count starts anew at an
/// address, or for all its turns where it is noted for the whole pass.
#[derive(Clone, Copy, Drop)]
pub(crate) enum Times {
    Begins(u16),
    Turns(u16),
    First,
}

fn standing_at(c: &Certificate, at: u16) -> Option<Standing>
    ensures { result ≡ spec.standing_at c.now at }
{
    if at < IMAGE_START {
        return None;
    }
    match c.standings.get((at - IMAGE_START) as usize) {
        Some(standing) => *standing,
        None => None,
    }
}

fn count_of(kind: Times, l: &Loop) -> u64
    ensures { result ≡ times_of kind l.now }
{
    match kind {
        Times::Begins(at) => { if l.head == at { 1 } else { 0 } }
        Times::Turns(at) => {
            if is_among(l.per.as_slice(), at) {
                l.most
            } else {
                0
            }
        }
        Times::First => { if l.per.is_empty() { l.most } else { 0 } }
    }
}

// The prices of loops, each so many times; none where the sum has more than 128 bits.
fn priced(kind: Times, loops: &[Loop], prices: &[u64]) -> Option<u128>
    ensures { SomeIff result (spec.priced (times_of kind) loops.now prices.now < 2 ^ 128) (spec.priced (times_of kind) loops.now prices.now) }
{
    let mut sum: u128 = 0;
    let mut loops_left = loops;
    let mut prices_left = prices;
    while let [l, other_loops @ ..] = loops_left {
        let [price, other_prices @ ..] = prices_left else {
            return Some(sum);
        };
        let own = u128::from(count_of(kind, l)).checked_mul(u128::from(*price))?;
        sum = sum.checked_add(own)?;
        loops_left = other_loops;
        prices_left = other_prices;
    }
    Some(sum)
}

fn follows(here: Standing, there: Standing) -> bool
    ensures { result ≡ spec.follows here there }
{
    there.rank <= here.rank && (!there.leaves || here.leaves)
}

fn pays_on(here: Standing, has: u128, spent: u128, there: Option<Standing>) -> bool
    requires { spent < 2 ^ 127 + 2 ^ 66 }
    ensures { result ≡ spec.pays_on here has spent there }
{
    let Some(there) = there else {
        return false;
    };
    spent + u128::from(there.potential) <= has && follows(here, there)
}

fn pays_call(
    floor: u64,
    here: Standing,
    has: u128,
    spent: u128,
    is_last: bool,
    there: Option<Standing>,
    behind: Option<Standing>,
) -> bool
    requires spent { spent < 2 ^ 127 + 2 ^ 66 }
    requires has { has < 2 ^ 127 + 2 ^ 64 }
    ensures { result ≡ spec.pays_call floor here has spent is_last there behind }
{
    let (Some(there), Some(behind)) = (there, behind) else {
        return false;
    };
    spent + u128::from(there.potential) + u128::from(behind.potential) <= has + u128::from(floor)
        && (there.rank < here.rank && (follows(here, there) && follows(here, behind)))
        && ((!(there.leaves || is_last) || floor <= behind.potential) && (!is_last || here.leaves))
}

// Whether a way pays, with what its address has, and the credit of what begins anew there.
fn pays(notes: &Notes, c: &Certificate, here: Standing, has: u128, credit: u128, way: Way) -> bool
    requires has { has < 2 ^ 127 + 2 ^ 64 }
    requires credit { credit ≤ has + c.now.floor }
    ensures { result ≡ spec.pays notes.now c.now here has credit way }
{
    let floor = u128::from(c.floor);
    match way {
        Way::To { states, target } => {
            pays_on(
                here,
                has,
                u128::from(states) + credit,
                standing_at(c, target),
            )
        }
        Way::Call {
            states,
            target,
            back,
        } => pays_call(
            c.floor,
            here,
            has,
            u128::from(states) + credit,
            is_end(notes, back),
            standing_at(c, target),
            standing_at(c, back),
        ),
        Way::Back { states } => u128::from(states) + credit + floor <= has,
        Way::Out { states } => u128::from(states) + credit + floor <= has && here.leaves,
    }
}

fn all_pay(
    notes: &Notes,
    c: &Certificate,
    here: Standing,
    has: u128,
    credit: u128,
    ways: &[Way],
) -> bool
    requires has { has < 2 ^ 127 + 2 ^ 64 }
    requires credit { credit ≤ has + c.now.floor }
    ensures { result ≡ list_all (spec.pays notes.now c.now here has credit) ways.now }
{
    ways.iter()
        .all(|way| pays(notes, c, here, has, credit, *way))
}

// The prices of the loops that begin at an address: at most each price once.
fn price_of(at: u16, loops: &[Loop], prices: &[u64]) -> u128
    requires { length prices.now < 2 ^ 63 }
    ensures value { result ≡ spec.priced (spec.begins_at at) loops.now prices.now }
    ensures bound { result < 2 ^ 127 }
{
    let Some(price) = priced(Times::Begins(at), loops, prices) else {
        unreachable!();
    };
    price
}

fn price_at(notes: &Notes, c: &Certificate, at: u16) -> u128
    ensures value { result ≡ spec.price_at notes.now c.now at }
    ensures bound { result < 2 ^ 127 }
{
    let loops = notes.loops.as_slice();
    let prices = c.prices.as_slice();
    price_of(at, loops, prices)
}

fn credit_at(notes: &Notes, c: &Certificate, at: u16) -> Option<u128>
    ensures { SomeIff result (spec.credit_at notes.now c.now at < 2 ^ 128) (spec.credit_at notes.now c.now at) }
{
    let loops = notes.loops.as_slice();
    let prices = c.prices.as_slice();
    priced(Times::Turns(at), loops, prices)
}

fn prepaid(notes: &Notes, c: &Certificate) -> Option<u128>
    ensures { SomeIff result (spec.prepaid notes.now c.now < 2 ^ 128) (spec.prepaid notes.now c.now) }
{
    let loops = notes.loops.as_slice();
    let prices = c.prices.as_slice();
    priced(Times::First, loops, prices)
}

// What there is to spend, with the floor.
fn with_floor(has: u128, floor: u64) -> u128
    requires { has < 2 ^ 127 + 2 ^ 64 }
    ensures value { result ≡ has + floor }
    ensures bound { result < 2 ^ 128 }
{
    has + u128::from(floor)
}

// Whether each way on from an address pays. A credit above all that there is to spend pays for none.
fn pays_all(notes: &Notes, c: &Certificate, at: u16, here: Standing, ways: &[Way]) -> bool
    ensures { result ≡ spec.pays_all notes.now c.now at here (Some ways.now) }
{
    let has = u128::from(here.potential) + price_at(notes, c, at);
    let most = with_floor(has, c.floor);
    let Some(credit) = credit_at(notes, c, at) else {
        return false;
    };
    if ways.is_empty() || most < credit {
        return false;
    }
    all_pay(notes, c, here, has, credit, ways)
}

// Whether an address keeps to what is asked of it.
fn is_sound(
    alloc: Global,
    image: &Image,
    notes: &Notes,
    from: u16,
    c: &Certificate,
    at: u16,
) -> Result<bool, NoMemory>
    ensures { IfOk result (λ b. b ≡ spec.is_sound_at image.now notes.now from c.now at (spec.standing_at c.now at)) }
{
    let Some(here) = standing_at(c, at) else {
        return Ok(true);
    };
    if is_end(notes, at) && at != from {
        return Ok(true);
    }
    match ways(alloc, image, notes, at)? {
        Some(ways) => Ok(pays_all(notes, c, at, here, ways.as_slice())),
        None => Ok(false),
    }
}

// Whether each address does, and none behind the ROM has a standing.
fn all_sound(
    alloc: Global,
    image: &Image,
    notes: &Notes,
    from: u16,
    c: &Certificate,
) -> Result<bool, NoMemory>
    ensures sound { IfOk result (λ b. IsTrue b → (a : ℕ) → IsTrue (spec.is_sound_at image.now notes.now from c.now a (spec.standing_at c.now a))) }
    ensures all { IfOk result (λ b. vec_len c.now.standings ≤ ROM_END - IMAGE_START → ((a : ℕ) → IsTrue (spec.is_sound_at image.now notes.now from c.now a (spec.standing_at c.now a))) → IsTrue b) }
{
    if c.standings.len() > usize::from(ROM_END - IMAGE_START) {
        return Ok(false);
    }
    for i in 0..c.standings.len() {
        if !is_sound(alloc, image, notes, from, c, IMAGE_START + i as u16)? {
            return Ok(false);
        }
    }
    Ok(true)
}

// The bound that a certificate shows, if it is at most the longest run.
fn shown(notes: &Notes, c: &Certificate, first: Standing) -> Option<Bound>
    ensures over { IfSome result (λ b. b.over + c.now.floor ≡ first.potential + spec.prepaid notes.now c.now) }
    ensures always { IfSome result (λ b. b.always ≡ first.potential + spec.prepaid notes.now c.now + c.now.floor * first.rank) }
    ensures most { IfSome result (λ b. b.over ≤ MAX_STATES) }
    ensures all { (b : Bound) → b.over + c.now.floor ≡ first.potential + spec.prepaid notes.now c.now → b.always ≡ first.potential + spec.prepaid notes.now c.now + c.now.floor * first.rank → b.over ≤ MAX_STATES → b.always < 2 ^ 64 → result ≡ Some b }
{
    let paid = prepaid(notes, c)?;
    let all = u128::from(first.potential).checked_add(paid)?;
    let over = u64::try_from(all.checked_sub(u128::from(c.floor))?).ok()?;
    let calls = u128::from(c.floor).checked_mul(u128::from(first.rank))?;
    let always = u64::try_from(all.checked_add(calls)?).ok()?;
    (over <= MAX_STATES).then_some(Bound { over, always })
}

/// The bound of each pass from an address through an image that a certificate shows. `None` where the certificate does not keep to all
/// that is asked of one, where it has standings behind the ROM, and where the bound is above the longest run, or the larger one above 64
/// bits; and only there.
pub fn checked(
    alloc: Global,
    image: &Image,
    notes: &Notes,
    from: u16,
    c: &Certificate,
) -> Result<Option<Bound>, NoMemory>
    ensures shows { IfOk result (λ found. IfSome found (λ b. Shows image.now notes.now from c.now b)) }
    ensures most { IfOk result (λ found. IfSome found (λ b. b.over ≤ MAX_STATES)) }
    ensures all { IfOk result (λ found. vec_len c.now.standings ≤ ROM_END - IMAGE_START → (b : Bound) → Shows image.now notes.now from c.now b → b.over ≤ MAX_STATES → b.always < 2 ^ 64 → found ≡ Some b) }
{
    let Some(first) = standing_at(c, from) else {
        return Ok(None);
    };
    if !all_sound(alloc, image, notes, from, c)? {
        return Ok(None);
    }
    Ok(shown(notes, c, first))
}
