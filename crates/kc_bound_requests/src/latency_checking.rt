ghost use Rattle.std.specs.Prelude.{◌≡◌, ℕ, ◌+◌, ◌^◌, ◌<◌, ◌≤◌, ◌-◌, ◌&&◌, length, SomeIff, IfOk, IfSome, IsTrue, Some, nat_le};
ghost use Rattle.std.specs.List.{list_all};
ghost use Rattle.kc_bound_requests.specs.Enabled as enabled;
ghost use Rattle.kc_bound_requests.specs.Closed as closed;
ghost use Rattle.kc_bound_requests.specs.Latency as spec;
ghost use Rattle.kc_bound_requests.specs.Latency.{ShowsShut};
ghost use Rattle.kc_bound_requests.specs.declared.enabled.TheConstants.{EACH};
ghost use Rattle.kc_bound.specs.declared.way.Way.TheVariants.{Call};

use crate::certificate::EnabledSet;
use crate::checking::{checked, enabled_at, includes, is_in, is_interruptible, is_past};
use crate::enabled::{EACH, Enabled};
use crate::latency_certificate::LatencyCertificate;
use crate::latency_looking::{
    asks_between_words, returns_at, returns_next, shut_at, shut_behind, shut_next, shut_states,
    way_states, words_at,
};
use crate::latency_prices::{all_turns, credit_at, price_at};
use crate::work::{may_leave, work_at};
use kc_base::{IMAGE_START, Image, MAX_STATES, NoMemory, ROM_END};
use kc_bound::{Notes, Way, ways};
use kc_exec_spec::Plan;
use std::alloc::Global;

// Whether what an address has, of which so much is spent, covers what follows where another is come to with this.
fn covers_next(
    notes: &Notes,
    c: &LatencyCertificate,
    at: u16,
    e: Enabled,
    has: u128,
    spent: u128,
    target: u16,
    after: Enabled,
) -> bool
    requires { spent < 2 ^ 128 - 2 ^ 64 }
    ensures { result ≡ spec.covers_next notes.now c.now at e has spent target after }
{
    spent + u128::from(shut_next(notes, c, target, after)) <= has
        && includes(returns_at(c, at, e), returns_next(notes, c, target, after))
}

// The same of each that the routine may return with.
fn covers_returns(
    notes: &Notes,
    c: &LatencyCertificate,
    at: u16,
    e: Enabled,
    has: u128,
    inside: u128,
    returns: EnabledSet,
    back: u16,
) -> bool
    requires { inside < 2 ^ 128 - 2 ^ 64 }
    ensures { result ≡ list_all (λ x. closed.implies (closed.is_in returns x) (spec.covers_next notes.now c.now at e has inside back x)) EACH }
{
    EACH.iter().all(|x| !is_in(returns, *x) || covers_next(notes, c, at, e, has, inside, back, *x))
}

// The same of a call.
fn covers_call(
    notes: &Notes,
    c: &LatencyCertificate,
    at: u16,
    e: Enabled,
    has: u128,
    spent: u128,
    target: u16,
    back: u16,
    after: Enabled,
) -> bool
    requires { spent < 2 ^ 128 - 2 ^ 65 }
    ensures { result ≡ spec.covers_after notes.now c.now at e has spent (Call 0 target back) after }
{
    let inside = spent + u128::from(shut_next(notes, c, target, after));
    let returns = returns_next(notes, c, target, after);
    inside <= has && covers_returns(notes, c, at, e, has, inside, returns, back)
}

// The same of a way, where it goes on with this.
fn covers_after(
    notes: &Notes,
    c: &LatencyCertificate,
    at: u16,
    e: Enabled,
    has: u128,
    spent: u128,
    way: Way,
    after: Enabled,
) -> bool
    requires { spent < 2 ^ 128 - 2 ^ 65 }
    ensures { result ≡ spec.covers_after notes.now c.now at e has spent way after }
{
    match way {
        Way::To { target, .. } => covers_next(notes, c, at, e, has, spent, target, after),
        Way::Call { target, back, .. } => {
            covers_call(notes, c, at, e, has, spent, target, back, after)
        }
        Way::Back { .. } => is_in(returns_at(c, at, e), after),
        Way::Out { .. } => true,
    }
}

// Whether a way pays, with what its address has, and what it spends.
fn pays_spent(
    notes: &Notes,
    c: &LatencyCertificate,
    work: Option<Plan>,
    at: u16,
    e: Enabled,
    has: u128,
    spent: u128,
    way: Way,
) -> bool
    requires { spent < 2 ^ 128 - 2 ^ 65 }
    ensures { result ≡ list_all (λ after. closed.implies (enabled.may_leave work e after) (spec.covers_after notes.now c.now at e has spent way after)) EACH }
{
    EACH.iter().all(|after| !may_leave(work, e, *after)
        || covers_after(notes, c, at, e, has, spent, way, *after))
}

// Whether a way pays, with the credit of what begins anew at its address, which is at most what that has.
fn pays(
    notes: &Notes,
    c: &LatencyCertificate,
    work: Option<Plan>,
    at: u16,
    e: Enabled,
    has: u128,
    credit: u128,
    way: Way,
) -> bool
    requires has { has < 2 ^ 127 + 2 ^ 64 }
    requires credit { credit ≤ has }
    ensures { result ≡ spec.pays notes.now c.now work at e has credit way }
{
    let spent = u128::from(shut_states(work, words_at(notes, at), e, way_states(way))) + credit;
    spent <= has && pays_spent(notes, c, work, at, e, has, spent, way)
}

fn all_pay(
    notes: &Notes,
    c: &LatencyCertificate,
    work: Option<Plan>,
    at: u16,
    e: Enabled,
    has: u128,
    credit: u128,
    ways: &[Way],
) -> bool
    requires has { has < 2 ^ 127 + 2 ^ 64 }
    requires credit { credit ≤ has }
    ensures { result ≡ list_all (spec.pays notes.now c.now work at e has credit) ways.now }
{
    ways.iter()
        .all(|way| pays(notes, c, work, at, e, has, credit, *way))
}

// Whether what may go by behind the RET of a routine, at the first address, covers it at the second.
fn covers_behind(c: &LatencyCertificate, most: u16, at: u16) -> bool
    ensures { result ≡ spec.covers (spec.shut_behind c.now most) (spec.shut_behind c.now at) }
{
    EACH.iter()
        .all(|e| shut_behind(c, at, *e) <= shut_behind(c, most, *e))
}

// Whether so many cover these, and what may go by behind the RET of a routine that returns with any of a set.
fn covers_next_behind(
    c: &LatencyCertificate,
    at: u16,
    most: u128,
    next: u128,
    returns: EnabledSet,
) -> bool
    requires { next < 2 ^ 64 }
    ensures { result ≡ list_all (λ x. closed.implies (closed.is_in returns x) (nat_le (next + spec.shut_behind c.now at x) most)) EACH }
{
    EACH.iter().all(|x| !is_in(returns, *x) || next + u128::from(shut_behind(c, at, *x)) <= most)
}

// Whether what may go by behind the RET of a routine that returns with this covers what follows where it returns to.
fn covers_return(
    notes: &Notes,
    c: &LatencyCertificate,
    at: u16,
    target: u16,
    back: u16,
    e: Enabled,
) -> bool
    ensures { result ≡ spec.covers_return notes.now c.now at target back e }
{
    let most = u128::from(shut_behind(c, target, e));
    let next = u128::from(shut_next(notes, c, back, e));
    let returns = returns_next(notes, c, back, e);
    next <= most && covers_next_behind(c, at, most, next, returns)
}

// The same by each that it may return with.
fn covers_each_return(
    notes: &Notes,
    c: &LatencyCertificate,
    at: u16,
    target: u16,
    back: u16,
) -> bool
    ensures { result ≡ list_all (spec.covers_return notes.now c.now at target back) EACH }
{
    EACH.iter()
        .all(|e| covers_return(notes, c, at, target, back, *e))
}

fn hands_on(notes: &Notes, c: &LatencyCertificate, at: u16, way: Way) -> bool
    ensures { result ≡ spec.hands_on notes.now c.now at way }
{
    match way {
        Way::To { target, .. } => covers_behind(c, target, at),
        Way::Call { target, back, .. } => {
            covers_each_return(notes, c, at, target, back) && covers_behind(c, back, at)
        }
        Way::Back { .. } => true,
        Way::Out { .. } => true,
    }
}

fn all_hand_on(notes: &Notes, c: &LatencyCertificate, at: u16, ways: &[Way]) -> bool
    ensures { result ≡ list_all (spec.hands_on notes.now c.now at) ways.now }
{
    ways.iter().all(|way| hands_on(notes, c, at, *way))
}

// Whether each way on from an address pays, where this is before it. A credit above all that there is to spend pays for none.
fn pays_from(
    notes: &Notes,
    c: &LatencyCertificate,
    work: Option<Plan>,
    at: u16,
    ways: &[Way],
    price: u128,
    credit: Option<u128>,
    e: Enabled,
) -> bool
    requires some { 0 < length ways.now }
    requires price { price ≡ spec.price_at notes.now c.now at }
    requires bound { price < 2 ^ 127 }
    requires credit { SomeIff credit (spec.credit_at notes.now c.now at < 2 ^ 128) (spec.credit_at notes.now c.now at) }
    ensures { result ≡ spec.pays_from notes.now c.now work at ways.now e }
{
    let has = u128::from(shut_at(c, at, e)) + price;
    let Some(credit) = credit else {
        return false;
    };
    if has < credit {
        return false;
    }
    all_pay(notes, c, work, at, e, has, credit, ways)
}

fn pays_before(
    notes: &Notes,
    c: &LatencyCertificate,
    work: Option<Plan>,
    at: u16,
    before: EnabledSet,
    ways: &[Way],
    price: u128,
    credit: Option<u128>,
) -> bool
    requires some { 0 < length ways.now }
    requires price { price ≡ spec.price_at notes.now c.now at }
    requires bound { price < 2 ^ 127 }
    requires credit { SomeIff credit (spec.credit_at notes.now c.now at < 2 ^ 128) (spec.credit_at notes.now c.now at) }
    ensures { result ≡ list_all (λ e. closed.implies (closed.is_in before e) (spec.pays_from notes.now c.now work at ways.now e)) EACH }
{
    EACH.iter().all(|e| !is_in(before, *e)
        || pays_from(notes, c, work, at, ways, price, credit, *e))
}

fn pays_all(
    notes: &Notes,
    c: &LatencyCertificate,
    work: Option<Plan>,
    at: u16,
    before: EnabledSet,
    ways: &[Way],
) -> bool
    ensures { result ≡ spec.pays_all notes.now c.now work at before (Some ways.now) }
{
    if ways.is_empty() {
        return false;
    }
    let price = price_at(notes, c, at);
    let credit = credit_at(notes, c, at);
    all_hand_on(notes, c, at, ways) && pays_before(notes, c, work, at, before, ways, price, credit)
}

// Whether an address keeps to what is asked of it.
fn is_sound(
    alloc: Global,
    image: &Image,
    notes: &Notes,
    from: u16,
    c: &LatencyCertificate,
    at: u16,
) -> Result<bool, NoMemory>
    ensures { IfOk result (λ b. b ≡ spec.is_sound_at image.now notes.now from c.now at) }
{
    let before = enabled_at(&c.requests, at).before;
    if before.bits == 0 || is_past(notes, from, at) {
        return Ok(true);
    }
    match ways(alloc, image, notes, at)? {
        Some(ways) => Ok(pays_all(notes, c, work_at(image, at), at, before, ways.as_slice())),
        None => Ok(false),
    }
}

// Whether each address does.
fn all_sound(
    alloc: Global,
    image: &Image,
    notes: &Notes,
    from: u16,
    c: &LatencyCertificate,
) -> Result<bool, NoMemory>
    ensures sound { IfOk result (λ b. IsTrue b → (a : ℕ) → IsTrue (spec.is_sound_at image.now notes.now from c.now a)) }
    ensures all { IfOk result (λ b. ((a : ℕ) → IsTrue (spec.is_sound_at image.now notes.now from c.now a)) → IsTrue b) }
{
    for at in IMAGE_START..ROM_END {
        if !is_sound(alloc, image, notes, from, c, at)? {
            return Ok(false);
        }
    }
    Ok(true)
}

// ---- the most that goes by

// Up to behind the RET of the routine.
fn is_first_most(c: &LatencyCertificate, turns: u128, at: u16, e: Enabled) -> bool
    requires { turns ≤ MAX_STATES }
    ensures { result ≡ nat_le (spec.shut_at c.now at e + turns) c.now.most }
{
    u128::from(shut_at(c, at, e)) + turns <= u128::from(c.most)
}

// And behind that, by what the routine may return with.
fn is_most_behind(
    c: &LatencyCertificate,
    turns: u128,
    at: u16,
    inside: u128,
    returns: EnabledSet,
) -> bool
    requires turns { turns ≤ MAX_STATES }
    requires inside { inside < 2 ^ 64 }
    ensures { result ≡ list_all (λ x. closed.implies (closed.is_in returns x) (nat_le (inside + spec.shut_behind c.now at x + turns) c.now.most)) EACH }
{
    EACH.iter().all(|x| !is_in(returns, *x)
        || inside + u128::from(shut_behind(c, at, *x)) + turns <= u128::from(c.most))
}

// Both.
fn is_most(c: &LatencyCertificate, turns: u128, at: u16, e: Enabled) -> bool
    requires { turns ≤ MAX_STATES }
    ensures { result ≡ (nat_le (spec.shut_at c.now at e + turns) c.now.most && list_all (λ x. closed.implies (closed.is_in (spec.returns_at c.now at e) x) (nat_le (spec.shut_at c.now at e + spec.shut_behind c.now at x + turns) c.now.most)) EACH) }
{
    let inside = u128::from(shut_at(c, at, e));
    let returns = returns_at(c, at, e);
    is_first_most(c, turns, at, e) && is_most_behind(c, turns, at, inside, returns)
}

fn asks_at(work: Option<Plan>, e: Enabled) -> bool
    ensures { result ≡ spec.asks_at work e }
{
    e.interrupts && (!e.held || is_interruptible(work))
}

// Whether no more goes by than a word, where interrupts are asked for between words.
fn has_word(c: &LatencyCertificate, turns: u128, work: Option<Plan>, e: Enabled) -> bool
    requires { turns ≤ MAX_STATES }
    ensures { result ≡ closed.implies (spec.asks_between_words work e) (nat_le (14 + turns) c.now.most) }
{
    !asks_between_words(work, e) || 14 + turns <= u128::from(c.most)
}

// Whether no more goes by from the first address on.
fn are_first_most(c: &LatencyCertificate, turns: u128, from: u16, first: EnabledSet) -> bool
    requires { turns ≤ MAX_STATES }
    ensures { result ≡ list_all (λ e. closed.implies (closed.is_in first e) (nat_le (spec.shut_at c.now from e + turns) c.now.most)) EACH }
{
    EACH.iter()
        .all(|e| !is_in(first, *e) || is_first_most(c, turns, from, *e))
}

// Whether no more goes by from where interrupts are asked for at an address.
fn is_asking_most(c: &LatencyCertificate, turns: u128, work: Option<Plan>, at: u16) -> bool
    requires { turns ≤ MAX_STATES }
    ensures { result ≡ list_all (λ e. closed.implies (closed.is_in (closed.enabled_at c.now.requests at).before e && spec.asks_at work e) ((nat_le (spec.shut_at c.now at e + turns) c.now.most && list_all (λ x. closed.implies (closed.is_in (spec.returns_at c.now at e) x) (nat_le (spec.shut_at c.now at e + spec.shut_behind c.now at x + turns) c.now.most)) EACH) && closed.implies (spec.asks_between_words work e) (nat_le (14 + turns) c.now.most))) EACH }
{
    let before = enabled_at(&c.requests, at).before;
    EACH.iter().all(|e| !(is_in(before, *e) && asks_at(work, *e))
        || (is_most(c, turns, at, *e) && has_word(c, turns, work, *e)))
}

fn is_most_at(
    image: &Image,
    notes: &Notes,
    from: u16,
    c: &LatencyCertificate,
    turns: u128,
    at: u16,
) -> bool
    requires most { turns ≤ MAX_STATES }
    requires turns { turns ≡ spec.all_turns notes.now c.now }
    ensures { result ≡ spec.is_most_at image.now notes.now from c.now c.now.most at }
{
    is_past(notes, from, at) || is_asking_most(c, turns, work_at(image, at), at)
}

fn all_most(image: &Image, notes: &Notes, from: u16, c: &LatencyCertificate, turns: u128) -> bool
    requires most { turns ≤ MAX_STATES }
    requires turns { turns ≡ spec.all_turns notes.now c.now }
    ensures sound { IsTrue result → (a : ℕ) → IsTrue (spec.is_most_at image.now notes.now from c.now c.now.most a) }
    ensures all { ((a : ℕ) → IsTrue (spec.is_most_at image.now notes.now from c.now c.now.most a)) → IsTrue result }
{
    for at in IMAGE_START..ROM_END {
        if !is_most_at(image, notes, from, c, turns, at) {
            return false;
        }
    }
    true
}

/// The most state times that go by in a pass through an image from where interrupts are asked for, or from its start with something of
/// `first`, to where they are asked for again, as a certificate has it. `None` where the certificate does not keep to all that is asked of
/// one, and where the prices of all turns of its loops, or the most that it has, are above the longest run; and only there.
pub fn checked_latency(
    alloc: Global,
    image: &Image,
    notes: &Notes,
    from: u16,
    first: EnabledSet,
    c: &LatencyCertificate,
) -> Result<Option<u64>, NoMemory>
    ensures shows { IfOk result (λ found. IfSome found (λ most. ShowsShut image.now notes.now from first c.now most)) }
    ensures most { IfOk result (λ found. IfSome found (λ most. most ≤ MAX_STATES)) }
    ensures all { IfOk result (λ found. ShowsShut image.now notes.now from first c.now c.now.most → spec.all_turns notes.now c.now ≤ MAX_STATES → c.now.most ≤ MAX_STATES → found ≡ Some c.now.most) }
{
    if checked(alloc, image, notes, from, first, &c.requests)?.is_none() {
        return Ok(None);
    }
    if !all_sound(alloc, image, notes, from, c)? {
        return Ok(None);
    }
    let Some(turns) = all_turns(notes, c) else {
        return Ok(None);
    };
    if turns > u128::from(MAX_STATES) || c.most > MAX_STATES {
        return Ok(None);
    }
    if !are_first_most(c, turns, from, first) || !all_most(image, notes, from, c, turns) {
        return Ok(None);
    }
    Ok(Some(c.most))
}
