// A certificate is sought by raising what may go by at each address until each way pays. What it is worth, `checked_latency` says.
use crate::certificate::{EnabledSet, RequestCertificate};
use crate::checking::{NO_SET, includes, is_in, is_interruptible, number_of};
use crate::enabled::{EACH, Enabled};
use crate::finding::{find, place_of};
use crate::latency_certificate::LatencyCertificate;
use crate::latency_looking::{
    asks_between_words, returns_at, returns_next, shut_at, shut_behind, shut_next, shut_states,
    way_states, words_at,
};
use crate::latency_prices::{all_turns, credit_at, price_at};
use crate::latency_steps::{Step, needed_prices, steps_of};
use crate::work::may_leave;
use kc_base::{IMAGE_START, Image, NoMemory, ROM_END};
use kc_bound::{Notes, Way};
use std::alloc::Global;

// How often all addresses are gone over: certificates settle in far fewer rounds, and some never do.
const ROUNDS: usize = 128;

// What the loops cost at an address: of a begin there, and of their turns that are counted from there on.
#[derive(Clone, Copy, Drop)]
struct Cost {
    price: u64,
    credit: u64,
}

// A certificate, and whether nothing more was to be raised in it.
#[derive(Drop)]
struct Settled {
    certificate: LatencyCertificate,
    is_settled: bool,
}

fn in_u64(n: u128) -> u64 {
    u64::try_from(n).unwrap_or(u64::MAX)
}

// So many numbers, each 0.
fn zeros(alloc: Global, count: usize) -> Result<Vec<u64>, NoMemory> {
    let mut numbers = Vec::new(alloc);
    for _ in 0..count {
        numbers.push(0)?;
    }
    Ok(numbers)
}

// So many sets, each empty.
fn no_sets(alloc: Global, count: usize) -> Result<Vec<EnabledSet>, NoMemory> {
    let mut sets = Vec::new(alloc);
    for _ in 0..count {
        sets.push(NO_SET)?;
    }
    Ok(sets)
}

// The place of the number of an address, among eight for each.
fn place_with(at: u16, e: Enabled) -> Option<usize> {
    let place = place_of(at)?;
    Some(8 * place + usize::from(number_of(e)))
}

fn only(e: Enabled) -> EnabledSet {
    EnabledSet {
        bits: 1 << number_of(e),
    }
}

// Raises the number of an address to a value; whether it was less.
fn raise(states: &mut Vec<u64>, at: u16, e: Enabled, value: u64) -> bool {
    let Some(place) = place_with(at, e) else {
        return false;
    };
    if place >= states.len() || states[place] >= value {
        return false;
    }
    states[place] = value;
    true
}

// Adds these to the set of an address; whether they were not all there.
fn add(sets: &mut Vec<EnabledSet>, at: u16, e: Enabled, more: EnabledSet) -> bool {
    let Some(place) = place_with(at, e) else {
        return false;
    };
    if place >= sets.len() || includes(sets[place], more) {
        return false;
    }
    let bits = sets[place].bits | more.bits;
    sets[place] = EnabledSet { bits };
    true
}

fn costs_of(
    alloc: Global,
    notes: &Notes,
    c: &LatencyCertificate,
    steps: &[Option<Step>],
) -> Result<Vec<Cost>, NoMemory> {
    let mut costs = Vec::new(alloc);
    for step in steps.iter() {
        let mut cost = Cost {
            price: 0,
            credit: 0,
        };
        if let Some(step) = step {
            cost = Cost {
                price: in_u64(price_at(notes, c, step.at)),
                credit: in_u64(credit_at(notes, c, step.at).unwrap_or(u128::MAX)),
            };
        }
        costs.push(cost)?;
    }
    Ok(costs)
}

// An address, of which so much is spent with this before its instruction.
#[derive(Clone, Copy, Drop)]
struct Spent {
    at: u16,
    e: Enabled,
    price: u64,
    states: u64,
}

impl Spent {
    fn with(self, states: u64) -> Spent {
        Spent {
            at: self.at,
            e: self.e,
            price: self.price,
            states: self.states.saturating_add(states),
        }
    }

    fn raise(self, c: &mut LatencyCertificate) -> bool {
        raise(
            &mut c.before,
            self.at,
            self.e,
            self.states.saturating_sub(self.price),
        )
    }

    // What is asked where another address is come to with this.
    fn go_on(self, notes: &Notes, c: &mut LatencyCertificate, target: u16, after: Enabled) -> bool {
        let states = shut_next(notes, c, target, after);
        let is_more = self.with(states).raise(c);
        let returns = returns_next(notes, c, target, after);
        add(&mut c.returns, self.at, self.e, returns) || is_more
    }

    fn call(
        self,
        notes: &Notes,
        c: &mut LatencyCertificate,
        target: u16,
        back: u16,
        after: Enabled,
    ) -> bool {
        let inside = self.with(shut_next(notes, c, target, after));
        let mut is_more = inside.raise(c);
        let returns = returns_next(notes, c, target, after);
        for e in EACH.iter() {
            if is_in(returns, *e) {
                let more = inside.go_on(notes, c, back, *e);
                is_more = is_more || more;
            }
        }
        is_more
    }

    fn follow(self, notes: &Notes, c: &mut LatencyCertificate, way: Way, after: Enabled) -> bool {
        match way {
            Way::To { target, .. } => self.go_on(notes, c, target, after),
            Way::Call { target, back, .. } => self.call(notes, c, target, back, after),
            Way::Back { .. } => add(&mut c.returns, self.at, self.e, only(after)),
            Way::Out { .. } => false,
        }
    }
}

// What one way asks of its address, with this before it.
fn follow(
    notes: &Notes,
    c: &mut LatencyCertificate,
    step: &Step,
    cost: Cost,
    e: Enabled,
    way: Way,
) -> bool {
    let states = shut_states(step.work, words_at(notes, step.at), e, way_states(way));
    let spent = Spent {
        at: step.at,
        e,
        price: cost.price,
        states: u64::from(states).saturating_add(cost.credit),
    };
    let mut is_more = spent.raise(c);
    for after in EACH.iter() {
        if may_leave(step.work, e, *after) {
            let more = spent.follow(notes, c, way, *after);
            is_more = is_more || more;
        }
    }
    is_more
}

// What goes by behind the RET of a routine that is called and returns with this.
fn behind_call(notes: &Notes, c: &LatencyCertificate, at: u16, back: u16, e: Enabled) -> u64 {
    let next = shut_next(notes, c, back, e);
    next.saturating_add(most_behind(c, at, returns_next(notes, c, back, e)))
}

// The most behind the RET of a routine that returns with one of these.
fn most_behind(c: &LatencyCertificate, at: u16, returns: EnabledSet) -> u64 {
    let mut most = 0;
    for e in EACH.iter() {
        if is_in(returns, *e) {
            most = shut_behind(c, at, *e).max(most);
        }
    }
    most
}

// What it asks of where it leads.
fn hand_on(notes: &Notes, c: &mut LatencyCertificate, at: u16, way: Way) -> bool {
    let mut is_more = false;
    for e in EACH.iter() {
        let here = shut_behind(c, at, *e);
        let more = match way {
            Way::To { target, .. } => raise(&mut c.behind, target, *e, here),
            Way::Call { target, back, .. } => {
                let next = behind_call(notes, c, at, back, *e);
                let inside = raise(&mut c.behind, target, *e, next);
                let behind = raise(&mut c.behind, back, *e, here);
                inside || behind
            }
            Way::Back { .. } | Way::Out { .. } => false,
        };
        is_more = is_more || more;
    }
    is_more
}

fn follow_all(notes: &Notes, c: &mut LatencyCertificate, step: &Step, cost: Cost) -> bool {
    let mut is_more = false;
    for way in step.ways.iter() {
        let more = hand_on(notes, c, step.at, *way);
        is_more = is_more || more;
        for e in EACH.iter() {
            if is_in(step.before, *e) {
                let more = follow(notes, c, step, cost, *e, *way);
                is_more = is_more || more;
            }
        }
    }
    is_more
}

// From the last address to the first, as what follows is mostly behind.
fn sweep(
    notes: &Notes,
    c: &mut LatencyCertificate,
    steps: &[Option<Step>],
    costs: &[Cost],
) -> bool {
    let mut is_more = false;
    let count = steps.len();
    for k in 0..count {
        let place = count - 1 - k;
        if let (Some(step), Some(cost)) = (&steps[place], costs.get(place)) {
            let more = follow_all(notes, c, step, *cost);
            is_more = is_more || more;
        }
    }
    is_more
}

fn lets_most(step: &Step, e: Enabled) -> bool {
    is_in(step.before, e) && (e.interrupts && (!e.held || is_interruptible(step.work)))
}

// The most from where interrupts are asked for, or from the first address, on.
fn longest(c: &LatencyCertificate, steps: &[Option<Step>], from: u16, first: EnabledSet) -> u64 {
    let mut most = 0;
    for e in EACH.iter() {
        if is_in(first, *e) {
            most = shut_at(c, from, *e).max(most);
        }
    }
    for step in steps.iter() {
        if let Some(step) = step {
            for e in EACH.iter() {
                if lets_most(step, *e) {
                    let behind = most_behind(c, step.at, returns_at(c, step.at, *e));
                    most = shut_at(c, step.at, *e).saturating_add(behind).max(most);
                    if asks_between_words(step.work, *e) {
                        most = most.max(14);
                    }
                }
            }
        }
    }
    most
}

// The certificate with these prices.
fn settle(
    alloc: Global,
    notes: &Notes,
    requests: RequestCertificate,
    steps: &[Option<Step>],
    from: u16,
    first: EnabledSet,
    prices: Vec<u64>,
) -> Result<Settled, NoMemory> {
    let count = 8 * usize::from(ROM_END - IMAGE_START);
    let mut certificate = LatencyCertificate {
        requests,
        before: zeros(alloc, count)?,
        returns: no_sets(alloc, count)?,
        behind: zeros(alloc, count)?,
        prices,
        most: 0,
    };
    let costs = costs_of(alloc, notes, &certificate, steps)?;
    let mut is_settled = false;
    for _ in 0..ROUNDS {
        if !sweep(notes, &mut certificate, steps, costs.as_slice()) {
            is_settled = true;
            break;
        }
    }
    let turns = in_u64(all_turns(notes, &certificate).unwrap_or(u128::MAX));
    certificate.most = longest(&certificate, steps, from, first).saturating_add(turns);
    Ok(Settled {
        certificate,
        is_settled,
    })
}

/// A certificate for the passes from an address that begin with one of a set, with the prices of loops as in a certificate of a bound
/// (`kc_bound` `Certificate`), or with 0 for loops in whose turns interrupts are asked for. It is meant to be one that
/// `checked_latency` lets through, which says whether it is.
pub fn find_latency(
    alloc: Global,
    image: &Image,
    notes: &Notes,
    from: u16,
    first: EnabledSet,
    prices: Vec<u64>,
) -> Result<LatencyCertificate, NoMemory> {
    let requests = find(alloc, image, notes, from, first)?;
    let all = steps_of(alloc, image, notes, from, &requests)?;
    let steps = all.as_slice();
    let needed = needed_prices(alloc, notes, &requests, steps, prices.as_slice())?;
    let with_all = settle(alloc, notes, requests, steps, from, first, prices)?;
    let requests = find(alloc, image, notes, from, first)?;
    let with_needed = settle(alloc, notes, requests, steps, from, first, needed)?;
    let is_better = !with_all.is_settled
        || with_needed.certificate.most <= with_all.certificate.most;
    if with_needed.is_settled && is_better {
        Ok(with_needed.certificate)
    } else {
        Ok(with_all.certificate)
    }
}
