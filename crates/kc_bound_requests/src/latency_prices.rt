// What the loops of the notes cost.
ghost use Rattle.std.specs.Prelude.{◌≡◌, ◌+◌, ◌*◌, ◌^◌, ◌<◌, SomeIff, length};
ghost use Rattle.kc_bound.specs.Certified as certified;
ghost use Rattle.kc_bound_requests.specs.Latency as spec;
ghost use Rattle.kc_bound_requests.specs.Times.{times_of};

use crate::latency_certificate::LatencyCertificate;
use crate::latency_looking::is_among;
use kc_bound::{Loop, Notes};

/// How many times a price is counted: once where an address is the loop's head, for all its turns where its count starts anew at an
/// address, or for all its turns wherever.
#[derive(Clone, Copy, Drop)]
pub(crate) enum Times {
    Begins(u16),
    Turns(u16),
    All,
}

fn count_of(kind: Times, l: &Loop) -> u64
    ensures { result ≡ times_of kind l.now }
{
    match kind {
        Times::Begins(at) => { if l.head == at { 1 } else { 0 } }
        Times::Turns(at) => {
            if is_among(l.per.as_slice(), at) {
                l.most
            } else {
                0
            }
        }
        Times::All => l.most,
    }
}

// The prices of loops, each so many times; none where the sum has more than 128 bits.
fn priced(kind: Times, loops: &[Loop], prices: &[u64]) -> Option<u128>
    ensures { SomeIff result (certified.priced (times_of kind) loops.now prices.now < 2 ^ 128) (certified.priced (times_of kind) loops.now prices.now) }
{
    let mut sum: u128 = 0;
    let mut loops_left = loops;
    let mut prices_left = prices;
    while let [l, other_loops @ ..] = loops_left {
        let [price, other_prices @ ..] = prices_left else {
            return Some(sum);
        };
        let own = u128::from(count_of(kind, l)).checked_mul(u128::from(*price))?;
        sum = sum.checked_add(own)?;
        loops_left = other_loops;
        prices_left = other_prices;
    }
    Some(sum)
}

// The prices of the loops that begin at an address: at most each price once.
fn price_of(at: u16, loops: &[Loop], prices: &[u64]) -> u128
    requires { length prices.now < 2 ^ 63 }
    ensures value { result ≡ certified.priced (certified.begins_at at) loops.now prices.now }
    ensures bound { result < 2 ^ 127 }
{
    let Some(price) = priced(Times::Begins(at), loops, prices) else {
        unreachable!();
    };
    price
}

pub(crate) fn price_at(notes: &Notes, c: &LatencyCertificate, at: u16) -> u128
    ensures value { result ≡ spec.price_at notes.now c.now at }
    ensures bound { result < 2 ^ 127 }
{
    let loops = notes.loops.as_slice();
    let prices = c.prices.as_slice();
    price_of(at, loops, prices)
}

pub(crate) fn credit_at(notes: &Notes, c: &LatencyCertificate, at: u16) -> Option<u128>
    ensures { SomeIff result (spec.credit_at notes.now c.now at < 2 ^ 128) (spec.credit_at notes.now c.now at) }
{
    let loops = notes.loops.as_slice();
    let prices = c.prices.as_slice();
    priced(Times::Turns(at), loops, prices)
}

pub(crate) fn all_turns(notes: &Notes, c: &LatencyCertificate) -> Option<u128>
    ensures { SomeIff result (spec.all_turns notes.now c.now < 2 ^ 128) (spec.all_turns notes.now c.now) }
{
    let loops = notes.loops.as_slice();
    let prices = c.prices.as_slice();
    priced(Times::All, loops, prices)
}
