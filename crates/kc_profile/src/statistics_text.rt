// The text of the statistics of a run.
ghost use Rattle.std.specs.Prelude.{◌≡◌, ◌++◌, ◌≤◌, ◌<◌, ◌^◌, length, OnOk};
ghost use Rattle.kc_profile.specs.Text.{unless_none};
ghost use Rattle.kc_profile.specs.StatisticsText as spec;

use crate::spread::{Moment, Spread};
use crate::statistics::{Depth, Statistics};
use crate::waits::Waits;
use kc_base::{NoMemory, put_number};
use kc_trace::address_text;

/// Which runs a text is about.
#[derive(Clone, Copy, PartialEq, Eq)]
pub enum Scope {
    /// One life, which needs no number.
    Life,
    /// Several lives together: with each state stands its life.
    Lives,
}

// Puts a blank and a number.
fn put_behind(text: &mut Vec<u8>, number: u64) -> Result<(), NoMemory>
    ensures { OnOk result (text.new.items ≡ text.old.items ++ spec.behind number) }
{
    text.push(b' ')?;
    put_number(text, u128::from(number))
}

// Puts when something was.
fn put_when(text: &mut Vec<u8>, scope: Scope, when: Moment) -> Result<(), NoMemory>
    ensures { OnOk result (text.new.items ≡ text.old.items ++ spec.when_text scope when) }
{
    put_behind(text, when.at)?;
    match scope {
        Scope::Life => Ok(()),
        Scope::Lives => {
            text.extend_from_slice(b" life")?;
            put_behind(text, u64::from(when.life))
        }
    }
}

// ---- instructions

// Puts the line of an address at which instructions were done.
fn put_hit(text: &mut Vec<u8>, addr: u16, hits: u64) -> Result<(), NoMemory>
    ensures { OnOk result (text.new.items ≡ text.old.items ++ unless_none hits (spec.hit_line addr hits)) }
{
    if hits == 0 {
        return Ok(());
    }
    text.extend_from_slice(b"hit ")?;
    text.extend_from_slice(address_text(addr).as_slice())?;
    put_behind(text, hits)?;
    text.push(b'\n')?;
    Ok(())
}

// Puts the lines of addresses, from 0 on.
#[tactic(auto, unfolding(crate::specs::StatisticsText::hit_lines))]
fn put_hits(text: &mut Vec<u8>, hits: &[u64]) -> Result<(), NoMemory>
    requires { length hits.now ≤ 65536 }
    ensures { OnOk result (text.new.items ≡ text.old.items ++ spec.hit_lines 0 hits.now) }
{
    let mut left = hits;
    let mut addr = 0u32;
    while let [first, rest @ ..] = left {
        put_hit(text, addr as u16, *first)?;
        addr += 1;
        left = rest;
    }
    Ok(())
}

// ---- requests

// Puts the line of a spread of a request behind a word, where there is one.
fn put_spread(
    text: &mut Vec<u8>,
    word: &[u8],
    n: u64,
    spread: Option<Spread>,
    scope: Scope,
) -> Result<(), NoMemory>
    ensures { OnOk result (text.new.items ≡ text.old.items ++ spec.spread_line word.now n scope spread) }
{
    let Some(spread) = spread else {
        return Ok(());
    };
    text.extend_from_slice(word)?;
    put_behind(text, n)?;
    put_behind(text, spread.count)?;
    put_behind(text, spread.least)?;
    put_behind(text, spread.greatest)?;
    put_when(text, scope, spread.when)?;
    text.push(b'\n')?;
    Ok(())
}

// Puts the lines of the latency of each request.
#[tactic(auto, unfolding(crate::specs::StatisticsText::latency_lines))]
fn put_latencies(text: &mut Vec<u8>, waits: &[Waits], scope: Scope) -> Result<(), NoMemory>
    requires { length waits.now ≤ 16 }
    ensures { OnOk result (text.new.items ≡ text.old.items ++ spec.latency_lines 0 scope waits.now) }
{
    let mut left = waits;
    let mut n = 0u64;
    while let [first, rest @ ..] = left {
        put_spread(text, b"latency", n, first.latency, scope)?;
        n += 1;
        left = rest;
    }
    Ok(())
}

// Puts the lines of how long each request waited for the transfer server.
#[tactic(auto, unfolding(crate::specs::StatisticsText::served_lines))]
fn put_services(text: &mut Vec<u8>, waits: &[Waits], scope: Scope) -> Result<(), NoMemory>
    requires { length waits.now ≤ 16 }
    ensures { OnOk result (text.new.items ≡ text.old.items ++ spec.served_lines 0 scope waits.now) }
{
    let mut left = waits;
    let mut n = 0u64;
    while let [first, rest @ ..] = left {
        put_spread(text, b"served", n, first.served, scope)?;
        n += 1;
        left = rest;
    }
    Ok(())
}

// Puts the line of how often a request was raised while it was pending.
fn put_missed(text: &mut Vec<u8>, n: u64, waits: &Waits) -> Result<(), NoMemory>
    ensures { OnOk result (text.new.items ≡ text.old.items ++ spec.missed_line n waits.now) }
{
    if waits.missed == 0 || !waits.is_reported() {
        return Ok(());
    }
    text.extend_from_slice(b"missed")?;
    put_behind(text, n)?;
    put_behind(text, waits.missed)?;
    text.push(b'\n')?;
    Ok(())
}

// Puts the lines of how often each request was raised while it was pending.
#[tactic(auto, unfolding(crate::specs::StatisticsText::missed_lines))]
fn put_all_missed(text: &mut Vec<u8>, waits: &[Waits]) -> Result<(), NoMemory>
    requires { length waits.now ≤ 16 }
    ensures { OnOk result (text.new.items ≡ text.old.items ++ spec.missed_lines 0 waits.now) }
{
    let mut left = waits;
    let mut n = 0u64;
    while let [first, rest @ ..] = left {
        put_missed(text, n, first)?;
        n += 1;
        left = rest;
    }
    Ok(())
}

// ---- the stack

// Puts the line of the stack, where it was moved.
fn put_depth(text: &mut Vec<u8>, deepest: Option<Depth>, scope: Scope) -> Result<(), NoMemory>
    ensures { OnOk result (text.new.items ≡ text.old.items ++ spec.stack_line scope deepest) }
{
    let Some(depth) = deepest else {
        return Ok(());
    };
    text.extend_from_slice(b"stack ")?;
    text.extend_from_slice(address_text(depth.word).as_slice())?;
    put_when(text, scope, depth.when)?;
    text.push(b'\n')?;
    Ok(())
}

impl Statistics {
    /// Puts the statistics of a run behind a text.
    ///
    /// `hit HHHH TIMES`, `latency NUMBER COUNT MIN MAX AT`, `served NUMBER COUNT MIN MAX AT`, `missed NUMBER COUNT` and `stack HHHH
    /// AT`, in this order, and each by rising address or number; over several lives ` life NUMBER` stands behind AT.
    pub(crate) fn put(&self, text: &mut Vec<u8>, scope: Scope) -> Result<(), NoMemory>
        ensures { OnOk result (text.new.items ≡ text.old.items ++ spec.statistics_text scope self.now) }
    {
        put_hits(text, self.hits.as_slice())?;
        put_latencies(text, self.waits.as_slice(), scope)?;
        put_services(text, self.waits.as_slice(), scope)?;
        put_all_missed(text, self.waits.as_slice())?;
        put_depth(text, self.deepest, scope)
    }
}
