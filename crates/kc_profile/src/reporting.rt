// The text of a profile.
ghost use Rattle.std.specs.Prelude.{◌≡◌, ◌+◌, ◌^◌, ◌<◌, ◌≤◌, ◌++◌, ◌&&◌, ◌==◌, codes, decimal, length, sum, IfOk, OnOk};
ghost use Rattle.kc_profile.specs.StatisticsText.{statistics_text};
ghost use Rattle.kc_profile.specs.Text as spec;

use crate::Profile;
use crate::statistics::Statistics;
use crate::statistics_text::Scope;
use kc_base::{NoMemory, put_number};
use kc_debug_script::MapEntry;
use kc_trace::address_text;
use std::alloc::Global;

/// How many addresses there are.
const ADDRESSES: u32 = 0x10000;

// Puts a blank, a number of states and the end of a line.
fn put_states(text: &mut Vec<u8>, states: u64) -> Result<(), NoMemory>
    ensures { OnOk result (text.new.items ≡ text.old.items ++ (codes " " ++ decimal states ++ codes "\n")) }
{
    text.push(b' ')?;
    put_number(text, u128::from(states))?;
    text.push(b'\n')?;
    Ok(())
}

// ---- spots

// Puts the line of an address, where it has states.
fn put_address(text: &mut Vec<u8>, addr: u16, states: u64) -> Result<(), NoMemory>
    ensures { OnOk result (text.new.items ≡ text.old.items ++ spec.unless_none states (spec.address_line addr states)) }
{
    if states == 0 {
        return Ok(());
    }
    text.extend_from_slice(b"at ")?;
    text.extend_from_slice(address_text(addr).as_slice())?;
    put_states(text, states)
}

// Puts the lines of addresses, from 0 on.
#[tactic(auto, unfolding(crate::specs::Text::address_lines))]
fn put_addresses(text: &mut Vec<u8>, at: &[u64]) -> Result<(), NoMemory>
    requires { length at.now ≤ 65536 }
    ensures { OnOk result (text.new.items ≡ text.old.items ++ spec.address_lines 0 at.now) }
{
    let mut left = at;
    let mut addr = 0u32;
    while let [states, rest @ ..] = left {
        put_address(text, addr as u16, *states)?;
        addr += 1;
        left = rest;
    }
    Ok(())
}

// Puts the line of a number behind a word, where it has states.
fn put_numbered(text: &mut Vec<u8>, word: &[u8], number: usize, states: u64) -> Result<(), NoMemory>
    ensures { OnOk result (text.new.items ≡ text.old.items ++ spec.unless_none states (spec.numbered_line word.now number states)) }
{
    if states == 0 {
        return Ok(());
    }
    text.extend_from_slice(word)?;
    text.push(b' ')?;
    put_number(text, number as u128)?;
    put_states(text, states)
}

// Puts the lines of numbers behind a word, from 0 on.
#[tactic(auto, unfolding(crate::specs::Text::numbered_lines))]
fn put_all_numbered(text: &mut Vec<u8>, word: &[u8], all: &[u64]) -> Result<(), NoMemory>
    ensures { OnOk result (text.new.items ≡ text.old.items ++ spec.numbered_lines word.now 0 all.now) }
{
    let mut left = all;
    let mut number = 0;
    while let [states, rest @ ..] = left {
        put_numbered(text, word, number, *states)?;
        number += 1;
        left = rest;
    }
    Ok(())
}

// Puts the line of idle states, where there are any.
fn put_idle(text: &mut Vec<u8>, states: u64) -> Result<(), NoMemory>
    ensures { OnOk result (text.new.items ≡ text.old.items ++ spec.unless_none states (spec.idle_line states)) }
{
    if states == 0 {
        return Ok(());
    }
    text.extend_from_slice(b"idle")?;
    put_states(text, states)
}

// ---- lines of sources

fn sum_of(numbers: &[u64]) -> u64
    requires { sum numbers.now < 2 ^ 64 }
    ensures { result ≡ sum numbers.now }
{
    numbers.iter().copied().sum()
}

// The states at the addresses from one up to another.
fn states_between(at: &[u64], from: u32, to: u32) -> u64
    requires long { length at.now ≡ 65536 }
    requires fits { sum at.now < 2 ^ 64 }
    requires to { to ≤ 65536 }
    ensures { result ≡ spec.states_between at.now from to }
{
    if from < to {
        sum_of(&at[from as usize..to as usize])
    } else {
        0
    }
}

fn address_of(entry: &MapEntry) -> u16
    ensures { result ≡ entry.now.addr }
{
    entry.addr
}

// Where the first of some entries begins, or the end of all addresses.
fn next_address(entries: &[MapEntry]) -> u32
    ensures value { result ≡ spec.next_address entries.now }
    ensures within { result ≤ 65536 }
{
    match entries.first() {
        Some(entry) => u32::from(address_of(entry)),
        None => ADDRESSES,
    }
}

// Whether the next entry is one of the same line.
fn goes_on(entry: &MapEntry, entries: &[MapEntry]) -> bool
    ensures { result ≡ spec.goes_on entry.now entries.now }
{
    match entries.first() {
        Some(next) => { entry.name.as_slice() == next.name.as_slice() && entry.line == next.line }
        None => false,
    }
}

// Puts the line of a line of a source, where it has states.
fn put_line(text: &mut Vec<u8>, entry: &MapEntry, states: u64) -> Result<(), NoMemory>
    ensures { OnOk result (text.new.items ≡ text.old.items ++ spec.unless_none states (spec.line_line entry.now states)) }
{
    if states == 0 {
        return Ok(());
    }
    text.extend_from_slice(b"line ")?;
    text.extend_from_slice(entry.name.as_slice())?;
    text.push(b' ')?;
    put_number(text, u128::from(entry.line))?;
    put_states(text, states)
}

// Puts the lines of the lines of entries.
#[tactic(auto, unfolding(crate::specs::Text::line_lines))]
fn put_lines(text: &mut Vec<u8>, at: &[u64], entries: &[MapEntry]) -> Result<(), NoMemory>
    requires long { length at.now ≡ 65536 }
    requires fits { sum at.now < 2 ^ 64 }
    ensures { OnOk result (text.new.items ≡ text.old.items ++ spec.line_lines at.now (spec.next_address entries.now) entries.now) }
{
    let mut left = entries;
    let mut from = next_address(entries);
    while let [entry, rest @ ..] = left {
        if !goes_on(entry, rest) {
            let to = next_address(rest);
            put_line(text, entry, states_between(at, from, to))?;
            from = to;
        }
        left = rest;
    }
    Ok(())
}

/// The text of a profile and of the statistics beside it.
pub fn report(
    alloc: Global,
    profile: &Profile,
    statistics: &Statistics,
    entries: &[MapEntry],
    scope: Scope,
) -> Result<Vec<u8>, NoMemory>
    ensures { IfOk result (λ text. text.items ≡ spec.profile_text profile.now entries.now ++ statistics_text scope statistics.now) }
{
    let mut text = profile.text(alloc, entries)?;
    statistics.put(&mut text, scope)?;
    Ok(text)
}

impl Profile {
    /// The text of the profile: a line for each spot that has states, and one for each line of a source that has states, by a
    /// line map with these entries. A state at an address belongs to the line of the last entry at or below it.
    ///
    /// `at HHHH STATES`, `entry NUMBER STATES`, `server NUMBER STATES`, `idle STATES` and `line MODULE LINE STATES`, in this
    /// order, and each by rising address or number. Entries of one line that follow one another are reported as one.
    pub fn text(&self, alloc: Global, entries: &[MapEntry]) -> Result<Vec<u8>, NoMemory>
        ensures { IfOk result (λ text. text.items ≡ spec.profile_text self.now entries.now) }
    {
        let mut text = Vec::new(alloc);
        put_addresses(&mut text, self.at.as_slice())?;
        put_all_numbered(&mut text, b"entry", self.entries.as_slice())?;
        put_all_numbered(&mut text, b"server", self.server.as_slice())?;
        put_idle(&mut text, self.idle)?;
        put_lines(&mut text, self.at.as_slice(), entries)?;
        Ok(text)
    }
}
