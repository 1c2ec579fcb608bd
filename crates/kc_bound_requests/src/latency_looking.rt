// What a certificate and the notes have of an address.
ghost use Rattle.std.specs.Prelude.{◌≡◌, ◌<◌};
ghost use Rattle.kc_bound.specs.Notes as notes_say;
ghost use Rattle.kc_bound_requests.specs.Asking as asking;
ghost use Rattle.kc_bound_requests.specs.Latency as spec;

use crate::certificate::EnabledSet;
use crate::checking::{NO_SET, is_interruptible, number_of};
use crate::enabled::Enabled;
use crate::latency_certificate::LatencyCertificate;
use kc_base::{IMAGE_START, ROM_END};
use kc_bound::{Notes, Way, is_end};
use kc_exec_spec::Plan;

pub(crate) fn is_among(addresses: &[u16], at: u16) -> bool
    ensures { result ≡ notes_say.is_among addresses.now at }
{
    addresses.iter().any(|a| *a == at)
}

// The most words of the block move at an address.
pub(crate) fn words_at(notes: &Notes, at: u16) -> Option<u16>
    ensures { result ≡ notes_say.words_at notes.now at }
{
    notes
        .words
        .iter()
        .find(|moved| moved.block == at)
        .map(|moved| moved.most)
}

fn states_at(states: &[u64], at: u16, e: Enabled) -> u64
    ensures { result ≡ spec.states_at states.now at e }
{
    if at < IMAGE_START || at >= ROM_END {
        return 0;
    }
    let place = 8 * usize::from(at - IMAGE_START) + usize::from(number_of(e));
    match states.get(place) {
        Some(most) => *most,
        None => 0,
    }
}

fn set_at(sets: &[EnabledSet], at: u16, e: Enabled) -> EnabledSet
    ensures { result ≡ spec.set_at sets.now at e }
{
    if at < IMAGE_START || at >= ROM_END {
        return NO_SET;
    }
    let place = 8 * usize::from(at - IMAGE_START) + usize::from(number_of(e));
    match sets.get(place) {
        Some(set) => *set,
        None => NO_SET,
    }
}

pub(crate) fn shut_at(c: &LatencyCertificate, at: u16, e: Enabled) -> u64
    ensures { result ≡ spec.shut_at c.now at e }
{
    states_at(c.before.as_slice(), at, e)
}

pub(crate) fn returns_at(c: &LatencyCertificate, at: u16, e: Enabled) -> EnabledSet
    ensures { result ≡ spec.returns_at c.now at e }
{
    set_at(c.returns.as_slice(), at, e)
}

pub(crate) fn shut_behind(c: &LatencyCertificate, at: u16, e: Enabled) -> u64
    ensures { result ≡ spec.shut_behind c.now at e }
{
    states_at(c.behind.as_slice(), at, e)
}

pub(crate) fn lets_interrupts_in(e: Enabled) -> bool
    ensures { result ≡ asking.lets_interrupts_in e }
{
    e.interrupts && !e.held
}

pub(crate) fn shut_next(notes: &Notes, c: &LatencyCertificate, at: u16, e: Enabled) -> u64
    ensures { result ≡ spec.shut_next notes.now c.now at e }
{
    if lets_interrupts_in(e) || is_end(notes, at) {
        0
    } else {
        shut_at(c, at, e)
    }
}

pub(crate) fn returns_next(notes: &Notes, c: &LatencyCertificate, at: u16, e: Enabled) -> EnabledSet
    ensures { result ≡ spec.returns_next notes.now c.now at e }
{
    if lets_interrupts_in(e) || is_end(notes, at) {
        NO_SET
    } else {
        returns_at(c, at, e)
    }
}

// Whether interrupts are asked for between the words of a block move.
pub(crate) fn asks_between_words(work: Option<Plan>, e: Enabled) -> bool
    ensures { result ≡ spec.asks_between_words work e }
{
    is_interruptible(work) && e.interrupts
}

// The states of a way before interrupts are asked for.
pub(crate) fn shut_states(work: Option<Plan>, words: Option<u16>, e: Enabled, states: u32) -> u32
    ensures value { result ≡ spec.shut_states work words e states }
{
    if asks_between_words(work, e) {
        states.saturating_sub(14 * u32::from(words.unwrap_or(0)))
    } else {
        states
    }
}

pub(crate) fn way_states(way: Way) -> u32
    ensures { result ≡ spec.way_states way }
{
    match way {
        Way::To { states, .. } => states,
        Way::Call { states, .. } => states,
        Way::Back { states } => states,
        Way::Out { states } => states,
    }
}
