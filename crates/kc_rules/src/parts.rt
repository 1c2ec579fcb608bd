// Signals, levels and events, by the words at the beginning.
ghost use Rattle.std.specs.Prelude.{◌≡◌, Some, None, IfOk, IfErr};
ghost use Rattle.std.specs.List.{position_from};
ghost use Rattle.std.specs.Str.{bytes_eq};
ghost use Rattle.kc_rules.specs.Readings.{one};
ghost use Rattle.kc_rules.specs.Amounts.{up_to as up_to_number};
ghost use Rattle.kc_rules.specs.declared.fault.ReadFault.TheVariants as faults;
ghost use Rattle.kc_rules.specs.Events as spec;
ghost use Rattle.kc_rules.specs.Lines.{names_of};

use crate::events::{Atom, Events, Steady, Wanted, Way};
use crate::fault::ReadFault;
use crate::mark::Mark;
use crate::numbers::up_to;
use crate::words::{Words, is};
use kc_base::{Level, Pin, pin_number};
use kc_trace::Signal;
use std::alloc::Global;

fn signal_by_number(outside: bool, pin: u8) -> Option<Signal>
    ensures { result ≡ spec.signal_by_number outside pin }
{
    let output = Signal::Output(Pin(pin));
    let input = Signal::Input(Pin(pin));
    if !outside && output.is_known() {
        Some(output)
    } else if input.is_known() {
        Some(input)
    } else {
        None
    }
}

fn signal_named(outside: bool, word: &[u8]) -> Option<Signal>
    ensures { result ≡ spec.signal_named outside word.now }
{
    let pin = pin_number(word)?;
    signal_by_number(outside, pin)
}

/// The level that a word names.
pub(crate) fn level_named(word: &[u8]) -> Option<Level>
    ensures { result ≡ spec.level_named word.now }
{
    if is(word, b"high") {
        Some(Level::High)
    } else if is(word, b"low") {
        Some(Level::Low)
    } else {
        None
    }
}

fn way_named(word: &[u8]) -> Option<Way>
    ensures { result ≡ spec.way_named word.now }
{
    if is(word, b"rise") {
        Some(Way::Rise)
    } else if is(word, b"fall") {
        Some(Way::Fall)
    } else if is(word, b"edge") {
        Some(Way::Either)
    } else {
        None
    }
}

/// A signal.
#[tactic(auto, unfolding(crate::specs::Events::signal))]
pub(crate) fn signal(words: &mut Words) -> Result<Signal, ReadFault>
    ensures read { IfOk result (λ x. spec.signal words.old ≡ Some (x, words.new)) }
    ensures none { IfErr result (λ e. e ≡ faults.Wrong → spec.signal words.old ≡ None) }
{
    let outside = words.has(b"input");
    let named = signal_named(outside, words.first());
    words.advance();
    named.ok_or(ReadFault::Wrong)
}

fn level(words: &mut Words) -> Result<Level, ReadFault>
    ensures read { IfOk result (λ x. spec.level words.old ≡ Some (x, words.new)) }
    ensures none { IfErr result (λ e. e ≡ faults.Wrong → spec.level words.old ≡ None) }
{
    let named = level_named(words.first());
    words.advance();
    named.ok_or(ReadFault::Wrong)
}

fn way(words: &mut Words) -> Result<Way, ReadFault>
    ensures read { IfOk result (λ x. one spec.way_named words.old ≡ Some (x, words.new)) }
    ensures none { IfErr result (λ e. e ≡ faults.Wrong → one spec.way_named words.old ≡ None) }
{
    let named = way_named(words.first());
    words.advance();
    named.ok_or(ReadFault::Wrong)
}

fn vector(words: &mut Words, most: u8) -> Result<u8, ReadFault>
    ensures read { IfOk result (λ x. one (up_to_number most) words.old ≡ Some (x, words.new)) }
    ensures none { IfErr result (λ e. e ≡ faults.Wrong → one (up_to_number most) words.old ≡ None) }
{
    let named = up_to(most, words.first());
    words.advance();
    named.ok_or(ReadFault::Wrong)
}

/// A signal with its level.
#[tactic(auto, unfolding(crate::specs::Events::steady))]
pub(crate) fn steady(words: &mut Words) -> Result<Steady, ReadFault>
    ensures read { IfOk result (λ x. spec.steady words.old ≡ Some (x, words.new)) }
    ensures none { IfErr result (λ e. e ≡ faults.Wrong → spec.steady words.old ≡ None) }
{
    let signal = signal(words)?;
    let level = level(words)?;
    Ok(Steady { signal, level })
}

#[tactic(auto, unfolding(crate::specs::Events::edge))]
fn edge(words: &mut Words) -> Result<Wanted, ReadFault>
    ensures read { IfOk result (λ x. spec.edge words.old ≡ Some (x, words.new)) }
    ensures none { IfErr result (λ e. e ≡ faults.Wrong → spec.edge words.old ≡ None) }
{
    let signal = signal(words)?;
    let way = way(words)?;
    Ok(Wanted::Edge(signal, way))
}

#[tactic(auto, unfolding(crate::specs::Events::wanted_by_word))]
fn wanted_by_word(words: &mut Words) -> Result<Wanted, ReadFault>
    ensures read { IfOk result (λ x. spec.wanted_by_word words.old ≡ Some (x, words.new)) }
    ensures none { IfErr result (λ e. e ≡ faults.Wrong → spec.wanted_by_word words.old ≡ None) }
{
    if words.has(b"entry") {
        Ok(Wanted::Entry(vector(words, 17)?))
    } else if words.has(b"transfer") {
        Ok(Wanted::Transfer(vector(words, 14)?))
    } else if words.has(b"undefined") {
        Ok(Wanted::Undefined)
    } else if words.has(b"reset") {
        Ok(Wanted::Reset)
    } else if words.has(b"watchdog") {
        Ok(Wanted::Watchdog)
    } else if words.has(b"powerdown") {
        Ok(Wanted::Powerdown)
    } else {
        edge(words)
    }
}

fn place_named(marks: &[Mark], word: &[u8]) -> Option<usize>
    ensures { result ≡ position_from (λ m. bytes_eq m.name word.now) 0 marks.now }
{
    marks.iter().position(|m| is(m.name.as_slice(), word))
}

/// The number of the mark of a name.
pub(crate) fn mark_named(marks: &[Mark], word: &[u8]) -> Option<usize>
    ensures { result ≡ spec.mark_named (names_of marks.now) word.now }
{
    place_named(marks, word)
}

fn marked(words: &mut Words, marks: &[Mark]) -> Option<usize>
    ensures { spec.marked (names_of marks.now) words.old ≡ Some (result, words.new) }
{
    let named = mark_named(marks, words.first());
    match named {
        Some(mark) => {
            words.advance();
            Some(mark)
        }
        None => None,
    }
}

#[tactic(auto, unfolding(crate::specs::Events::wanted))]
fn wanted(words: &mut Words, marks: &[Mark]) -> Result<Wanted, ReadFault>
    ensures read { IfOk result (λ x. spec.wanted (names_of marks.now) words.old ≡ Some (x, words.new)) }
    ensures none { IfErr result (λ e. e ≡ faults.Wrong → spec.wanted (names_of marks.now) words.old ≡ None) }
{
    match marked(words, marks) {
        Some(mark) => Ok(Wanted::Mark(mark)),
        None => wanted_by_word(words),
    }
}

#[tactic(auto, unfolding(crate::specs::Events::condition))]
fn condition(words: &mut Words) -> Result<Option<Steady>, ReadFault>
    ensures read { IfOk result (λ x. spec.condition words.old ≡ Some (x, words.new)) }
    ensures none { IfErr result (λ e. e ≡ faults.Wrong → spec.condition words.old ≡ None) }
{
    if words.has(b"while") {
        Ok(Some(steady(words)?))
    } else {
        Ok(None)
    }
}

#[tactic(auto, unfolding(crate::specs::Events::atom))]
fn atom(words: &mut Words, marks: &[Mark]) -> Result<Atom, ReadFault>
    ensures read { IfOk result (λ x. spec.atom (names_of marks.now) words.old ≡ Some (x, words.new)) }
    ensures none { IfErr result (λ e. e ≡ faults.Wrong → spec.atom (names_of marks.now) words.old ≡ None) }
{
    let wanted = wanted(words, marks)?;
    let condition = condition(words)?;
    Ok(Atom { wanted, condition })
}

/// Events: atoms with `or` between.
pub(crate) fn events(alloc: Global, words: &mut Words, marks: &[Mark]) -> Result<Events, ReadFault>
    ensures read { IfOk result (λ x. spec.events (names_of marks.now) words.old ≡ Some (x, words.new)) }
    ensures none { IfErr result (λ e. e ≡ faults.Wrong → spec.events (names_of marks.now) words.old ≡ None) }
{
    let mut events = Events::new(alloc);
    let most = words.len();
    for _done in 0..most {
        let atom = atom(words, marks)?;
        events.push(atom)?;
        if !words.has(b"or") {
            return Ok(events);
        }
    }
    Err(ReadFault::Wrong)
}
