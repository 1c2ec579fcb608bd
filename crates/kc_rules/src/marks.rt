// Marks, by the words at the beginning.
ghost use Rattle.std.specs.Prelude.{◌≡◌, map, Some, None, IfOk, IfErr};
ghost use Rattle.std.specs.List.{list_all, list_any};
ghost use Rattle.std.specs.Str.{bytes_eq};
ghost use Rattle.kc_rules.specs.declared.fault.ReadFault.TheVariants as faults;
ghost use Rattle.kc_rules.specs.Readings.{one};
ghost use Rattle.kc_rules.specs.Amounts.{ordinal_of, IsSmall};
ghost use Rattle.kc_rules.specs.Marks as spec;
ghost use Rattle.kc_rules.specs.Lines.{names_of};

use crate::amount::Amount;
use crate::events::Events;
use crate::fault::ReadFault;
use crate::forms::amount;
use crate::mark::{Mark, MarkForm};
use crate::numbers::{begins_digit, ceiling, ordinal};
use crate::parts::{events, mark_named};
use crate::words::{Words, is};
use kc_base::{Text, pin_number};
use std::alloc::Global;

/// The words of the language, which no mark may have as its name.
static OWN_WORDS: [&[u8]; 36] = [
    b"mark",
    b"never",
    b"after",
    b"each",
    b"every",
    b"within",
    b"at",
    b"of",
    b"to",
    b"in",
    b"from",
    b"before",
    b"if",
    b"any",
    b"high",
    b"low",
    b"for",
    b"and",
    b"apart",
    b"or",
    b"while",
    b"rise",
    b"fall",
    b"edge",
    b"entry",
    b"transfer",
    b"undefined",
    b"reset",
    b"watchdog",
    b"powerdown",
    b"quiet",
    b"life",
    b"input",
    b"least",
    b"most",
    b"no",
];

fn own_words() -> &'static [&'static [u8]]
    ensures { map (λ own. own.now) result.now ≡ spec.own_words }
{
    &OWN_WORDS
}

fn is_among(words: &[&[u8]], word: &[u8]) -> bool
    ensures { result ≡ list_any (λ own. bytes_eq own.now word.now) words.now }
{
    words.iter().any(|own| is(own, word))
}

fn is_own(word: &[u8]) -> bool
    ensures { result ≡ spec.is_own word.now }
{
    is_among(own_words(), word)
}

fn is_first(c: u8) -> bool
    ensures { result ≡ spec.is_first c }
{
    c.is_ascii_alphabetic() || c == b'_'
}

fn is_later(c: u8) -> bool
    ensures { result ≡ spec.is_later c }
{
    is_first(c) || c.is_ascii_digit()
}

fn are_later(text: &[u8]) -> bool
    ensures { result ≡ list_all spec.is_later text.now }
{
    text.iter().all(|c| is_later(*c))
}

fn is_spelled(word: &[u8]) -> bool
    ensures { result ≡ spec.is_spelled word.now }
{
    match word {
        [first, rest @ ..] => is_first(*first) && are_later(rest) && rest.len() <= 30,
        [] => false,
    }
}

fn is_free(marks: &[Mark], word: &[u8]) -> bool
    ensures { result ≡ spec.is_free (names_of marks.now) word.now }
{
    is_spelled(word)
        && !is_own(word)
        && pin_number(word).is_none()
        && mark_named(marks, word).is_none()
}

fn name(alloc: Global, words: &mut Words, marks: &[Mark]) -> Result<Text, ReadFault>
    ensures read { IfOk result (λ x. one (spec.free_name (names_of marks.now)) words.old ≡ Some (x, words.new)) }
    ensures none { IfErr result (λ e. e ≡ faults.Wrong → one (spec.free_name (names_of marks.now)) words.old ≡ None) }
{
    if !is_free(marks, words.first()) {
        return Err(ReadFault::Wrong);
    }
    let name = Text::of(alloc, words.first())?;
    words.advance();
    Ok(name)
}

fn nth(words: &mut Words) -> Result<u32, ReadFault>
    ensures read { IfOk result (λ x. one ordinal_of words.old ≡ Some (x, words.new)) }
    ensures none { IfErr result (λ e. e ≡ faults.Wrong → one ordinal_of words.old ≡ None) }
{
    let named = ordinal(words.first());
    words.advance();
    named.ok_or(ReadFault::Wrong)
}

/// Whether the first word begins with a digit.
pub(crate) fn sees_digit(words: &Words) -> bool
    ensures { spec.sees_digit words.now ≡ Some (result, words.now) }
{
    begins_digit(words.first())
}

fn quiet_by(events: Events, gap: Amount) -> MarkForm
    requires { IsSmall gap }
    ensures { result ≡ spec.quiet_by events gap }
{
    match gap {
        Amount::Time(time) => MarkForm::QuietFor(events, ceiling(time)),
        Amount::Share(share) => MarkForm::QuietShare(events, share),
    }
}

#[tactic(auto, unfolding(crate::specs::Marks::quiet_mark))]
fn quiet_mark(
    alloc: Global,
    clock: u32,
    words: &mut Words,
    marks: &[Mark],
) -> Result<MarkForm, ReadFault>
    ensures read { IfOk result (λ x. spec.quiet_mark clock (names_of marks.now) words.old ≡ Some (x, words.new)) }
    ensures none { IfErr result (λ e. e ≡ faults.Wrong → spec.quiet_mark clock (names_of marks.now) words.old ≡ None) }
{
    let events = events(alloc, words, marks)?;
    if words.has(b"after") {
        let gap = amount(words, clock)?;
        words.want(b"quiet")?;
        Ok(quiet_by(events, gap))
    } else {
        Ok(MarkForm::Same(events))
    }
}

#[tactic(auto, unfolding(crate::specs::Marks::every_mark))]
fn every_mark(alloc: Global, words: &mut Words, marks: &[Mark]) -> Result<MarkForm, ReadFault>
    ensures read { IfOk result (λ x. spec.every_mark (names_of marks.now) words.old ≡ Some (x, words.new)) }
    ensures none { IfErr result (λ e. e ≡ faults.Wrong → spec.every_mark (names_of marks.now) words.old ≡ None) }
{
    let k = nth(words)?;
    let events = events(alloc, words, marks)?;
    Ok(MarkForm::Every(k, events))
}

#[tactic(auto, unfolding(crate::specs::Marks::from_mark))]
fn from_mark(alloc: Global, words: &mut Words, marks: &[Mark]) -> Result<MarkForm, ReadFault>
    ensures read { IfOk result (λ x. spec.from_mark (names_of marks.now) words.old ≡ Some (x, words.new)) }
    ensures none { IfErr result (λ e. e ≡ faults.Wrong → spec.from_mark (names_of marks.now) words.old ≡ None) }
{
    let k = nth(words)?;
    let counted = events(alloc, words, marks)?;
    words.want(b"from")?;
    let first = events(alloc, words, marks)?;
    Ok(MarkForm::From(k, counted, first))
}

#[tactic(auto, unfolding(crate::specs::Marks::mark_form))]
fn mark_form(
    alloc: Global,
    clock: u32,
    words: &mut Words,
    marks: &[Mark],
) -> Result<MarkForm, ReadFault>
    ensures read { IfOk result (λ x. spec.mark_form clock (names_of marks.now) words.old ≡ Some (x, words.new)) }
    ensures none { IfErr result (λ e. e ≡ faults.Wrong → spec.mark_form clock (names_of marks.now) words.old ≡ None) }
{
    if words.has(b"every") {
        every_mark(alloc, words, marks)
    } else if sees_digit(words) {
        from_mark(alloc, words, marks)
    } else {
        quiet_mark(alloc, clock, words, marks)
    }
}

/// What stands behind the word `mark`.
#[tactic(auto, unfolding(crate::specs::Marks::mark))]
pub(crate) fn mark(
    alloc: Global,
    clock: u32,
    words: &mut Words,
    marks: &[Mark],
) -> Result<Mark, ReadFault>
    ensures read { IfOk result (λ x. spec.mark clock (names_of marks.now) words.old ≡ Some (x, words.new)) }
    ensures none { IfErr result (λ e. e ≡ faults.Wrong → spec.mark clock (names_of marks.now) words.old ≡ None) }
{
    let name = name(alloc, words, marks)?;
    words.want(b"=")?;
    let form = mark_form(alloc, clock, words, marks)?;
    Ok(Mark { name, form })
}
