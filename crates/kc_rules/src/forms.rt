// Rules, by the words at the beginning.
ghost use Rattle.std.specs.Prelude.{◌≡◌, Some, None, IfOk, IfErr, IfSome};
ghost use Rattle.kc_rules.specs.declared.fault.ReadFault.TheVariants as faults;
ghost use Rattle.kc_rules.specs.Readings.{one};
ghost use Rattle.kc_rules.specs.Amounts.{count_of, amount_of, only_time, IsSmall, IsShort, ceiling as to_ceiling, floor as to_floor};
ghost use Rattle.std.specs.Option.{option_map};
ghost use Rattle.kc_rules.specs.Forms as spec;
ghost use Rattle.kc_rules.specs.Lines.{names_of};

use crate::amount::{Amount, Share, Time};
use crate::events::{Events, Steady};
use crate::fault::ReadFault;
use crate::mark::Mark;
use crate::marks::sees_digit;
use crate::numbers::{self, begins_digit, ceiling, only_share, only_time, proper, time_le};
use crate::parts::{events, level_named, steady};
use crate::rule::{Form, Rule, Scope, Shares, Span, When, Within};
use crate::words::{Words, is};
use std::alloc::Global;

/// The least and the greatest amount.
#[derive(Clone, Copy)]
struct Range {
    least: Option<Amount>,
    most: Option<Amount>,
}

/// A time or a share.
pub(crate) fn amount(words: &mut Words, clock: u32) -> Result<Amount, ReadFault>
    ensures read { IfOk result (λ x. one (amount_of clock) words.old ≡ Some (x, words.new)) }
    ensures small { IfOk result IsSmall }
    ensures none { IfErr result (λ e. e ≡ faults.Wrong → one (amount_of clock) words.old ≡ None) }
{
    let named = numbers::amount(clock, words.first());
    words.advance();
    named.ok_or(ReadFault::Wrong)
}

fn time(words: &mut Words, clock: u32) -> Result<Time, ReadFault>
    ensures read { IfOk result (λ x. spec.time clock words.old ≡ Some (x, words.new)) }
    ensures small { IfOk result IsShort }
    ensures none { IfErr result (λ e. e ≡ faults.Wrong → spec.time clock words.old ≡ None) }
{
    let amount = amount(words, clock)?;
    only_time(amount).ok_or(ReadFault::Wrong)
}

fn share(words: &mut Words, clock: u32) -> Result<Share, ReadFault>
    ensures read { IfOk result (λ x. spec.share clock words.old ≡ Some (x, words.new)) }
    ensures none { IfErr result (λ e. e ≡ faults.Wrong → spec.share clock words.old ≡ None) }
{
    let amount = amount(words, clock)?;
    only_share(amount).ok_or(ReadFault::Wrong)
}

fn count(words: &mut Words) -> Result<u64, ReadFault>
    ensures read { IfOk result (λ x. one count_of words.old ≡ Some (x, words.new)) }
    ensures none { IfErr result (λ e. e ≡ faults.Wrong → one count_of words.old ≡ None) }
{
    let named = numbers::count(words.first());
    words.advance();
    named.ok_or(ReadFault::Wrong)
}

fn amount_le(a: Amount, b: Amount) -> bool
    ensures { result ≡ spec.amount_le a b }
{
    match (a, b) {
        (Amount::Time(a), Amount::Time(b)) => time_le(a, b),
        (Amount::Share(a), Amount::Share(b)) => {
            u128::from(a.num) * u128::from(b.den) <= u128::from(b.num) * u128::from(a.den)
        }
        _ => false,
    }
}

#[tactic(auto, unfolding(crate::specs::Forms::amount_limit))]
fn amount_limit(words: &mut Words, clock: u32) -> Result<Range, ReadFault>
    ensures read { IfOk result (λ x. spec.amount_limit clock words.old ≡ Some (x, words.new)) }
    ensures small { IfOk result (λ r. IfSome r.least IsSmall) }
    ensures none { IfErr result (λ e. e ≡ faults.Wrong → spec.amount_limit clock words.old ≡ None) }
{
    if words.has(b"least") {
        let a = amount(words, clock)?;
        return Ok(Range {
            least: Some(a),
            most: None,
        });
    }
    words.want(b"most")?;
    let b = amount(words, clock)?;
    Ok(Range {
        least: None,
        most: Some(b),
    })
}

// A, A to B, at least A, or at most B.
#[tactic(auto, unfolding(crate::specs::Forms::amounts_in))]
fn amounts(words: &mut Words, clock: u32) -> Result<Range, ReadFault>
    ensures read { IfOk result (λ x. spec.amounts_in clock words.old ≡ Some (x, words.new)) }
    ensures small { IfOk result (λ r. IfSome r.least IsSmall) }
    ensures none { IfErr result (λ e. e ≡ faults.Wrong → spec.amounts_in clock words.old ≡ None) }
{
    if words.has(b"at") {
        return amount_limit(words, clock);
    }
    let a = amount(words, clock)?;
    if !words.has(b"to") {
        return Ok(Range {
            least: Some(a),
            most: Some(a),
        });
    }
    let b = amount(words, clock)?;
    if amount_le(a, b) {
        Ok(Range {
            least: Some(a),
            most: Some(b),
        })
    } else {
        Err(ReadFault::Wrong)
    }
}

#[tactic(auto, unfolding(crate::specs::Forms::count_limit))]
fn count_limit(words: &mut Words) -> Result<Span, ReadFault>
    ensures read { IfOk result (λ x. spec.count_limit words.old ≡ Some (x, words.new)) }
    ensures none { IfErr result (λ e. e ≡ faults.Wrong → spec.count_limit words.old ≡ None) }
{
    if words.has(b"least") {
        let a = count(words)?;
        return Ok(Span {
            least: Some(a),
            most: None,
        });
    }
    words.want(b"most")?;
    let b = count(words)?;
    Ok(Span {
        least: None,
        most: Some(b),
    })
}

#[tactic(auto, unfolding(crate::specs::Forms::counts))]
fn counts(words: &mut Words) -> Result<Span, ReadFault>
    ensures read { IfOk result (λ x. spec.counts words.old ≡ Some (x, words.new)) }
    ensures none { IfErr result (λ e. e ≡ faults.Wrong → spec.counts words.old ≡ None) }
{
    if words.has(b"at") {
        return count_limit(words);
    }
    let a = count(words)?;
    if !words.has(b"to") {
        return Ok(Span {
            least: Some(a),
            most: Some(a),
        });
    }
    let b = count(words)?;
    if a <= b {
        Ok(Span {
            least: Some(a),
            most: Some(b),
        })
    } else {
        Err(ReadFault::Wrong)
    }
}

fn time_limit(limit: Option<Amount>) -> Option<Option<Time>>
    ensures value { result ≡ spec.each_limit only_time limit }
    ensures small { IfSome limit IsSmall → IfSome result (λ t. IfSome t IsShort) }
{
    match limit {
        None => Some(None),
        Some(amount) => Some(Some(only_time(amount)?)),
    }
}

fn share_limit(limit: Option<Amount>) -> Option<Option<Share>>
    ensures { result ≡ spec.each_limit spec.proper_share limit }
{
    match limit {
        None => Some(None),
        Some(amount) => Some(Some(only_share(amount)?)),
    }
}

fn ceiling_of(limit: Option<Time>) -> Option<u64>
    requires { IfSome limit IsShort }
    ensures { result ≡ option_map to_ceiling limit }
{
    match limit {
        Some(time) => Some(ceiling(time)),
        None => None,
    }
}

fn floor_of(limit: Option<Time>) -> Option<u64>
    ensures { result ≡ option_map to_floor limit }
{
    match limit {
        Some(time) => Some(time.states),
        None => None,
    }
}

fn span(range: &Range) -> Option<Span>
    requires { IfSome range.now.least IsSmall }
    ensures { result ≡ spec.span_in range.now }
{
    let least = time_limit(range.least)?;
    let most = time_limit(range.most)?;
    Some(Span {
        least: ceiling_of(least),
        most: floor_of(most),
    })
}

fn shares(range: &Range) -> Option<Shares>
    ensures { result ≡ spec.shares_in range.now }
{
    let least = share_limit(range.least)?;
    let most = share_limit(range.most)?;
    Some(Shares { least, most })
}

#[tactic(auto, unfolding(crate::specs::Forms::never))]
fn never(alloc: Global, words: &mut Words, marks: &[Mark]) -> Result<Form, ReadFault>
    ensures read { IfOk result (λ x. spec.never (names_of marks.now) words.old ≡ Some (x, words.new)) }
    ensures none { IfErr result (λ e. e ≡ faults.Wrong → spec.never (names_of marks.now) words.old ≡ None) }
{
    let events = events(alloc, words, marks)?;
    Ok(Form::Never(events))
}

#[tactic(auto, unfolding(crate::specs::Forms::after))]
fn after(alloc: Global, clock: u32, words: &mut Words, marks: &[Mark]) -> Result<Form, ReadFault>
    ensures read { IfOk result (λ x. spec.after clock (names_of marks.now) words.old ≡ Some (x, words.new)) }
    ensures none { IfErr result (λ e. e ≡ faults.Wrong → spec.after clock (names_of marks.now) words.old ≡ None) }
{
    words.want(b"each")?;
    let each = events(alloc, words, marks)?;
    words.want(b",")?;
    let no = words.has(b"no");
    let answer = events(alloc, words, marks)?;
    words.want(b"within")?;
    let a = time(words, clock)?;
    if !words.has(b"to") {
        return Ok(Form::After(each, no, answer, 0, a.states));
    }
    let b = time(words, clock)?;
    if time_le(a, b) {
        Ok(Form::After(each, no, answer, ceiling(a), b.states))
    } else {
        Err(ReadFault::Wrong)
    }
}

#[tactic(auto, unfolding(crate::specs::Forms::count))]
fn counted(alloc: Global, words: &mut Words, marks: &[Mark]) -> Result<Form, ReadFault>
    ensures read { IfOk result (λ x. spec.count (names_of marks.now) words.old ≡ Some (x, words.new)) }
    ensures none { IfErr result (λ e. e ≡ faults.Wrong → spec.count (names_of marks.now) words.old ≡ None) }
{
    let span = counts(words)?;
    let counted = events(alloc, words, marks)?;
    words.want(b"in")?;
    words.want(b"each")?;
    if words.has(b"life") {
        return Ok(Form::InLife(span, counted));
    }
    let from = events(alloc, words, marks)?;
    words.want(b"to")?;
    let to = events(alloc, words, marks)?;
    Ok(Form::InEach(span, counted, from, to))
}

fn within_by(amount: Amount) -> Option<Within>
    ensures { result ≡ spec.within_by amount }
{
    match amount {
        Amount::Time(time) => {
            if time_le(
                time,
                Time {
                    states: 1_000_000_000,
                    parts: 0,
                },
            ) {
                Some(Within::Time(time))
            } else {
                None
            }
        }
        Amount::Share(factor) => Some(Within::Share(proper(factor)?)),
    }
}

fn within(words: &mut Words, clock: u32) -> Result<Within, ReadFault>
    ensures read { IfOk result (λ x. spec.within clock words.old ≡ Some (x, words.new)) }
    ensures none { IfErr result (λ e. e ≡ faults.Wrong → spec.within clock words.old ≡ None) }
{
    let amount = amount(words, clock)?;
    within_by(amount).ok_or(ReadFault::Wrong)
}

#[tactic(auto, unfolding(crate::specs::Forms::at))]
fn at(
    alloc: Global,
    clock: u32,
    words: &mut Words,
    marks: &[Mark],
    event: Events,
) -> Result<Form, ReadFault>
    ensures read { IfOk result (λ x. spec.at clock (names_of marks.now) event words.old ≡ Some (x, words.new)) }
    ensures none { IfErr result (λ e. e ≡ faults.Wrong → spec.at clock (names_of marks.now) event words.old ≡ None) }
{
    let share = share(words, clock)?;
    words.want(b"of")?;
    let from = events(alloc, words, marks)?;
    words.want(b"to")?;
    let to = events(alloc, words, marks)?;
    words.want(b"within")?;
    let within = within(words, clock)?;
    Ok(Form::At(event, share, from, to, within))
}

#[tactic(auto, unfolding(crate::specs::Forms::every))]
fn every(clock: u32, words: &mut Words, event: Events) -> Result<Form, ReadFault>
    ensures read { IfOk result (λ x. spec.every clock event words.old ≡ Some (x, words.new)) }
    ensures none { IfErr result (λ e. e ≡ faults.Wrong → spec.every clock event words.old ≡ None) }
{
    words.want(b"every")?;
    let range = amounts(words, clock)?;
    match span(&range) {
        Some(span) => Ok(Form::Every(event, span)),
        None => Err(ReadFault::Wrong),
    }
}

#[tactic(auto, unfolding(crate::specs::Forms::event_form))]
fn event_form(
    alloc: Global,
    clock: u32,
    words: &mut Words,
    marks: &[Mark],
) -> Result<Form, ReadFault>
    ensures read { IfOk result (λ x. spec.event_form clock (names_of marks.now) words.old ≡ Some (x, words.new)) }
    ensures none { IfErr result (λ e. e ≡ faults.Wrong → spec.event_form clock (names_of marks.now) words.old ≡ None) }
{
    let event = events(alloc, words, marks)?;
    if words.has(b"at") {
        at(alloc, clock, words, marks, event)
    } else {
        every(clock, words, event)
    }
}

fn for_by(steady: Steady, range: &Range) -> Option<Form>
    requires { IfSome range.now.least IsSmall }
    ensures { result ≡ spec.for_by steady (spec.span_in range.now) (spec.shares_in range.now) }
{
    match span(range) {
        Some(span) => Some(Form::For(steady, span)),
        None => Some(Form::ForShare(steady, shares(range)?)),
    }
}

fn apart_by(one: Steady, other: Steady, distance: Time) -> Option<Form>
    requires { IsShort distance }
    ensures { result ≡ spec.apart_by one other distance }
{
    if one.signal.is(other.signal) {
        None
    } else {
        Some(Form::Apart(one, other, ceiling(distance)))
    }
}

#[tactic(auto, unfolding(crate::specs::Forms::apart))]
fn apart(clock: u32, words: &mut Words, one: Steady) -> Result<Form, ReadFault>
    ensures read { IfOk result (λ x. spec.apart clock one words.old ≡ Some (x, words.new)) }
    ensures none { IfErr result (λ e. e ≡ faults.Wrong → spec.apart clock one words.old ≡ None) }
{
    words.want(b"and")?;
    let other = steady(words)?;
    let distance = time(words, clock)?;
    words.want(b"apart")?;
    apart_by(one, other, distance).ok_or(ReadFault::Wrong)
}

#[tactic(auto, unfolding(crate::specs::Forms::level_form))]
fn level_form(clock: u32, words: &mut Words) -> Result<Form, ReadFault>
    ensures read { IfOk result (λ x. spec.level_form clock words.old ≡ Some (x, words.new)) }
    ensures none { IfErr result (λ e. e ≡ faults.Wrong → spec.level_form clock words.old ≡ None) }
{
    let one = steady(words)?;
    if words.has(b"for") {
        let range = amounts(words, clock)?;
        for_by(one, &range).ok_or(ReadFault::Wrong)
    } else {
        apart(clock, words, one)
    }
}

// Whether a level stands behind a signal.
fn sees_level(words: &Words) -> bool
    ensures { spec.sees_level words.now ≡ Some (result, words.now) }
{
    let place = if is(words.first(), b"input") { 2 } else { 1 };
    level_named(words.at(place)).is_some()
}

// Whether a count comes.
fn sees_count(words: &Words) -> bool
    ensures { spec.sees_count words.now ≡ Some (result, words.now) }
{
    is(words.first(), b"at") || begins_digit(words.first())
}

#[tactic(auto, unfolding(crate::specs::Forms::form))]
fn form(alloc: Global, clock: u32, words: &mut Words, marks: &[Mark]) -> Result<Form, ReadFault>
    ensures read { IfOk result (λ x. spec.form clock (names_of marks.now) words.old ≡ Some (x, words.new)) }
    ensures none { IfErr result (λ e. e ≡ faults.Wrong → spec.form clock (names_of marks.now) words.old ≡ None) }
{
    if words.has(b"never") {
        never(alloc, words, marks)
    } else if words.has(b"after") {
        after(alloc, clock, words, marks)
    } else if sees_count(words) {
        counted(alloc, words, marks)
    } else if sees_level(words) {
        level_form(clock, words)
    } else {
        event_form(alloc, clock, words, marks)
    }
}

#[tactic(auto, unfolding(crate::specs::Forms::when))]
fn when(alloc: Global, clock: u32, words: &mut Words, marks: &[Mark]) -> Result<When, ReadFault>
    ensures read { IfOk result (λ x. spec.when clock (names_of marks.now) words.old ≡ Some (x, words.new)) }
    ensures none { IfErr result (λ e. e ≡ faults.Wrong → spec.when clock (names_of marks.now) words.old ≡ None) }
{
    if sees_digit(words) {
        let time = time(words, clock)?;
        Ok(When::State(ceiling(time)))
    } else {
        let events = events(alloc, words, marks)?;
        Ok(When::Events(events))
    }
}

#[tactic(auto, unfolding(crate::specs::Forms::optional_when))]
fn optional_when(
    alloc: Global,
    clock: u32,
    words: &mut Words,
    marks: &[Mark],
    this: &[u8],
) -> Result<Option<When>, ReadFault>
    ensures read { IfOk result (λ x. spec.optional_when this.now clock (names_of marks.now) words.old ≡ Some (x, words.new)) }
    ensures none { IfErr result (λ e. e ≡ faults.Wrong → spec.optional_when this.now clock (names_of marks.now) words.old ≡ None) }
{
    if words.has(this) {
        let when = when(alloc, clock, words, marks)?;
        Ok(Some(when))
    } else {
        Ok(None)
    }
}

#[tactic(auto, unfolding(crate::specs::Forms::scope))]
fn scope(alloc: Global, clock: u32, words: &mut Words, marks: &[Mark]) -> Result<Scope, ReadFault>
    ensures read { IfOk result (λ x. spec.scope clock (names_of marks.now) words.old ≡ Some (x, words.new)) }
    ensures none { IfErr result (λ e. e ≡ faults.Wrong → spec.scope clock (names_of marks.now) words.old ≡ None) }
{
    if words.has(b"before") {
        let before = when(alloc, clock, words, marks)?;
        let from = optional_when(alloc, clock, words, marks, b"from")?;
        Ok(Scope {
            from,
            before: Some(before),
        })
    } else {
        let from = optional_when(alloc, clock, words, marks, b"from")?;
        let before = optional_when(alloc, clock, words, marks, b"before")?;
        Ok(Scope { from, before })
    }
}

#[tactic(auto, unfolding(crate::specs::Forms::if_any))]
fn if_any(words: &mut Words) -> Result<bool, ReadFault>
    ensures read { IfOk result (λ x. spec.if_any words.old ≡ Some (x, words.new)) }
    ensures none { IfErr result (λ e. e ≡ faults.Wrong → spec.if_any words.old ≡ None) }
{
    if words.has(b"if") {
        words.want(b"any")?;
        Ok(true)
    } else {
        Ok(false)
    }
}

/// A rule, at a line of this number.
#[tactic(auto, unfolding(crate::specs::Forms::rule))]
pub(crate) fn rule(
    alloc: Global,
    clock: u32,
    line: u32,
    words: &mut Words,
    marks: &[Mark],
) -> Result<Rule, ReadFault>
    ensures read { IfOk result (λ x. spec.rule clock line (names_of marks.now) words.old ≡ Some (x, words.new)) }
    ensures none { IfErr result (λ e. e ≡ faults.Wrong → spec.rule clock line (names_of marks.now) words.old ≡ None) }
{
    let form = form(alloc, clock, words, marks)?;
    let scope = scope(alloc, clock, words, marks)?;
    let if_any = if_any(words)?;
    Ok(Rule {
        line,
        form,
        scope,
        if_any,
    })
}
