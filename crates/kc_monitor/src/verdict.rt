// What is known of a rule.
ghost use Rattle.std.specs.Prelude.{◌≡◌, ◌++◌, OnOk, decimal, Some};
ghost use Rattle.kc_monitor.specs.Verdicts as spec;

use kc_base::{NoMemory, put_number};
use kc_monitor_forms::{Found, Offset, Spread, Tally};
use kc_rules::{Form, Rule};

fn put(text: &mut Vec<u8>, bytes: &[u8]) -> Result<(), NoMemory>
    ensures { OnOk result (text.new.items ≡ text.old.items ++ bytes.now) }
{
    text.extend_from_slice(bytes)?;
    Ok(())
}

fn put_field(text: &mut Vec<u8>, n: u64) -> Result<(), NoMemory>
    ensures { OnOk result (text.new.items ≡ text.old.items ++ spec.number n) }
{
    put(text, b" ")?;
    put_number(text, u128::from(n))
}

fn put_offset(text: &mut Vec<u8>, offset: Offset) -> Result<(), NoMemory>
    ensures { OnOk result (text.new.items ≡ text.old.items ++ spec.offset offset) }
{
    match offset {
        Offset::Minus(n) => {
            put(text, b"-")?;
            put_number(text, n)
        }
        Offset::Plus(n) => put_number(text, n),
    }
}

fn size(offset: Offset) -> u128
    ensures { result ≡ spec.size offset }
{
    match offset {
        Offset::Minus(n) => n,
        Offset::Plus(n) => n,
    }
}

fn put_percent(text: &mut Vec<u8>, offset: Offset) -> Result<(), NoMemory>
    ensures { OnOk result (text.new.items ≡ text.old.items ++ spec.percent offset) }
{
    let n = size(offset);
    put_number(text, n / 100)?;
    put(text, b".")?;
    put_number(text, n % 100 / 10)?;
    put_number(text, n % 10)?;
    put(text, b"%")
}

fn put_value(text: &mut Vec<u8>, shares: bool, value: Offset) -> Result<(), NoMemory>
    ensures { OnOk result (text.new.items ≡ text.old.items ++ spec.value_text shares value) }
{
    if shares {
        put_percent(text, value)
    } else {
        put_offset(text, value)
    }
}

fn put_seen(text: &mut Vec<u8>, seen: Option<Offset>) -> Result<(), NoMemory>
    ensures { OnOk result (text.new.items ≡ text.old.items ++ spec.seen_text seen) }
{
    match seen {
        Some(seen) => put_offset(text, seen),
        None => put(text, b"-"),
    }
}

fn put_life(text: &mut Vec<u8>, lives: u64, life: u64) -> Result<(), NoMemory>
    ensures { OnOk result (text.new.items ≡ text.old.items ++ spec.life_text lives life) }
{
    if lives > 1 {
        put(text, b" life")?;
        put_field(text, life)
    } else {
        Ok(())
    }
}

fn put_broken(
    text: &mut Vec<u8>,
    rule: &Rule,
    lives: u64,
    found: Found,
    tally: &Tally,
) -> Result<(), NoMemory>
    ensures { OnOk result (text.new.items ≡ text.old.items ++ spec.broken_line rule.now lives tally.now found) }
{
    put(text, b"broken")?;
    put_field(text, u64::from(rule.line))?;
    put_field(text, found.at)?;
    put(text, b" ")?;
    put_seen(text, found.seen)?;
    put_field(text, tally.bad)?;
    put_field(text, tally.good)?;
    put_life(text, lives, found.life)
}

fn put_open(
    text: &mut Vec<u8>,
    rule: &Rule,
    lives: u64,
    found: Found,
    tally: &Tally,
) -> Result<(), NoMemory>
    ensures { OnOk result (text.new.items ≡ text.old.items ++ spec.open_line rule.now lives tally.now found) }
{
    put(text, b"open")?;
    put_field(text, u64::from(rule.line))?;
    put_field(text, found.at)?;
    put_field(text, tally.undecided)?;
    put_field(text, tally.good)?;
    put_life(text, lives, found.life)
}

fn put_unasked(text: &mut Vec<u8>, rule: &Rule) -> Result<(), NoMemory>
    ensures { OnOk result (text.new.items ≡ text.old.items ++ spec.unasked_line rule.now) }
{
    put(text, b"broken")?;
    put_field(text, u64::from(rule.line))?;
    put(text, b" - unasked")
}

fn put_held(text: &mut Vec<u8>, rule: &Rule, tally: &Tally) -> Result<(), NoMemory>
    ensures { OnOk result (text.new.items ≡ text.old.items ++ spec.held_line rule.now tally.now) }
{
    put(text, b"held")?;
    put_field(text, u64::from(rule.line))?;
    put_field(text, tally.good)
}

fn put_held_or_open(
    text: &mut Vec<u8>,
    rule: &Rule,
    lives: u64,
    tally: &Tally,
) -> Result<(), NoMemory>
    ensures { OnOk result (text.new.items ≡ text.old.items ++ spec.held_or_open rule.now lives tally.now tally.now.first_open) }
{
    match tally.first_open {
        Some(found) => put_open(text, rule, lives, found, tally),
        None => put_held(text, rule, tally),
    }
}

fn is_in_shares(form: &Form) -> bool
    ensures { result ≡ spec.is_in_shares form.now }
{
    matches!(form, Form::ForShare(_, _))
}

fn put_spread(text: &mut Vec<u8>, rule: &Rule, spread: Spread) -> Result<(), NoMemory>
    ensures { OnOk result (text.new.items ≡ text.old.items ++ spec.spread_line rule.now (Some spread)) }
{
    let shares = is_in_shares(&rule.form);
    put(text, b"spread")?;
    put_field(text, u64::from(rule.line))?;
    put(text, b" ")?;
    put_value(text, shares, spread.least)?;
    put(text, b" ")?;
    put_value(text, shares, spread.most)?;
    put(text, b"\n")
}

fn is_asked(tally: &Tally) -> bool
    ensures { result ≡ spec.is_asked tally.now }
{
    tally.good > 0 || tally.bad > 0 || tally.undecided > 0
}

// Whether a rule had to ask something, and has not.
fn is_unasked(rule: &Rule, tally: &Tally) -> bool
    ensures { result ≡ spec.is_unasked rule.now tally.now }
{
    !is_asked(tally) && !rule.if_any
}

/// Whether a rule is broken: it was, or it has asked nothing though it had to.
pub fn is_broken(rule: &Rule, tally: &Tally) -> bool
    ensures { result ≡ spec.is_broken rule.now tally.now }
{
    match tally.first_bad {
        Some(_) => true,
        None => is_unasked(rule, tally),
    }
}

fn put_first(text: &mut Vec<u8>, rule: &Rule, lives: u64, tally: &Tally) -> Result<(), NoMemory>
    ensures { OnOk result (text.new.items ≡ text.old.items ++ spec.first_line rule.now lives tally.now tally.now.first_bad) }
{
    match tally.first_bad {
        Some(found) => put_broken(text, rule, lives, found, tally),
        None => {
            if is_unasked(rule, tally) {
                put_unasked(text, rule)
            } else {
                put_held_or_open(text, rule, lives, tally)
            }
        }
    }
}

/// Appends the lines that report what became of a rule in so many lives.
pub fn put_verdict(
    text: &mut Vec<u8>,
    rule: &Rule,
    lives: u64,
    tally: &Tally,
) -> Result<(), NoMemory>
    ensures { OnOk result (text.new.items ≡ text.old.items ++ spec.verdict_of rule.now lives tally.now) }
{
    put_first(text, rule, lives, tally)?;
    put(text, b"\n")?;
    match tally.spread {
        Some(spread) => put_spread(text, rule, spread),
        None => Ok(()),
    }
}
