// Numbers, times and shares, each a word.
ghost use Rattle.std.specs.Prelude.{◌≡◌, ◌*◌, ◌^◌, ◌≤◌, ◌<◌, length, drop, IfSome};
ghost use Rattle.kc_base.specs.Limits.{max_states};
ghost use Rattle.kc_base.specs.TextLines.{begins_with};
ghost use Rattle.kc_rules.specs.Amounts.{IsSmall, IsShort};
ghost use Rattle.kc_rules.specs.Amounts as spec;
ghost use Rattle.kc_rules.specs.Forms.{proper_share};

use crate::amount::{Amount, Factor, Share, Time};
use crate::words::is;
use kc_base::{MAX_STATES, after, decimal, prefix};

/// How many parts a state has.
const PARTS: u128 = 2_000_000_000_000_000;

// How many digits stand at the beginning.
fn digit_count(text: &[u8]) -> usize
    ensures value { result ≡ length (spec.digits_of text.now) }
    ensures within { result ≤ length text.now }
{
    text.iter().take_while(|c| c.is_ascii_digit()).count()
}

fn digits(text: &[u8]) -> &[u8]
    ensures { result.now ≡ spec.digits_of text.now }
{
    prefix(text, digit_count(text))
}

fn behind_digits(text: &[u8]) -> &[u8]
    ensures { result.now ≡ spec.behind_digits text.now }
{
    after(text, digit_count(text))
}

// The number of at least one digit and at most so many, which is at most the limit.
fn number(most: usize, limit: u64, digits: &[u8]) -> Option<u64>
    requires { limit ≤ max_states }
    ensures value { result ≡ spec.number_of most limit digits.now }
    ensures bounded { IfSome result (λ n. n ≤ limit) }
{
    if digits.len() <= most {
        decimal(limit, digits)
    } else {
        None
    }
}

// A text that is such digits alone.
#[tactic(auto, unfolding(crate::specs::Amounts::whole_number))]
fn whole_number(most: usize, limit: u64, text: &[u8]) -> Option<u64>
    requires { limit ≤ max_states }
    ensures value { result ≡ spec.whole_number most limit text.now }
    ensures bounded { IfSome result (λ n. n ≤ limit) }
{
    let n = number(most, limit, digits(text))?;
    if behind_digits(text).is_empty() {
        Some(n)
    } else {
        None
    }
}

/// A count: at most 15 digits.
pub(crate) fn count(word: &[u8]) -> Option<u64>
    ensures { result ≡ spec.count_of word.now }
{
    whole_number(15, MAX_STATES, word)
}

/// A number that is at most this one.
#[tactic(auto, unfolding(crate::specs::Amounts::up_to))]
pub(crate) fn up_to(most: u8, word: &[u8]) -> Option<u8>
    ensures { result ≡ spec.up_to most word.now }
{
    let n = count(word)?;
    if n <= u64::from(most) {
        Some(n as u8)
    } else {
        None
    }
}

fn is_ordinal_ending(text: &[u8]) -> bool
    ensures { result ≡ spec.is_ordinal_ending text.now }
{
    is(text, b"st") || is(text, b"nd") || is(text, b"rd") || is(text, b"th")
}

/// An ordinal number.
#[tactic(auto, unfolding(crate::specs::Amounts::ordinal_of))]
pub(crate) fn ordinal(word: &[u8]) -> Option<u32>
    ensures { result ≡ spec.ordinal_of word.now }
{
    if !is_ordinal_ending(behind_digits(word)) {
        return None;
    }
    let n = number(9, 1_000_000_000, digits(word))?;
    if n == 0 { None } else { Some(n as u32) }
}

/// Whether a word begins with a digit.
pub(crate) fn begins_digit(word: &[u8]) -> bool
    ensures { result ≡ spec.begins_digit word.now }
{
    digit_count(word) > 0
}

fn begins(text: &[u8], c: u8) -> bool
    ensures { result ≡ begins_with c text.now }
{
    match text {
        [first, ..] => *first == c,
        [] => false,
    }
}

// The text without its first character.
fn behind_first(text: &[u8]) -> &[u8]
    ensures { result.now ≡ drop 1 text.now }
{
    if text.is_empty() {
        text
    } else {
        after(text, 1)
    }
}

fn has_point(word: &[u8]) -> bool
    ensures { result ≡ spec.has_point word.now }
{
    begins(behind_digits(word), b'.')
}

fn behind_point(word: &[u8]) -> &[u8]
    ensures { result.now ≡ spec.behind_point word.now }
{
    behind_first(behind_digits(word))
}

// Ten to a power of six at most.
fn power(exponent: usize) -> u64
    requires { exponent ≤ 6 }
    ensures value { result ≡ 10 ^ exponent }
    ensures bounded { result ≤ 10 ^ 6 }
{
    match exponent {
        0 => 1,
        1 => 10,
        2 => 100,
        3 => 1_000,
        4 => 10_000,
        5 => 100_000,
        _ => 1_000_000,
    }
}

// Six digits behind the point, with zeros for those that are not there.
fn millionths(digits: &[u8]) -> Option<u64>
    ensures value { result ≡ spec.millionths digits.now }
    ensures bounded { IfSome result (λ n. n ≤ 10 ^ 12) }
{
    if digits.len() > 6 {
        return None;
    }
    let n = number(6, 1_000_000, digits)?;
    Some(n * power(6 - digits.len()))
}

#[tactic(auto, unfolding(crate::specs::Amounts::fraction_of))]
fn fraction(word: &[u8]) -> Option<u64>
    ensures value { result ≡ spec.fraction_of word.now }
    ensures bounded { IfSome result (λ n. n ≤ 10 ^ 12) }
{
    if has_point(word) {
        millionths(digits(behind_point(word)))
    } else {
        Some(0)
    }
}

// A decimal, in millionths.
#[tactic(auto, unfolding(crate::specs::Amounts::value_of))]
fn value(word: &[u8]) -> Option<u128>
    ensures value { result ≡ spec.value_of word.now }
    ensures bounded { IfSome result (λ n. n ≤ 10 ^ 22) }
{
    let n = number(15, MAX_STATES, digits(word))?;
    let f = fraction(word)?;
    Some(u128::from(n) * 1_000_000 + u128::from(f))
}

// What stands behind a decimal.
fn unit(word: &[u8]) -> &[u8]
    ensures { result.now ≡ spec.unit_of word.now }
{
    if has_point(word) {
        behind_digits(behind_point(word))
    } else {
        behind_digits(word)
    }
}

// The parts of a millionth of a unit.
#[tactic(auto, unfolding(crate::specs::Amounts::unit_parts))]
fn unit_parts(clock: u32, unit: &[u8]) -> Option<u128>
    ensures { result ≡ spec.unit_parts clock unit.now }
{
    let clock = u128::from(clock);
    if is(unit, b"ns") {
        Some(clock)
    } else if is(unit, b"us") {
        Some(clock * 1_000)
    } else if is(unit, b"ms") {
        Some(clock * 1_000_000)
    } else if is(unit, b"s") {
        Some(clock * 1_000_000_000)
    } else if unit.is_empty() {
        Some(2_000_000_000)
    } else {
        None
    }
}

#[tactic(auto, unfolding(crate::specs::Amounts::time_in))]
fn time_in(parts: u128) -> Option<Amount>
    ensures value { result ≡ spec.time_in parts }
    ensures small { IfSome result IsSmall }
{
    if parts <= u128::from(MAX_STATES) * PARTS {
        Some(Amount::Time(Time {
            states: (parts / PARTS) as u64,
            parts: (parts % PARTS) as u64,
        }))
    } else {
        None
    }
}

// The time in parts, where it fits.
#[tactic(auto, unfolding(crate::specs::Amounts::time_in))]
fn scaled(value: u128, parts: u128) -> Option<Amount>
    ensures value { result ≡ spec.time_in (value * parts) }
    ensures small { IfSome result IsSmall }
{
    match value.checked_mul(parts) {
        Some(all) => time_in(all),
        None => None,
    }
}

#[tactic(auto, unfolding(crate::specs::Amounts::time_of))]
fn time(clock: u32, point: bool, value: u128, unit: &[u8]) -> Option<Amount>
    ensures value { result ≡ spec.time_of clock point value unit.now }
    ensures small { IfSome result IsSmall }
{
    if point && unit.is_empty() {
        return None;
    }
    let parts = unit_parts(clock, unit)?;
    scaled(value, parts)
}

// The greatest common divisor.
fn gcd(a: u128, b: u128) -> u128
    requires { 0 < b }
    ensures value { result ≡ spec.gcd a b }
    ensures some { 0 < result }
{
    let mut a = a;
    let mut b = b;
    'steps: while b != 0 {
        let rest = a % b;
        a = b;
        b = rest;
    }
    a
}

#[tactic(auto, unfolding(crate::specs::Amounts::share_in))]
fn share_in(num: u128, den: u128) -> Option<Amount>
    requires some { 0 < den }
    requires short { den ≤ 10 ^ 15 }
    ensures value { result ≡ spec.share_in num den }
    ensures small { IfSome result IsSmall }
{
    let divisor = gcd(num, den);
    let times = num / divisor;
    let parts = den / divisor;
    if parts <= 1_000_000_000 && times <= 1_000_000 * parts {
        Some(Amount::Share(Factor {
            num: times as u64,
            den: parts as u32,
        }))
    } else {
        None
    }
}

// What a share is counted in: hundredths, or a number of at most nine digits behind `/`.
#[tactic(auto, unfolding(crate::specs::Amounts::denominator_of))]
fn denominator(unit: &[u8]) -> Option<u64>
    ensures value { result ≡ spec.denominator_of unit.now }
    ensures bounded { IfSome result (λ n. (0 < n) × (n ≤ 10 ^ 9)) }
{
    if is(unit, b"%") {
        return Some(100);
    }
    if !begins(unit, b'/') {
        return None;
    }
    let n = whole_number(9, 1_000_000_000, behind_first(unit))?;
    if n == 0 { None } else { Some(n) }
}

/// A time or a share, at an oscillator of so many hertz.
#[tactic(auto, unfolding(crate::specs::Amounts::amount_of))]
pub(crate) fn amount(clock: u32, word: &[u8]) -> Option<Amount>
    ensures value { result ≡ spec.amount_of clock word.now }
    ensures small { IfSome result IsSmall }
{
    let value = value(word)?;
    match denominator(unit(word)) {
        Some(n) => share_in(value, 1_000_000 * u128::from(n)),
        None => time(clock, has_point(word), value, unit(word)),
    }
}

/// The time that an amount is.
pub(crate) fn only_time(amount: Amount) -> Option<Time>
    ensures value { result ≡ spec.only_time amount }
    ensures small { IsSmall amount → IfSome result IsShort }
{
    match amount {
        Amount::Time(time) => Some(time),
        Amount::Share(_) => None,
    }
}

/// The share that a factor is, if it is one at most.
pub(crate) fn proper(factor: Factor) -> Option<Share>
    ensures { result ≡ spec.proper factor }
{
    if factor.num <= u64::from(factor.den) {
        Some(Share {
            num: factor.num as u32,
            den: factor.den,
        })
    } else {
        None
    }
}

/// The share of at most one that an amount is.
pub(crate) fn only_share(amount: Amount) -> Option<Share>
    ensures { result ≡ proper_share amount }
{
    match amount {
        Amount::Time(_) => None,
        Amount::Share(factor) => proper(factor),
    }
}

/// The least state that is no earlier than a time.
pub(crate) fn ceiling(time: Time) -> u64
    requires { IsShort time }
    ensures { result ≡ spec.ceiling time }
{
    if time.parts == 0 {
        time.states
    } else {
        time.states + 1
    }
}

/// Whether a time is at most another.
pub(crate) fn time_le(a: Time, b: Time) -> bool
    ensures { result ≡ spec.time_le a b }
{
    a.states < b.states || (a.states == b.states && a.parts <= b.parts)
}
