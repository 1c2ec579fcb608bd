// The values of options.
ghost use Rattle.std.specs.Prelude.{◌≡◌, ◌≤◌, ◌<◌, ◌==◌, IfSome, position, length};
ghost use Rattle.kc_kit_words.specs.Number.{number_of};
ghost use Rattle.kc_kit_words.specs.Values.{is_name, is_dash, is_trace_name, is_address, max_states, max_lives, states_of, lives_of, length_of, clock_of, range_of};
ghost use Rattle.kc_kit_words.specs.Options.{has_form};

use crate::inputs::Role;
use crate::numbers::{decimal, number};
use kc_base::{MAX_STATES, after, prefix};

/// The form of the value of an option.
#[derive(Clone, Copy)]
pub(crate) enum Form {
    /// A number of state times, up to 10^15.
    States,
    /// A number of lives, in decimal digits: 1 to 1,000.
    Lives,
    /// A number of bytes, up to 65,535.
    Length,
    /// A number of hertz, 1 to 4,294,967,295.
    Clock,
    /// Two addresses round a `-`.
    Span,
    /// A word for an address.
    Address,
    /// The name of a file.
    File,
    /// The name of a file that is read beside the first ones.
    Input(Role),
    /// The empty word: the option is a flag, which has no value.
    Flag,
}

/// The most lives that a run may have.
const MAX_LIVES: u64 = 1_000;

pub(crate) fn is_name(name: &str) -> bool
    ensures { result ≡ is_name name.now }
{
    let bytes = name.as_bytes();
    match bytes.first() {
        Some(first) => bytes.len() <= 255 && *first != b'-',
        None => false,
    }
}

/// Whether a word stands for standard input.
pub(crate) fn is_dash(word: &str) -> bool
    ensures { result ≡ is_dash word.now }
{
    word == "-"
}

/// Whether a word names a trace that is read piece by piece: a file, or standard input.
pub(crate) fn is_trace_name(name: &str) -> bool
    ensures { result ≡ is_trace_name name.now }
{
    is_name(name) || is_dash(name)
}

/// Whether a word may stand for an address.
pub(crate) fn is_address(word: &str) -> bool
    ensures { result ≡ is_address word.now }
{
    match word.as_bytes().first() {
        Some(first) => *first != b'-',
        None => false,
    }
}

/// A number of state times.
pub(crate) fn states(word: &str) -> Option<u64>
    ensures value { result ≡ states_of word.now }
    ensures within { IfSome result (λ n. n ≤ max_states) }
{
    number(word.as_bytes(), MAX_STATES)
}

/// A number of lives.
pub(crate) fn lives(word: &str) -> Option<u16>
    ensures value { result ≡ lives_of word.now }
    ensures some { IfSome result (λ n. 1 ≤ n) }
    ensures within { IfSome result (λ n. n ≤ max_lives) }
{
    let lives = decimal(word.as_bytes(), MAX_LIVES)?;
    if lives >= 1 { Some(lives as u16) } else { None }
}

/// A number of 16 bits.
pub(crate) fn short(word: &[u8]) -> Option<u16>
    ensures { result ≡ number_of 65535 word.now }
{
    let value = number(word, 65_535)?;
    Some(value as u16)
}

/// A number of hertz.
pub(crate) fn clock(word: &str) -> Option<u32>
    ensures value { result ≡ clock_of word.now }
    ensures some { IfSome result (λ n. 1 ≤ n) }
{
    match number(word.as_bytes(), 4_294_967_295)? {
        0 => None,
        hertz => Some(hertz as u32),
    }
}

/// A number of bytes.
pub(crate) fn bytes(word: &str) -> Option<u16>
    ensures { result ≡ length_of word.now }
{
    short(word.as_bytes())
}

// Where the first `-` stands.
fn dash_of(word: &[u8]) -> Option<usize>
    ensures value { result ≡ position (λ c. c == 45) word.now }
    ensures within { IfSome result (λ at. at < length word.now) }
{
    word.iter().position(|c| *c == b'-')
}

/// The two numbers of a range `A-B`, each up to 65,535, in any order.
pub(crate) fn range(word: &str) -> Option<(u16, u16)>
    ensures { result ≡ range_of word.now }
{
    let word = word.as_bytes();
    let at = dash_of(word)?;
    let first = short(prefix(word, at))?;
    let last = short(after(word, at + 1))?;
    Some((first, last))
}

/// Whether a value has a form.
pub(crate) fn has_form(form: Form, value: &str) -> bool
    ensures { result ≡ has_form form value.now }
{
    match form {
        Form::States => states(value).is_some(),
        Form::Lives => lives(value).is_some(),
        Form::Length => bytes(value).is_some(),
        Form::Clock => clock(value).is_some(),
        Form::Span => range(value).is_some(),
        Form::Address => is_address(value),
        Form::File | Form::Input(_) => is_name(value),
        Form::Flag => value.is_empty(),
    }
}
