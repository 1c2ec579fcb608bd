ghost use Rattle.std.specs.Prelude.{◌≡◌, ◌<◌, ◌≤◌, ◌==◌, not, length, IfSome};
ghost use Rattle.std.specs.List.{before_first, after_first, take_while};
ghost use Rattle.kc_base.specs.Fields.{is_space, decimal_of, time_of, hex_of, word_of, byte_of, pin_of};
ghost use Rattle.kc_base.specs.Limits.{max_states};
ghost use Rattle.kc_base.specs.Pins.{IsPin};

use crate::digits::read_digits;
use crate::limits::MAX_STATES;
use crate::pins::PIN_COUNT;
use crate::text_lines::{after, prefix};
use crate::types::{Pin, StateTime};

/// A number in decimal digits, at most `most`; `None` for any other text. Zeros may stand in front.
pub fn decimal(most: u64, text: &[u8]) -> Option<u64>
    requires { most ≤ max_states }
    ensures value { result ≡ decimal_of most text.now }
    ensures bounded { IfSome result (λ n. n ≤ most) }
{
    match text {
        [] => None,
        digits => read_digits(10, most, digits),
    }
}

/// A state time: decimal digits, 10^15 at most; `None` for any other text.
pub fn state_time(text: &[u8]) -> Option<StateTime>
    ensures value { result ≡ time_of text.now }
    ensures bounded { IfSome result (λ n. n ≤ max_states) }
{
    decimal(MAX_STATES, text)
}

// How many characters stand before the first space.
fn first_len(text: &[u8]) -> usize
    ensures value { result ≡ length (take_while (λ c. not (c == 32)) text.now) }
    ensures within { result ≤ length text.now }
{
    text.iter().take_while(|c| **c != b' ').count()
}

/// What stands before the first space, and after it; the whole text and an empty one where there is no space.
pub fn split_at_space(text: &[u8]) -> (&[u8], &[u8])
    ensures before { result.0.now ≡ before_first is_space text.now }
    ensures after { result.1.now ≡ after_first is_space text.now }
{
    let len = first_len(text);
    if len < text.len() {
        (prefix(text, len), after(text, len + 1))
    } else {
        (text, after(text, len))
    }
}

// So many hex digits in either case, this number at most; `None` for any other text.
fn hex_number(count: usize, most: u64, text: &[u8]) -> Option<u64>
    requires { most ≤ max_states }
    ensures value { result ≡ hex_of count most text.now }
    ensures bounded { IfSome result (λ n. n ≤ most) }
{
    if text.len() == count {
        read_digits(16, most, text)
    } else {
        None
    }
}

/// A word: four hex digits in either case; `None` for any other text.
pub fn hex_word(text: &[u8]) -> Option<u16>
    ensures value { result ≡ word_of text.now }
    ensures bounded { IfSome result (λ n. n < 65536) }
{
    let word = hex_number(4, 0xFFFF, text)?;
    Some(word as u16)
}

/// A byte: two hex digits in either case; `None` for any other text.
pub fn hex_byte(text: &[u8]) -> Option<u8>
    ensures { result ≡ byte_of text.now }
{
    let byte = hex_number(2, 0xFF, text)?;
    Some(byte as u8)
}

/// The number of the pin of a name; `None` for any other text.
pub fn pin_number(text: &[u8]) -> Option<u8>
    ensures value { result ≡ pin_of text.now }
    ensures named { IfSome result IsPin }
{
    for number in 0..PIN_COUNT {
        if Pin(number).name().as_bytes() == text {
            return Some(number);
        }
    }
    None
}
