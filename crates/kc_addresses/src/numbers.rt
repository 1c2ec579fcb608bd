// Numbers as authors of firmware write them.
ghost use Rattle.std.specs.Prelude.{◌≡◌, ◌≤◌, IfSome};
ghost use Rattle.kc_base.specs.Limits.{max_states};
ghost use Rattle.kc_addresses.specs.Numbers.{begins_with_digit as has_digit_first, value_of, hex_value_of, count_of};

use kc_base::{decimal, prefix, read_digits};
use kc_debug_script::number;
use kc_obj_module::names::digit;

/// Whether the first character of a text is a decimal digit.
pub fn begins_with_digit(text: &[u8]) -> bool
    ensures { result ≡ has_digit_first text.now }
{
    match text {
        [first, ..] => digit(*first),
        [] => false,
    }
}

/// A hexadecimal number of the assembler, as `0D00H`: a decimal digit first, and H behind the digits, letters in either case. `None`
/// for any other text, and above the limit.
pub fn hex_value(most: u64, text: &[u8]) -> Option<u64>
    requires { most ≤ max_states }
    ensures value { result ≡ hex_value_of most text.now }
    ensures bounded { IfSome result (λ n. n ≤ most) }
{
    match text {
        [.., b'h' | b'H'] if begins_with_digit(text) => {
            read_digits(16, most, prefix(text, text.len() - 1))
        }
        _ => None,
    }
}

/// A number of the assembler, in decimal digits or as `hex_value` reads it. `None` for any other text, and above the limit.
pub fn value(most: u64, text: &[u8]) -> Option<u64>
    requires { most ≤ max_states }
    ensures value { result ≡ value_of most text.now }
    ensures bounded { IfSome result (λ n. n ≤ most) }
{
    match decimal(most, text) {
        Some(number) => Some(number),
        None => hex_value(most, text),
    }
}

/// A number from 1 to a limit, in decimal digits without a 0 in front. `None` for any other text, and above the limit.
pub fn count(most: u64, text: &[u8]) -> Option<u64>
    requires { most ≤ max_states }
    ensures value { result ≡ count_of most text.now }
    ensures bounded { IfSome result (λ n. (1 ≤ n) × (n ≤ most)) }
{
    match text {
        [b'0', ..] => None,
        _ => number(text, most),
    }
}
