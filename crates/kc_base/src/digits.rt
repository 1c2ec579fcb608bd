// Digits of numbers: read, and written.
ghost use Rattle.std.specs.Prelude.{◌≡◌, ◌<◌, ◌≤◌, ◌++◌, decimal, IfSome, OnOk};
ghost use Rattle.kc_base.specs.Digits as digits;
ghost use Rattle.kc_base.specs.Limits.{max_states};

use crate::types::NoMemory;
use itoa::Buffer;

/// The character of an upper-case hexadecimal digit.
pub fn hex_digit(digit: u8) -> u8
    requires { digit < 16 }
    ensures { result ≡ digits.hex_digit digit }
{
    if digit < 10 {
        b'0' + digit
    } else {
        b'A' + (digit - 10)
    }
}

/// A byte as two upper-case hexadecimal digits.
pub fn byte_text(byte: u8) -> [u8; 2]
    ensures { result ≡ digits.hex 2 byte }
{
    [hex_digit(byte / 16), hex_digit(byte % 16)]
}

/// An address as four upper-case hexadecimal digits.
pub fn address_text(address: u16) -> [u8; 4]
    ensures { result ≡ digits.hex 4 address }
{
    let second = address / 16;
    let third = second / 16;
    let fourth = third / 16;
    [
        hex_digit((fourth % 16) as u8),
        hex_digit((third % 16) as u8),
        hex_digit((second % 16) as u8),
        hex_digit((address % 16) as u8),
    ]
}

/// Puts an address as four upper-case hexadecimal digits behind a text.
pub fn put_address(text: &mut Vec<u8>, address: u16) -> Result<(), NoMemory>
    ensures { OnOk result (text.new.items ≡ text.old.items ++ digits.hex 4 address) }
{
    text.extend_from_slice(address_text(address).as_slice())?;
    Ok(())
}

/// Puts a number in decimal behind a text.
pub fn put_number(text: &mut Vec<u8>, number: u128) -> Result<(), NoMemory>
    ensures { OnOk result (text.new.items ≡ text.old.items ++ decimal number) }
{
    let mut buffer = Buffer::new();
    text.extend_from_slice(buffer.format(number).as_bytes())?;
    Ok(())
}

fn digit(c: u8) -> u64
    ensures { result ≡ digits.digit_of c }
{
    match c {
        b'0'..=b'9' => u64::from(c - b'0'),
        b'A'..=b'F' => u64::from(c - b'A') + 10,
        b'a'..=b'f' => u64::from(c - b'a') + 10,
        _ => 16,
    }
}

/// The number of a text that is digits of a base alone, letters in either case, up to a limit; 0 for a text of none.
/// `None` where a character is no such digit, and above the limit.
pub fn read_digits(base: u64, limit: u64, text: &[u8]) -> Option<u64>
    requires base { base ≤ 16 }
    requires some { 0 < base }
    requires limit { limit ≤ max_states }
    ensures value { result ≡ digits.up_to limit (digits.digits_from base 0 text.now) }
    ensures within { IfSome result (λ n. n ≤ limit) }
{
    let mut so_far = 0;
    for c in text {
        let digit = digit(*c);
        if digit >= base {
            return None;
        }
        so_far = so_far * base + digit;
        if so_far > limit {
            return None;
        }
    }
    Some(so_far)
}
