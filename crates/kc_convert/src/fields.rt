// The fields of a line of an analogue file.
ghost use Rattle.std.specs.Prelude.{◌≡◌};
ghost use Rattle.kc_convert.specs.Fields.{channel_of, value_of};

use kc_base::decimal;

/// The greatest value.
const VALUE_LIMIT: u64 = 1023;

/// A channel, one digit.
pub(crate) fn channel(text: &[u8]) -> Option<u8>
    ensures { result ≡ channel_of text.now }
{
    match text {
        [digit] if (b'0'..=b'7').contains(digit) => Some(*digit - b'0'),
        _ => None,
    }
}

/// A value of ten bits.
pub(crate) fn value(text: &[u8]) -> Option<u16>
    ensures { result ≡ value_of text.now }
{
    match decimal(VALUE_LIMIT, text) {
        Some(value) => Some(value as u16),
        None => None,
    }
}
