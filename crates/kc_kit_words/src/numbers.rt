ghost use Rattle.std.specs.Prelude.{◌≡◌, ◌≤◌, IfSome};
ghost use Rattle.kc_base.specs.Limits.{max_states};
ghost use Rattle.kc_kit_words.specs.Number.{digits_from, up_to, number_of};

use kc_base::read_digits;

/// The number that a text of decimal digits alone stands for, up to a limit; 0 for a text of none.
pub(crate) fn decimal(text: &[u8], limit: u64) -> Option<u64>
    requires { limit ≤ max_states }
    ensures value { result ≡ up_to limit (digits_from 10 0 text.now) }
    ensures within { IfSome result (λ n. n ≤ limit) }
{
    read_digits(10, limit, text)
}

/// The number that a text stands for, up to a limit.
pub fn number(text: &[u8], limit: u64) -> Option<u64>
    requires { limit ≤ max_states }
    ensures value { result ≡ number_of limit text.now }
    ensures within { IfSome result (λ n. n ≤ limit) }
{
    let (Some(first), Some(last)) = (text.first(), text.last()) else {
        return None;
    };
    if !first.is_ascii_digit() {
        return None;
    }
    if *last == b'H' {
        read_digits(16, limit, &text[..text.len() - 1])
    } else {
        read_digits(10, limit, text)
    }
}
