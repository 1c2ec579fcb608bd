// The fields of lines.
ghost use Rattle.std.specs.Prelude.{◌≡◌, ◌≤◌, IfSome};
ghost use Rattle.std.specs.Str.{str_eq_ignore_ascii_case};
ghost use Rattle.kc_base.specs.Limits.{max_states};
ghost use Rattle.kc_debug_script.specs.Fields.{number_of};

use kc_base::decimal;

/// A number: decimal digits, from 1 to a limit. `None` for any other text.
pub fn number(text: &[u8], limit: u64) -> Option<u64>
    requires { limit ≤ max_states }
    ensures value { result ≡ number_of limit text.now }
    ensures bounded { IfSome result (λ n. (1 ≤ n) × (n ≤ limit)) }
{
    match decimal(limit, text) {
        Some(value) if value > 0 => Some(value),
        _ => None,
    }
}

/// Whether two names have the same letters, each in either case.
pub fn is_named(name: &[u8], word: &[u8]) -> bool
    ensures { result ≡ str_eq_ignore_ascii_case name.now word.now }
{
    name.eq_ignore_ascii_case(word)
}
