ghost use Rattle.std.specs.Prelude.{◌≡◌};
ghost use Rattle.std.specs.Option.{option_copied};
ghost use Rattle.kc_macro_body.specs.Calls as calls;

use crate::macros::{Macro, Macros};
use kc_lex::Token;
use kc_lex::kinds::{begins_word, is_name};

fn is_defining(tokens: &[Token]) -> bool
    ensures { result ≡ calls.is_defining tokens.now }
{
    begins_word(tokens, b"EQU")
        || begins_word(tokens, b"SET")
        || begins_word(tokens, b"MODULE")
        || begins_word(tokens, b"MACRO")
}

/// The macro that a line without label calls: that of its first name, if none of EQU, SET, MODULE and MACRO follows.
pub fn called<'a>(macros: &'a Macros, tokens: &[Token]) -> Option<&'a Macro>
    ensures { option_copied result ≡ calls.called macros.now tokens.now }
{
    match tokens {
        [] => None,
        [name, rest @ ..] => {
            if is_name(name) && !is_defining(rest) {
                macros.look(name.text.as_slice())
            } else {
                None
            }
        }
    }
}
