ghost use Rattle.std.specs.Prelude.{◌≡◌, IfOk};

use kc_base::{NoMemory, Text};
use kc_lex::{Token, Tokens};
use std::alloc::Global;

/// A copy of a token, with memory of its own.
pub fn copy_token(alloc: Global, token: &Token) -> Result<Token, NoMemory>
    ensures { IfOk result (λ t. t ≡ token.now) }
{
    Ok(Token {
        kind: token.kind,
        text: Text::of(alloc, token.text.as_slice())?,
        value: token.value,
    })
}

/// A copy of tokens, with memory of its own.
pub fn copy_tokens(alloc: Global, tokens: &[Token]) -> Result<Tokens, NoMemory>
    ensures { IfOk result (λ t. t ≡ tokens.now) }
{
    let mut copy = Tokens::new(alloc);
    for token in tokens {
        copy.push(copy_token(alloc, token)?)?;
    }
    Ok(copy)
}
