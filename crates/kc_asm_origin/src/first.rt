//! The first lines of a number in a text.

ghost use Rattle.std.specs.Prelude.{◌≡◌, length, IfOk};
ghost use Rattle.kc_asm_origin.specs.First as spec;

use kc_base::NoMemory;
use kc_lex::Line;
use kc_macro_body::copying::copy_tokens;
use std::alloc::Global;

fn placed(alloc: Global, stays: bool, line: &Line) -> Result<Line, NoMemory>
    ensures { IfOk result (λ l. l ≡ spec.placed stays line.now) }
{
    Ok(Line {
        number: if stays { line.number } else { u32::MAX },
        tokens: copy_tokens(alloc, line.tokens.as_slice())?,
    })
}

/// The text of whose lines of this number only the first k keep it.
#[tactic(auto, unfolding(crate::specs::First::with_first))]
pub(crate) fn with_first(
    alloc: Global,
    number: u32,
    k: usize,
    text: &[Line],
) -> Result<Vec<Line>, NoMemory>
    ensures value { IfOk result (λ v. v.items ≡ spec.with_first number k text.now) }
    ensures each { IfOk result (λ v. length v.items ≡ length text.now) }
{
    let mut copy = Vec::new(alloc);
    let mut keep = k;
    let mut left = text;
    while let [line, rest @ ..] = left {
        if line.number == number {
            copy.push(placed(alloc, keep > 0, line)?)?;
            keep = keep.saturating_sub(1);
        } else {
            copy.push(placed(alloc, true, line)?)?;
        }
        left = rest;
    }
    Ok(copy)
}
