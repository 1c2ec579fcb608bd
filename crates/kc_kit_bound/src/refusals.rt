// Why no bound is found, as it is printed.
ghost use Rattle.std.specs.Prelude.{◌≡◌, ◌++◌, IfOk, OnOk};
ghost use Rattle.kc_kit_bound.specs.Refusals as spec;

use kc_base::{NoMemory, put_address};
use kc_bound_find::{Refusal, Why};
use std::alloc::Global;

fn word_of(why: Why) -> &'static str
    ensures { result.now ≡ spec.word_of why }
{
    match why {
        Why::Block => "block",
        Why::Computed => "computed",
        Why::Early => "early",
        Why::Endless => "endless",
        Why::Outside => "outside",
        Why::Recursive => "recursive",
        Why::Unbounded => "unbounded",
    }
}

/// Puts the line of a word and an address behind a text.
pub(crate) fn put_refusal(text: &mut Vec<u8>, word: &str, at: u16) -> Result<(), NoMemory>
    ensures { OnOk result (text.new.items ≡ text.old.items ++ spec.refusal_line word.now at) }
{
    text.extend_from_slice(word.as_bytes())?;
    text.push(b' ')?;
    put_address(text, at)?;
    text.push(b'\n')?;
    Ok(())
}

/// The lines of refusals.
pub(crate) fn refusals_text(alloc: Global, refusals: &[Refusal]) -> Result<Vec<u8>, NoMemory>
    ensures { IfOk result (λ text. text.items ≡ spec.refusals_text refusals.now) }
{
    let mut text = Vec::new(alloc);
    let mut left = refusals;
    while let [refusal, rest @ ..] = left {
        put_refusal(&mut text, word_of(refusal.why), refusal.at)?;
        left = rest;
    }
    Ok(text)
}
