// What a line of an analogue file is.
ghost use Rattle.std.specs.Prelude.{◌≡◌};
ghost use Rattle.kc_convert.specs.Lines.{item_of, sample_line as sample_item};

use crate::fields::{channel, value};
use crate::sample::{Item, Sample};
use kc_base::{split_at_space, state_time};

// The rest of a line after its `@`.
fn sample_line(text: &[u8]) -> Item
    ensures { result ≡ sample_item text.now }
{
    let (first, rest) = split_at_space(text);
    let (second, third) = split_at_space(rest);
    match (state_time(first), channel(second), value(third)) {
        (Some(at), Some(channel), Some(value)) => Item::Sampled(Sample { at, channel, value }),
        _ => Item::Wrong,
    }
}

/// What a line is.
pub(crate) fn item(line: &[u8]) -> Item
    ensures { result ≡ item_of line.now }
{
    match line.split_first() {
        None => Item::Blank,
        Some((b';', _)) => Item::Blank,
        Some((b'@', rest)) => sample_line(rest),
        Some(_) => Item::Wrong,
    }
}
