ghost use Rattle.std.specs.Prelude.{◌≡◌};
ghost use Rattle.std.specs.List.{list_all};
ghost use Rattle.kc_obj_module.specs.LineEntries.{line_is_sound, line_follows, lines_in_order, lines_are_sound};

use crate::parts::{Lines, Segment};
use crate::pieces::is_code_to;

fn line_sound(segments: &[Segment], entry: Lines) -> bool
    ensures { result ≡ line_is_sound segments.now entry }
{
    is_code_to(
        segments.get(entry.piece as usize),
        entry.offset as usize + 1,
    ) && 0 < entry.line
}

/// Whether a line entry stands after another one.
pub fn follows(first: Lines, next: Lines) -> bool
    ensures { result ≡ line_follows first next }
{
    first.piece < next.piece || first.piece == next.piece && first.offset < next.offset
}

// Whether line entries stand by rising place.
#[tactic(auto, unfolding(crate::specs::LineEntries::lines_in_order))]
fn are_in_order(lines: &[Lines]) -> bool
    ensures { result ≡ lines_in_order lines.now }
{
    let mut left = lines;
    while let [first, rest @ ..] = left {
        if let [next, ..] = rest {
            if !follows(*first, *next) {
                return false;
            }
        }
        left = rest;
    }
    true
}

fn each_sound(segments: &[Segment], lines: &[Lines]) -> bool
    ensures { result ≡ list_all (line_is_sound segments.now) lines.now }
{
    lines.iter().all(|l| line_sound(segments, *l))
}

pub(crate) fn lines_sound(segments: &[Segment], lines: &[Lines]) -> bool
    ensures { result ≡ lines_are_sound segments.now (Some lines.now) }
{
    each_sound(segments, lines) && are_in_order(lines)
}
