//! Which piece of a module a statement stands in.

ghost use Rattle.std.specs.Prelude.{◌≡◌, ◌≤◌, length};
ghost use Rattle.std.specs.List.{prefix_len};
ghost use Rattle.kc_obj_module.specs.Pieces as pieces;
ghost use Rattle.kc_asm_list.specs.RelocatableBytes as spec;

use crate::spot::Spot;
use kc_obj_module::pieces::number_of as kind_number;
use kc_obj_module::{SegKind, Segment};

fn is_relocatable(segment: Segment) -> bool
    ensures { result ≡ pieces.is_relocatable segment.at }
{
    segment.at.is_none()
}

fn is_of_kind(kind: SegKind, segment: Segment) -> bool
    ensures { result ≡ spec.is_of_kind kind segment }
{
    is_relocatable(segment) && kind_number(segment.kind) == kind_number(kind)
}

#[tactic(auto, unfolding(crate::specs::RelocatableBytes::number_of))]
fn number_of(kind: SegKind, segments: &[Segment]) -> usize
    ensures { result ≡ spec.number_of kind segments.now }
{
    let mut left = segments;
    let mut number = 0;
    while let [segment, rest @ ..] = left {
        if is_of_kind(kind, *segment) {
            return number;
        }
        number += 1;
        left = rest;
    }
    number
}

fn relocatable_count(segments: &[Segment]) -> usize
    ensures value { result ≡ prefix_len (λ s. pieces.is_relocatable s.at) segments.now }
    ensures within { result ≤ length segments.now }
{
    segments.iter().take_while(|s| is_relocatable(**s)).count()
}

/// The number of a statement's piece in a module.
pub(crate) fn piece_of(segments: &[Segment], spot: &Spot) -> usize
    ensures { result ≡ spec.piece_of segments.now spot.now }
{
    if spot.piece < 3 {
        number_of(spot.kind, segments)
    } else {
        relocatable_count(segments) + (spot.piece - 3) as usize
    }
}
