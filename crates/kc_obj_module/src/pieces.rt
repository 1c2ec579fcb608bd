ghost use Rattle.std.specs.Prelude.{◌≡◌, ◌<◌, ◌≤◌, ◌+◌, length};
ghost use Rattle.std.specs.List.{list_any};
ghost use Rattle.std.specs.Option.{option_copied};
ghost use Rattle.kc_obj_module.specs.Pieces.{kind_number, is_register_kind, lies_in, in_region, is_placed, segment_follows, segments_in_order, is_piece, targets_piece, is_named, is_empty, is_kept, all_kept, has_code};

use crate::parts::{Fixup, Given, SegKind, Segment, Target};
use kc_base::{HOLE_START, IMAGE_START, REGISTER_FILE_END, ROM_END};

/// The number that a kind has in an object.
pub fn number_of(kind: SegKind) -> u8
    ensures { result ≡ kind_number kind }
{
    match kind {
        SegKind::Reg => 0,
        SegKind::Code => 1,
        SegKind::Ram => 2,
        SegKind::Stack => 3,
    }
}

/// Whether pieces of this kind are of registers.
pub fn is_register(kind: SegKind) -> bool
    ensures { result ≡ is_register_kind kind }
{
    match kind {
        SegKind::Reg => true,
        SegKind::Code | SegKind::Ram | SegKind::Stack => false,
    }
}

fn lies(low: u16, high: u16, base: u16, len: u16) -> bool
    ensures { result ≡ lies_in low high base len }
{
    low <= base && base <= high && u32::from(base) + u32::from(len) <= u32::from(high) + 1
}

/// Whether an absolute piece of this kind may stand there.
pub fn fits_region(kind: SegKind, base: u16, len: u16) -> bool
    ensures { result ≡ in_region kind base len }
{
    match kind {
        SegKind::Reg => lies(0, REGISTER_FILE_END - 1, base, len),
        SegKind::Code => lies(IMAGE_START, 0xFFFF, base, len),
        SegKind::Ram => {
            lies(REGISTER_FILE_END, HOLE_START - 1, base, len) || lies(ROM_END, 0xFFFF, base, len)
        },
        SegKind::Stack => false,
    }
}

pub(crate) fn placed(segment: &Segment) -> bool
    ensures { result ≡ is_placed segment.now }
{
    match segment.at {
        None => true,
        Some(base) => fits_region(segment.kind, base, segment.length),
    }
}

fn follows(first: &Segment, next: &Segment) -> bool
    ensures { result ≡ segment_follows first.now next.now }
{
    match (first.at, next.at) {
        (None, None) => number_of(first.kind) < number_of(next.kind),
        (None, Some(_)) => true,
        (Some(_), None) => false,
        (Some(_), Some(_)) => true,
    }
}

// Whether relocatable pieces stand first, by rising kind.
#[tactic(auto, unfolding(crate::specs::Pieces::segments_in_order))]
pub(crate) fn are_in_order(segments: &[Segment]) -> bool
    ensures { result ≡ segments_in_order segments.now }
{
    let mut left = segments;
    while let [first, rest @ ..] = left {
        if let [next, ..] = rest {
            if !follows(first, next) {
                return false;
            }
        }
        left = rest;
    }
    true
}

fn gives_piece(piece: Option<u16>, index: usize) -> bool
    ensures { result ≡ is_piece piece index }
{
    match piece {
        None => false,
        Some(piece) => piece as usize == index,
    }
}

fn has_target(target: Target, index: usize) -> bool
    ensures { result ≡ targets_piece target index }
{
    match target {
        Target::Piece(piece) => piece as usize == index,
        Target::External(_) | Target::Number => false,
    }
}

fn given_in(publics: &[Given], index: usize) -> bool
    ensures { result ≡ list_any (λ g. is_piece g.piece index) publics.now }
{
    publics.iter().any(|g| gives_piece(g.piece, index))
}

fn targeted(fixups: &[Fixup], index: usize) -> bool
    ensures { result ≡ list_any (λ f. targets_piece f.target index) fixups.now }
{
    fixups.iter().any(|f| has_target(f.target, index))
}

fn named(publics: &[Given], fixups: &[Fixup], index: usize) -> bool
    ensures { result ≡ is_named publics.now fixups.now index }
{
    given_in(publics, index) || targeted(fixups, index)
}

fn empty(segment: &Segment) -> bool
    ensures { result ≡ is_empty segment.now }
{
    segment.at.is_none() && segment.length == 0
}

fn kept(publics: &[Given], fixups: &[Fixup], index: usize, segment: &Segment) -> bool
    ensures { result ≡ is_kept publics.now fixups.now index segment.now }
{
    !empty(segment) || number_of(segment.kind) != 3 && named(publics, fixups, index)
}

/// Whether each empty relocatable piece is named by a public or a target.
#[tactic(auto, unfolding(crate::specs::Pieces::all_kept))]
pub fn are_kept(publics: &[Given], fixups: &[Fixup], segments: &[Segment]) -> bool
    ensures { result ≡ all_kept publics.now fixups.now 0 segments.now }
{
    let mut left = segments;
    let mut index = 0usize;
    while let [first, rest @ ..] = left {
        if !kept(publics, fixups, index, first) {
            return false;
        }
        left = rest;
        index += 1;
    }
    true
}

/// Whether a piece is one of code, and at least so long.
pub fn is_code(segment: Option<Segment>, end: usize) -> bool
    ensures { result ≡ has_code segment end }
{
    match segment {
        None => false,
        Some(piece) => number_of(piece.kind) == 1 && end <= piece.length as usize,
    }
}

/// Whether a piece that is lent is one of code, and at least so long.
pub fn is_code_to(segment: Option<&Segment>, end: usize) -> bool
    ensures { result ≡ has_code (option_copied segment.entry) end }
{
    match segment {
        None => false,
        Some(piece) => number_of(piece.kind) == 1 && end <= piece.length as usize,
    }
}
