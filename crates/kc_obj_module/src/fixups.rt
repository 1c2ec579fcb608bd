ghost use Rattle.std.specs.Prelude.{◌≡◌, true};
ghost use Rattle.std.specs.List.{list_all};
ghost use Rattle.kc_obj_module.specs.Contents.{contents_in_order};
ghost use Rattle.kc_obj_module.specs.Numbers.{width};
ghost use Rattle.kc_obj_module.specs.Fixups.{target_exists, fixup_is_sound, fixup_follows, fixups_in_order, may_begin, is_zero, has_room};

use crate::contents::{byte_at, from_place};
use crate::parts::{Content, Fixup, Segment, Taken, Target};
use crate::relocation::{is_distance, width};

fn target_sound(segments: &[Segment], externals: &[Taken], kind: u8, target: Target) -> bool
    ensures { result ≡ target_exists segments.now externals.now kind target }
{
    match target {
        Target::Piece(piece) => (piece as usize) < segments.len(),
        Target::External(external) => (external as usize) < externals.len(),
        Target::Number => is_distance(kind),
    }
}

pub(crate) fn fixup_sound(segments: &[Segment], externals: &[Taken], fixup: Fixup) -> bool
    ensures { result ≡ fixup_is_sound segments.now externals.now fixup }
{
    (fixup.piece as usize) < segments.len()
        && fixup.kind <= 4
        && target_sound(segments, externals, fixup.kind, fixup.target)
}

fn follows(first: Fixup, next: Fixup) -> bool
    ensures { result ≡ fixup_follows first next }
{
    first.piece < next.piece
        || first.piece == next.piece
            && first.offset as usize + width(first.kind) as usize <= next.offset as usize
}

// Whether relocations stand by rising place, none over another.
#[tactic(auto, unfolding(crate::specs::Fixups::fixups_in_order))]
pub(crate) fn are_in_order(fixups: &[Fixup]) -> bool
    ensures { result ≡ fixups_in_order fixups.now }
{
    let mut left = fixups;
    while let [first, rest @ ..] = left {
        if let [next, ..] = rest {
            if !follows(*first, *next) {
                return false;
            }
        }
        left = rest;
    }
    true
}

/// Whether the first byte under a relocation of this kind is free for it.
pub fn begins_free(kind: u8, byte: Option<u8>) -> bool
    ensures { result ≡ may_begin kind byte }
{
    match byte {
        None => false,
        Some(byte) => {
            if kind == 3 {
                byte == 0x20 || byte == 0x28
            } else {
                byte == 0
            }
        }
    }
}

/// Whether a byte stands there and is 0.
pub fn zero(byte: Option<u8>) -> bool
    ensures { result ≡ is_zero byte }
{
    match byte {
        None => false,
        Some(byte) => byte == 0,
    }
}

fn room_at(contents: &[Content], fixup: Fixup) -> bool
    requires { contents_in_order contents.now ≡ true }
    ensures { result ≡ has_room contents.now fixup }
{
    let offset = fixup.offset as usize;
    begins_free(fixup.kind, byte_at(contents, fixup.piece, offset))
        && (width(fixup.kind) == 1 || zero(byte_at(contents, fixup.piece, offset + 1)))
}

// Whether the bytes under each relocation stand in contents and are free.
pub(crate) fn have_room(contents: &[Content], fixups: &[Fixup]) -> bool
    requires contents { contents_in_order contents.now ≡ true }
    requires fixups { fixups_in_order fixups.now ≡ true }
    ensures { result ≡ list_all (has_room contents.now) fixups.now }
{
    let mut ahead = contents;
    let mut i = 0;
    while i < fixups.len() {
        let fixup = fixups[i];
        ahead = from_place(ahead, fixup.piece, fixup.offset as usize);
        if !room_at(ahead, fixup) {
            return false;
        }
        i += 1;
    }
    true
}
