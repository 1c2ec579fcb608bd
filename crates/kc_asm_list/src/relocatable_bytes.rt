//! The bytes of a module where a statement stands.

ghost use Rattle.std.specs.Prelude.{◌≡◌, ◌++◌, ◌+◌, ◌-◌, ◌≤◌, ◌==◌, ◌&&◌, ◌||◌, nat_lt, nat_le, true, OnOk};
ghost use Rattle.std.specs.List.{list_any};
ghost use Rattle.kc_base.specs.Digits.{hex};
ghost use Rattle.kc_obj_module.specs.Contents as stands;
ghost use Rattle.kc_obj_module.specs.Fixups as relocations;
ghost use Rattle.kc_obj_module.specs.Numbers as numbers;
ghost use Rattle.kc_asm_list.specs.RelocatableBytes as spec;

use crate::pieces::piece_of;
use crate::spot::Spot;
use kc_base::{NoMemory, byte_text};
use kc_obj_module::{Content, Fixup, Module, width};

fn end_of(content: &Content) -> usize
    ensures { result ≡ stands.content_end content.now }
{
    usize::from(content.offset) + content.bytes.as_slice().len()
}

// Whether the whole run stands before an offset of a piece.
fn is_over(content: &Content, piece: usize, offset: usize) -> bool
    ensures { result ≡ stands.is_over content.now piece offset }
{
    let own = usize::from(content.piece);
    own < piece || own == piece && end_of(content) <= offset
}

// The byte that a run has at an offset of a piece.
fn byte_of(content: &Content, piece: usize, offset: usize) -> Option<u8>
    ensures { result ≡ stands.byte_of content.now piece offset }
{
    let first = usize::from(content.offset);
    if usize::from(content.piece) == piece && first <= offset && offset < end_of(content) {
        content.bytes.as_slice().get(offset - first).copied()
    } else {
        None
    }
}

// The byte at an offset of a piece, if one stands there. Runs stand by rising place.
fn content_at(contents: &[Content], piece: usize, offset: usize) -> Option<u8>
    requires { stands.contents_in_order contents.now ≡ true }
    ensures { result ≡ stands.content_at contents.now piece offset }
{
    let at = contents.partition_point(|c| is_over(c, piece, offset));
    match contents.get(at) {
        None => None,
        Some(content) => byte_of(content, piece, offset),
    }
}

fn offset_of(spot: &Spot, place: u64) -> usize
    ensures { result ≡ spec.offset_of spot.now place }
{
    place.saturating_sub(u64::from(spot.at.unwrap_or(0))) as usize
}

// The byte at a place of a statement's piece, if one stands there.
fn byte_at(object: &Module, spot: &Spot, place: u64) -> Option<u8>
    ensures { result ≡ spec.byte_at object.now spot.now place }
{
    object.keeps_rules();
    let piece = piece_of(object.segments(), spot);
    content_at(object.contents(), piece, offset_of(spot, place))
}

fn end_of_fixup(fixup: Fixup) -> usize
    ensures { result ≡ fixup.offset + numbers.width fixup.kind }
{
    usize::from(fixup.offset) + usize::from(width(fixup.kind))
}

// Whether all bytes of a relocation stand before an offset of a piece.
fn is_past(piece: usize, offset: usize, fixup: Fixup) -> bool
    ensures { result ≡ (nat_lt fixup.piece piece || ((fixup.piece == piece) && nat_le (fixup.offset + numbers.width fixup.kind) offset)) }
{
    let own = usize::from(fixup.piece);
    own < piece || own == piece && end_of_fixup(fixup) <= offset
}

fn fills(piece: usize, offset: usize, fixup: Fixup) -> bool
    ensures { result ≡ relocations.fills piece offset fixup }
{
    let first = usize::from(fixup.offset);
    usize::from(fixup.piece) == piece && first <= offset && offset < end_of_fixup(fixup)
}

// Whether one of the relocations fills in the byte at an offset of a piece. They stand by rising place.
fn fill(fixups: &[Fixup], piece: usize, offset: usize) -> bool
    requires { relocations.fixups_in_order fixups.now ≡ true }
    ensures { result ≡ list_any (relocations.fills piece offset) fixups.now }
{
    let at = fixups.partition_point(|f| is_past(piece, offset, *f));
    match fixups.get(at) {
        None => false,
        Some(fixup) => fills(piece, offset, *fixup),
    }
}

fn is_filled(object: &Module, spot: &Spot, place: u64) -> bool
    ensures { result ≡ spec.is_filled object.now spot.now place }
{
    object.keeps_rules();
    let piece = piece_of(object.segments(), spot);
    fill(object.fixups(), piece, offset_of(spot, place))
}

fn put_byte(text: &mut Vec<u8>, filled: bool, byte: u8) -> Result<(), NoMemory>
    ensures { OnOk result (text.new.items ≡ text.old.items ++ spec.byte_text filled byte) }
{
    text.push(if filled { b'*' } else { b' ' })?;
    text.extend_from_slice(byte_text(byte).as_slice())?;
    Ok(())
}

/// Puts the byte at a place of a statement's piece behind a text, if one stands there.
pub(crate) fn put_relocatable(
    text: &mut Vec<u8>,
    object: &Module,
    spot: &Spot,
    place: u64,
) -> Result<(), NoMemory>
    ensures { OnOk result (text.new.items ≡ text.old.items ++ spec.relocatable_text object.now spot.now place) }
{
    match byte_at(object, spot, place) {
        None => Ok(()),
        Some(byte) => put_byte(text, is_filled(object, spot, place), byte),
    }
}

/// How many bytes stand from a place up to another one: all or none.
pub(crate) fn reported(object: &Module, spot: &Spot, from: u64, to: u64) -> u64
    ensures value { result ≡ spec.reported object.now spot.now from to }
    ensures within { result ≤ to - from }
{
    match byte_at(object, spot, from) {
        Some(_) => to.saturating_sub(from),
        None => 0,
    }
}
