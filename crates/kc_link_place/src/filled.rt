ghost use Rattle.std.specs.Prelude.{◌≡◌, ◌<◌, true};
ghost use Rattle.std.specs.Option.{option_copied};
ghost use Rattle.kc_obj_module.specs.Contents.{content_at};
ghost use Rattle.kc_obj_module.specs.Fixups.{fixups_in_order, fixup_at};
ghost use Rattle.kc_link_place.specs.BaseLists.{bases_in};
ghost use Rattle.kc_link_place.specs.Filled.{first_of_fixup, second_of_fixup, second_at, filled_at, is_fit, unfit_in, if_there};

use crate::bases::Bases;
use crate::numbers::fixup_number as number_of;
use kc_obj_module::{Fixup, Module, first_part, fits, second_part, width};

fn fixup_fits(bases: &Bases, fixup: Fixup) -> bool
    ensures { result ≡ is_fit (bases_in bases.now) fixup }
{
    let place = bases.piece(fixup.piece) as u32 + fixup.offset as u32;
    fits(fixup.kind, number_of(bases, place, fixup))
}

#[tactic(auto, unfolding(crate::specs::Filled::unfit_in))]
fn unfit_among(bases: &Bases, fixups: &[Fixup]) -> Option<Fixup>
    ensures { result ≡ unfit_in (bases_in bases.now) fixups.now }
{
    let mut left = fixups;
    while let [fixup, rest @ ..] = left {
        if !fixup_fits(bases, *fixup) {
            return Some(*fixup);
        }
        left = rest;
    }
    None
}

/// The first relocation of a module whose number does not fit its bytes, if there is one.
pub fn first_unfit(object: &Module, bases: &Bases) -> Option<Fixup>
    ensures { result ≡ unfit_in (bases_in bases.now) object.now.fixups }
{
    unfit_among(bases, object.fixups())
}

// The relocation, where it begins at an offset of a piece.
fn if_it_begins(fixup: Option<&Fixup>, piece: u16, offset: u16) -> Option<Fixup>
    ensures { result ≡ if_there piece offset (option_copied fixup.entry) }
{
    match fixup {
        None => None,
        Some(f) => {
            if f.piece == piece && f.offset == offset {
                Some(*f)
            } else {
                None
            }
        }
    }
}

// The relocation that begins at an offset of a piece.
fn find(fixups: &[Fixup], piece: u16, offset: u16) -> Option<Fixup>
    requires { fixups_in_order fixups.now ≡ true }
    ensures { result ≡ fixup_at fixups.now piece offset }
{
    let at = fixups.partition_point(|f| f.piece < piece || f.piece == piece && f.offset < offset);
    if_it_begins(fixups.get(at), piece, offset)
}

// What the relocation whose first byte is at an address puts there.
fn first_of(bases: &Bases, place: u32, fixup: Option<Fixup>) -> u8
    requires { place < 131072 }
    ensures { result ≡ first_of_fixup (bases_in bases.now) place fixup }
{
    match fixup {
        None => 0,
        Some(f) => first_part(f.kind, number_of(bases, place, f)),
    }
}

// What the relocation whose first byte is at an address puts behind it.
fn second_of(bases: &Bases, place: u32, fixup: Option<Fixup>) -> u8
    requires { place < 131072 }
    ensures { result ≡ second_of_fixup (bases_in bases.now) place fixup }
{
    match fixup {
        Some(f) if width(f.kind) == 2 => second_part(f.kind, number_of(bases, place, f)),
        _ => 0,
    }
}

// What the relocation that begins one byte before an offset puts at it.
fn second_there(bases: &Bases, fixups: &[Fixup], piece: u16, offset: u16) -> u8
    requires { fixups_in_order fixups.now ≡ true }
    ensures { result ≡ second_at (bases_in bases.now) fixups.now piece offset }
{
    if offset == 0 {
        return 0;
    }
    let before = offset - 1;
    let place = bases.piece(piece) as u32 + before as u32;
    second_of(bases, place, find(fixups, piece, before))
}

/// The byte at an offset of a piece with what relocations put there, from the byte that the module has there.
pub fn filled_byte(object: &Module, bases: &Bases, piece: u16, offset: u16, byte: u8) -> u8
    requires fit { unfit_in (bases_in bases.now) object.now.fixups ≡ None }
    requires stands { content_at object.now.contents piece offset ≡ Some byte }
    ensures { Some result ≡ filled_at (bases_in bases.now) object.now piece offset }
{
    object.keeps_rules();
    let fixups = object.fixups();
    let place = bases.piece(piece) as u32 + offset as u32;
    let first = first_of(bases, place, find(fixups, piece, offset));
    let second = second_there(bases, fixups, piece, offset);
    byte + (first + second)
}
