// The lines of modules: their pieces and their public names.
ghost use Rattle.std.specs.Prelude.{◌≡◌, ◌++◌, OnOk};
ghost use Rattle.kc_link.specs.Map as spec;

use crate::fields::kind_word;
use kc_base::{NoMemory, Text, put_address, put_number};
use kc_link_place::Placed;
use kc_obj_module::{Given, Module, SegKind, Segment};

fn put_piece(
    text: &mut Vec<u8>,
    name: &Text,
    kind: SegKind,
    at: u16,
    length: u16,
) -> Result<(), NoMemory>
    ensures { OnOk result (text.new.items ≡ text.old.items ++ spec.piece_line name.now kind at length) }
{
    text.extend_from_slice(b"piece ")?;
    text.extend_from_slice(kind_word(kind))?;
    text.push(b' ')?;
    put_address(text, at)?;
    text.push(b' ')?;
    put_number(text, u128::from(length))?;
    text.push(b' ')?;
    text.extend_from_slice(name.as_slice())?;
    text.push(b'\n')?;
    Ok(())
}

#[tactic(auto, unfolding(crate::specs::Map::piece_lines))]
fn put_pieces(
    text: &mut Vec<u8>,
    placed: &Placed,
    index: usize,
    name: &Text,
    segments: &[Segment],
) -> Result<(), NoMemory>
    ensures { OnOk result (text.new.items ≡ text.old.items ++ spec.piece_lines placed.now index name.now 0 segments.now) }
{
    let mut left = segments;
    let mut number = 0;
    while let [segment, rest @ ..] = left {
        put_piece(
            text,
            name,
            segment.kind,
            placed.piece(index, number),
            segment.length,
        )?;
        number += 1;
        left = rest;
    }
    Ok(())
}

fn put_public(
    text: &mut Vec<u8>,
    placed: &Placed,
    index: usize,
    name: &Text,
    given: &Given,
) -> Result<(), NoMemory>
    ensures { OnOk result (text.new.items ≡ text.old.items ++ spec.public_line placed.now index name.now given.now) }
{
    text.extend_from_slice(match given.piece {
        Some(_) => b"public ",
        None => b"number ",
    })?;
    put_address(text, placed.value(index, given))?;
    text.push(b' ')?;
    text.extend_from_slice(given.name.as_slice())?;
    text.push(b' ')?;
    text.extend_from_slice(name.as_slice())?;
    text.push(b'\n')?;
    Ok(())
}

#[tactic(auto, unfolding(crate::specs::Map::public_lines))]
fn put_publics(
    text: &mut Vec<u8>,
    placed: &Placed,
    index: usize,
    name: &Text,
    publics: &[Given],
) -> Result<(), NoMemory>
    ensures { OnOk result (text.new.items ≡ text.old.items ++ spec.public_lines placed.now index name.now publics.now) }
{
    let mut left = publics;
    while let [given, rest @ ..] = left {
        put_public(text, placed, index, name, given)?;
        left = rest;
    }
    Ok(())
}

/// Puts the lines of the pieces of modules behind a text.
#[tactic(auto, unfolding(crate::specs::Map::all_piece_lines))]
pub(crate) fn put_all_pieces(
    text: &mut Vec<u8>,
    placed: &Placed,
    modules: &[Module],
) -> Result<(), NoMemory>
    ensures { OnOk result (text.new.items ≡ text.old.items ++ spec.all_piece_lines placed.now 0 modules.now) }
{
    let mut left = modules;
    let mut index = 0;
    while let [module, rest @ ..] = left {
        put_pieces(text, placed, index, module.name(), module.segments())?;
        index += 1;
        left = rest;
    }
    Ok(())
}

/// Puts the lines of the public names of modules behind a text.
#[tactic(auto, unfolding(crate::specs::Map::all_public_lines))]
pub(crate) fn put_all_publics(
    text: &mut Vec<u8>,
    placed: &Placed,
    modules: &[Module],
) -> Result<(), NoMemory>
    ensures { OnOk result (text.new.items ≡ text.old.items ++ spec.all_public_lines placed.now 0 modules.now) }
{
    let mut left = modules;
    let mut index = 0;
    while let [module, rest @ ..] = left {
        put_publics(text, placed, index, module.name(), module.publics())?;
        index += 1;
        left = rest;
    }
    Ok(())
}
