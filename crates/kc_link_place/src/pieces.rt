ghost use Rattle.std.specs.Prelude.{◌≡◌, ◌≤◌, ◌++◌, OnOk, IfOk, length};
ghost use Rattle.kc_link_place.specs.Stands as stands;
ghost use Rattle.kc_link_place.specs.Stands.{piece_of, fixed_in, fixed_from, wanted_in, wanted_from, wanted};

use kc_base::NoMemory;
use kc_obj_module::{Module, SegKind, Segment};
use std::alloc::Global;

/// A piece of a module: the numbers of both, its kind, and its length in bytes.
#[derive(Clone, Copy, PartialEq, Eq)]
pub struct Piece {
    pub index: u16,
    pub number: usize,
    pub kind: SegKind,
    pub size: u16,
}

/// A piece that stands at an address.
#[derive(Clone, Copy)]
pub struct Stand {
    pub piece: Piece,
    pub at: u16,
}

fn make_piece(index: u16, number: usize, segment: Segment) -> Piece
    ensures { result ≡ piece_of index number segment }
{
    Piece {
        index,
        number,
        kind: segment.kind,
        size: segment.length,
    }
}

pub(crate) fn is_kind(kind: SegKind, other: SegKind) -> bool
    ensures { result ≡ stands.same_kind kind other }
{
    kind == other
}

// Adds the absolute pieces of a module.
#[tactic(auto, unfolding(crate::specs::Stands::fixed_in))]
fn add_fixed(index: u16, segments: &[Segment], stands: &mut Vec<Stand>) -> Result<(), NoMemory>
    ensures { OnOk result (stands.new.items ≡ stands.old.items ++ fixed_in index 0 segments.now) }
{
    let mut left = segments;
    let mut number = 0;
    while let [segment, rest @ ..] = left {
        if let Some(at) = segment.at {
            stands.push(Stand {
                piece: make_piece(index, number, *segment),
                at,
            })?;
        }
        number += 1;
        left = rest;
    }
    Ok(())
}

/// The absolute pieces of all modules.
#[tactic(auto, unfolding(crate::specs::Stands::fixed_from))]
pub(crate) fn fixed_pieces(alloc: Global, modules: &[Module]) -> Result<Vec<Stand>, NoMemory>
    requires { length modules.now ≤ 64 }
    ensures { IfOk result (λ all. all.items ≡ fixed_from 0 modules.now) }
{
    let mut stands = Vec::new(alloc);
    let mut left = modules;
    let mut index = 0;
    while let [module, rest @ ..] = left {
        add_fixed(index, module.segments(), &mut stands)?;
        index += 1;
        left = rest;
    }
    Ok(stands)
}

// Adds the relocatable pieces of a kind of a module.
#[tactic(auto, unfolding(crate::specs::Stands::wanted_in))]
fn add_wanted(
    kind: SegKind,
    index: u16,
    segments: &[Segment],
    pieces: &mut Vec<Piece>,
) -> Result<(), NoMemory>
    ensures { OnOk result (pieces.new.items ≡ pieces.old.items ++ wanted_in kind index 0 segments.now) }
{
    let mut left = segments;
    let mut number = 0;
    while let [segment, rest @ ..] = left {
        if segment.at.is_none() && is_kind(kind, segment.kind) {
            pieces.push(make_piece(index, number, *segment))?;
        }
        number += 1;
        left = rest;
    }
    Ok(())
}

// Adds the relocatable pieces of a kind of all modules.
#[tactic(auto, unfolding(crate::specs::Stands::wanted_from))]
fn add_kind(kind: SegKind, modules: &[Module], pieces: &mut Vec<Piece>) -> Result<(), NoMemory>
    requires { length modules.now ≤ 64 }
    ensures { OnOk result (pieces.new.items ≡ pieces.old.items ++ wanted_from kind 0 modules.now) }
{
    let mut left = modules;
    let mut index = 0;
    while let [module, rest @ ..] = left {
        add_wanted(kind, index, module.segments(), pieces)?;
        index += 1;
        left = rest;
    }
    Ok(())
}

/// The relocatable pieces of all modules, in the order in which they are placed: registers, code, data.
pub(crate) fn wanted_pieces(alloc: Global, modules: &[Module]) -> Result<Vec<Piece>, NoMemory>
    requires { length modules.now ≤ 64 }
    ensures { IfOk result (λ all. all.items ≡ wanted modules.now) }
{
    let mut pieces = Vec::new(alloc);
    add_kind(SegKind::Reg, modules, &mut pieces)?;
    add_kind(SegKind::Code, modules, &mut pieces)?;
    add_kind(SegKind::Ram, modules, &mut pieces)?;
    Ok(pieces)
}
