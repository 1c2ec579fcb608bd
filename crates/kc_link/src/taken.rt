// The addresses that pieces have.
ghost use Rattle.std.specs.Prelude.{◌≡◌, ◌<◌, ℕ, ◌||◌, false, get_or, length, IfOk};
ghost use Rattle.kc_link.specs.Free as spec;

use kc_base::NoMemory;
use kc_link_place::Placed;
use kc_obj_module::{Module, SegKind, Segment};
use std::alloc::Global;

/// How many addresses there are.
const ADDRESSES: usize = 65_536;

/// Whether a piece has the address.
pub(crate) fn is_taken(taken: &[bool], address: u32) -> bool
    ensures { result ≡ get_or taken.now address false }
{
    taken.get(address as usize).copied().unwrap_or(false)
}

// Marks so many addresses from one on, as far as there are such.
#[tactic(auto, using(crate::proofs::Marking::one_marked, crate::proofs::Marking::all_marked))]
fn mark(taken: &mut [bool], first: u16, count: u16)
    requires { length taken.old ≡ 65536 }
    ensures size { length taken.new ≡ 65536 }
    ensures marks { (a : ℕ) → a < 65536 → get_or taken.new a false ≡ (get_or taken.old a false || spec.covers first count a) }
{
    let from = usize::from(first);
    let end = (from + usize::from(count)).min(ADDRESSES);
    let mut at = from;
    while at < end {
        taken[at] = true;
        at += 1;
    }
}

// Marks the addresses of a piece. A stack piece has no address of its own.
fn mark_piece(taken: &mut [bool], segment: Segment, first: u16)
    requires { length taken.old ≡ 65536 }
    ensures size { length taken.new ≡ 65536 }
    ensures marks { (a : ℕ) → a < 65536 → get_or taken.new a false ≡ (get_or taken.old a false || spec.piece_covers segment first a) }
{
    if segment.kind != SegKind::Stack {
        mark(taken, first, segment.length);
    }
}

#[tactic(auto, unfolding(crate::specs::Free::pieces_cover))]
fn mark_pieces(taken: &mut [bool], placed: &Placed, index: usize, segments: &[Segment])
    requires { length taken.old ≡ 65536 }
    ensures size { length taken.new ≡ 65536 }
    ensures marks { (a : ℕ) → a < 65536 → get_or taken.new a false ≡ (get_or taken.old a false || spec.pieces_cover placed.now index 0 segments.now a) }
{
    let mut left = segments;
    let mut number = 0;
    while let [segment, rest @ ..] = left {
        mark_piece(taken, *segment, placed.piece(index, number));
        number += 1;
        left = rest;
    }
}

#[tactic(auto, unfolding(crate::specs::Free::modules_cover))]
fn mark_modules(taken: &mut [bool], placed: &Placed, modules: &[Module])
    requires { length taken.old ≡ 65536 }
    ensures size { length taken.new ≡ 65536 }
    ensures marks { (a : ℕ) → a < 65536 → get_or taken.new a false ≡ (get_or taken.old a false || spec.modules_cover placed.now 0 modules.now a) }
{
    let mut left = modules;
    let mut index = 0;
    while let [module, rest @ ..] = left {
        mark_pieces(taken, placed, index, module.segments());
        index += 1;
        left = rest;
    }
}

/// For each address whether a piece of the modules has it. A stack piece has none.
pub(crate) fn taken_by(
    alloc: Global,
    placed: &Placed,
    modules: &[Module],
) -> Result<Vec<bool>, NoMemory>
    ensures { IfOk result (λ taken. (a : ℕ) → a < 65536 → get_or taken.items a false ≡ spec.modules_cover placed.now 0 modules.now a) }
{
    let mut taken = vec![in alloc; false; ADDRESSES]?;
    mark_modules(&mut taken, placed, modules);
    Ok(taken)
}
