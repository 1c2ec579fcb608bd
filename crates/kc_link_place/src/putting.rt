ghost use Rattle.std.specs.Prelude.{◌≡◌, ◌+◌, ◌<◌, ◌≤◌, ℕ, List};
ghost use Rattle.kc_link_place.specs.Ranges.{range_of};
ghost use Rattle.kc_link_place.specs.Gaps.{Represents};
ghost use Rattle.kc_link_place.specs.Placing.{IsPut, ArePut};
ghost use Rattle.kc_link_place.specs.declared.pieces.Stand as the;

use crate::gaps::{Gap, cut, find};
use crate::pieces::{Piece, Stand};
use crate::ranges::Ranges;
use kc_base::NoMemory;
use kc_obj_module::SegKind;
use std::alloc::Global;

/// Why a piece has no place.
#[derive(Clone, Copy)]
pub(crate) enum NoPlace {
    NoRoom(Piece),
    NoMemoryLeft,
}

impl From<NoMemory> for NoPlace {
    ghost use Rattle.std.specs.Prelude.{◌≡◌};
    ghost use Rattle.kc_link_place.specs.declared.putting.NoPlace.TheVariants as causes;

    ghost from_gives = { λ _ cause. cause ≡ causes.NoMemoryLeft };

    fn from(_: NoMemory) -> NoPlace {
        NoPlace::NoMemoryLeft
    }
}

/// The range of a kind: the stack stands in that of data.
pub(crate) fn range_for(ranges: &Ranges, kind: SegKind) -> (u16, u16)
    ensures { result ≡ range_of ranges.now kind }
{
    match kind {
        SegKind::Reg => ranges.reg,
        SegKind::Code => ranges.code,
        _ => ranges.ram,
    }
}

// Puts a piece where it first fits, and takes its addresses out of the gaps.
fn put(ranges: &Ranges, gaps: &mut Vec<Gap>, piece: Piece) -> Result<Stand, NoPlace>
    ensures { (taken : List the.Stand) → Represents gaps.old.items taken → IsPut ranges.now taken piece gaps.new.items result }
{
    let range = range_for(ranges, piece.kind);
    match find(gaps, piece.kind, range, piece.size as u32) {
        None => Err(NoPlace::NoRoom(piece)),
        Some(at) => {
            if 0 < piece.size {
                cut(gaps, at, piece.size)?;
            }
            Ok(Stand { piece, at })
        }
    }
}

/// Puts all these pieces in order, each where it first fits.
#[tactic(auto, unfolding(crate::specs::Placing::put_all))]
pub(crate) fn put_all(
    alloc: Global,
    ranges: &Ranges,
    gaps: &mut Vec<Gap>,
    pieces: &[Piece],
) -> Result<Vec<Stand>, NoPlace>
    ensures { (fixed : List the.Stand) → Represents gaps.old.items fixed → ArePut ranges.now fixed pieces.now gaps.new.items result }
{
    let mut puts = Vec::new(alloc);
    let mut left = pieces;
    while let [piece, rest @ ..] = left {
        let stand = match put(ranges, gaps, *piece) {
            Ok(stand) => stand,
            Err(cause) => return Err(cause),
        };
        if puts.push(stand).is_err() {
            return Err(NoPlace::NoMemoryLeft);
        }
        left = rest;
    }
    Ok(puts)
}
