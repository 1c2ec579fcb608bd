//! Numbers that do not fit their bytes.

ghost use Rattle.std.specs.Prelude.{◌≡◌, ◌%◌};
ghost use Rattle.kc_source_statement.specs.Trees.{action_tree};
ghost use Rattle.kc_asm_encode.specs.Relocating.{is_piece, misfit as misfit_at};
ghost use Rattle.kc_asm_emit.specs.Faults.{least};
ghost use Rattle.kc_asm_emit.specs.Seen.{seen};
ghost use Rattle.kc_asm_check.specs.Codes as spec;

use crate::branches::checks_jumps;
use crate::codes::when;
use kc_asm_emit::Content;
use kc_asm_encode::{RelocatableByte, misfit};
use kc_asm_layout::Location;
use kc_asm_symbols::Segment;
use kc_expr::{Base, Scope};
use kc_lex::SourceCode;
use kc_lex::fault::lesser_number;
use kc_source_statement::Action;

// A jump is not examined where its target has no value.
fn examined(jumps: bool, code: Option<u8>) -> Option<u8>
    ensures { result ≡ spec.examined jumps code }
{
    match code {
        Some(known) if known == SourceCode::OutOfReach.number() && !jumps => None,
        _ => code,
    }
}

// A number of 16 bits for that of a piece, which no more values count from. Relocatable pieces have such numbers themselves.
fn short_number(piece: usize, base: Base) -> u16
    ensures { is_piece result base ≡ is_piece piece base }
{
    match (u16::try_from(piece), base) {
        (Ok(number), _) => number,
        (Err(_), Base::Piece(other)) => other.wrapping_add(1),
        (Err(_), _) => 0,
    }
}

#[tactic(auto, using(crate::proofs::RelocatableByteLemmas::other_number, crate::proofs::RelocatableByteLemmas::no_plain, crate::proofs::RelocatableByteLemmas::no_second))]
fn relocatable_misfit(
    address: Option<u16>,
    piece: usize,
    place: u16,
    relocatable_byte: RelocatableByte,
) -> Option<u8>
    ensures { result ≡ misfit_at address piece place relocatable_byte }
{
    match relocatable_byte {
        RelocatableByte::First { value, .. } => {
            misfit(
                address,
                short_number(piece, value.base),
                place,
                relocatable_byte,
            )
        }
        RelocatableByte::Plain(_) | RelocatableByte::Second { .. } => None,
    }
}

// The least code of the misfits of relocatable bytes from a place on.
fn misfits(
    jumps: bool,
    address: Option<u16>,
    piece: usize,
    place: u16,
    relocatable_bytes: &[RelocatableByte],
) -> Option<u8>
    ensures { result ≡ least (spec.misfits jumps address piece place relocatable_bytes.now) }
{
    let mut code = None;
    let mut at = place;
    for relocatable_byte in relocatable_bytes {
        code = lesser_number(
            code,
            examined(
                jumps,
                relocatable_misfit(address, piece, at, *relocatable_byte),
            ),
        );
        at = at.wrapping_add(1);
    }
    code
}

// 12 and 19 for numbers that do not fit. The place counts modulo 65536.
#[tactic(auto, using(crate::proofs::RelocatableByteLemmas::modulo))]
fn content_fault(
    jumps: bool,
    address: Option<u16>,
    segment: Segment,
    place: u64,
    content: &Content,
) -> Option<u8>
    ensures { result ≡ least (spec.content_faults jumps address segment.piece place (seen content.now)) }
{
    match content {
        Content::RelocatableBytes(relocatable_bytes) => misfits(
            jumps,
            address,
            segment.piece,
            (place % 65536) as u16,
            relocatable_bytes.as_slice(),
        ),
        _ => when(false, SourceCode::DoesNotFit.number()),
    }
}

// Those of the relocatable bytes that a statement puts where it stands.
pub(crate) fn relocatable_fault<S: Scope>(
    content: &Content,
    action: &Action,
    segment: Segment,
    location: &Location,
    scope: &S,
) -> Option<u8>
    ensures { result ≡ least (spec.relocatable_faults (S.answers scope.now) (action_tree action.now) segment location.now (seen content.now)) }
{
    let jumps = checks_jumps(action, scope);
    content_fault(jumps, location.address, segment, location.place, content)
}
