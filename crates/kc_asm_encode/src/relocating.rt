ghost use Rattle.std.specs.Prelude.{◌≡◌, ◌+◌, ◌≤◌, ◌<◌};
ghost use Rattle.kc_obj_module.specs.Numbers as numbers;
ghost use Rattle.kc_asm_encode.specs.Filling as filling;
ghost use Rattle.kc_asm_encode.specs.Relocating as relocating;

use crate::RelocatableByte;
use kc_expr::{Base, Value};
use kc_lex::SourceCode;
use kc_obj_module::{first_part, fits, is_distance, number, reach, second_part};

// The number of a value with all pieces at 0, where the next instruction begins some bytes behind a place.
#[tactic(auto, unfolding(kc_obj_module::specs::Numbers::number, kc_obj_module::specs::Numbers::distance))]
fn number_at(kind: u8, place: u16, behind: u16, value: Value) -> u16
    ensures { result ≡ numbers.number kind (place + behind) (filling.address relocating.no_bases value) }
{
    number(kind, place.wrapping_add(behind), value.number)
}

// The base is a piece or an external.
fn counts(base: Base) -> bool
    ensures { result ≡ relocating.counts base }
{
    matches!(base, Base::Piece(_) | Base::External(_))
}

fn leaves(at: Option<u16>, piece: u16, base: Base) -> bool
    ensures { result ≡ relocating.leaves at piece base }
{
    match at {
        Some(_) => counts(base),
        None => base != Base::Piece(piece),
    }
}

/// Whether a number of this kind, in a piece that is absolute or not, depends on a base.
#[tactic(auto, unfolding(crate::specs::Relocating::depends))]
pub fn depends(kind: u8, at: Option<u16>, piece: u16, base: Base) -> bool
    ensures { result ≡ relocating.depends kind at piece base }
{
    if is_distance(kind) {
        leaves(at, piece, base)
    } else {
        counts(base)
    }
}

/// The relocation that begins at a byte of a piece: its kind, and the value that it fills in.
#[tactic(auto, unfolding(crate::specs::Relocating::relocated))]
pub fn relocated(
    at: Option<u16>,
    piece: u16,
    relocatable_byte: RelocatableByte,
) -> Option<(u8, Value)>
    ensures { result ≡ relocating.relocated at piece relocatable_byte }
{
    match relocatable_byte {
        RelocatableByte::First { kind, value, .. } => {
            if depends(kind, at, piece, value.base) {
                Some((kind, value))
            } else {
                None
            }
        }
        RelocatableByte::Plain(_) | RelocatableByte::Second { .. } => None,
    }
}

/// The code of the fault where a number that depends on no base does not fit: 12 for a byte, 19 for a jump. The relocatable byte
/// stands at `place`, an address in an absolute piece, else an offset.
#[tactic(auto, unfolding(crate::specs::Relocating::misfit))]
pub fn misfit(
    at: Option<u16>,
    piece: u16,
    place: u16,
    relocatable_byte: RelocatableByte,
) -> Option<u8>
    ensures { result ≡ relocating.misfit at piece place relocatable_byte }
{
    match relocatable_byte {
        RelocatableByte::First { kind, value, .. } => {
            let own = !depends(kind, at, piece, value.base);
            if own && !fits(kind, number_at(kind, place, reach(kind), value)) {
                Some(if kind == 1 {
                    SourceCode::DoesNotFit.number()
                } else {
                    SourceCode::OutOfReach.number()
                })
            } else {
                None
            }
        }
        RelocatableByte::Plain(_) | RelocatableByte::Second { .. } => None,
    }
}

/// The byte that a module has for a relocatable byte at `place`, an address in an absolute piece, else an offset.
#[tactic(auto, unfolding(crate::specs::Relocating::shown, crate::specs::Filling::fill))]
pub fn shown(at: Option<u16>, piece: u16, place: u16, relocatable_byte: RelocatableByte) -> u8
    requires { relocating.HasRoom place relocatable_byte }
    ensures { result ≡ relocating.shown at piece place relocatable_byte }
{
    match relocatable_byte {
        RelocatableByte::Plain(byte) => byte,
        RelocatableByte::First { kind, start, value } => {
            if depends(kind, at, piece, value.base) {
                start
            } else {
                start + first_part(kind, number_at(kind, place, reach(kind), value))
            }
        }
        RelocatableByte::Second { kind, value } => {
            if depends(kind, at, piece, value.base) {
                0
            } else {
                second_part(kind, number_at(kind, place, 1, value))
            }
        }
    }
}
