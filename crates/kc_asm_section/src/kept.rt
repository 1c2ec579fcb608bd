ghost use Rattle.std.specs.Prelude.{◌≡◌, slice_get};
ghost use Rattle.std.specs.List.{list_any};
ghost use Rattle.kc_obj_module.specs.Pieces as pieces;
ghost use Rattle.kc_asm_encode.specs.Relocating as relocating;
ghost use Rattle.kc_asm_section.specs.Order as order;

use crate::part::Part;
use crate::unlinked::Public;
use kc_asm_encode::{RelocatableByte, relocated};
use kc_expr::Base;
use kc_obj_module::SegKind;
use kc_obj_module::pieces::number_of as kind_number;

/// Which of the relocatable parts are pieces of the module.
#[derive(Clone, Copy, PartialEq, Eq)]
pub struct Kept {
    pub registers: bool,
    pub code: bool,
    pub ram: bool,
}

// The number that values have for the relocatable part of a kind.
pub(crate) fn own_number(kind: SegKind) -> u16
    ensures { result ≡ pieces.kind_number kind }
{
    u16::from(kind_number(kind))
}

// The number of the piece that a relocatable part is: how many pieces stand before it.
pub(crate) fn number_of(kept: Kept, part: u16) -> u16
    ensures { result ≡ order.number_of kept part }
{
    let first = if kept.registers { 1 } else { 0 };
    let second = if kept.code { 1 } else { 0 };
    match part {
        0 => 0,
        1 => first,
        _ => first + second,
    }
}

fn is_based(base: Base, part: u16) -> bool
    ensures { result ≡ relocating.is_piece part base }
{
    base == Base::Piece(part)
}

// Whether a relocatable byte begins a relocation whose target is a relocatable part.
fn aims(part: &Part, relocatable_byte: RelocatableByte, target: u16) -> bool
    ensures { result ≡ order.aims_at target (order.relocation part.now relocatable_byte) }
{
    match relocated(part.at(), own_number(part.kind()), relocatable_byte) {
        Some((_, value)) => is_based(value.base, target),
        None => false,
    }
}

fn has_aim(part: &Part, target: u16) -> bool
    ensures { result ≡ list_any (λ c. order.aims_at target (order.relocation part.now c.relocatable_byte)) part.now.placed_bytes }
{
    part.placed_bytes()
        .iter()
        .any(|c| aims(part, c.relocatable_byte, target))
}

fn has_public(publics: &[Public], target: u16) -> bool
    ensures { result ≡ list_any (λ p. relocating.is_piece target p.value.base) publics.now }
{
    publics.iter().any(|p| is_based(p.value.base, target))
}

fn has_aims(parts: &[Part], target: u16) -> bool
    ensures { result ≡ list_any (λ t. list_any (λ c. order.aims_at target (order.relocation t c.relocatable_byte)) t.placed_bytes) parts.now }
{
    parts.iter().any(|t| has_aim(t, target))
}

// Whether a relocatable part is a piece of the module.
#[tactic(auto, unfolding(crate::specs::Order::is_named))]
fn stays(parts: &[Part], publics: &[Public], part: &Part, number: u16) -> bool
    ensures { result ≡ order.stays parts.now publics.now part.now number }
{
    0 < part.length() || has_public(publics, number) || has_aims(parts, number)
}

fn stays_at(parts: &[Part], publics: &[Public], number: u16) -> bool
    ensures { result ≡ order.stays_in parts.now publics.now number (slice_get parts.now number) }
{
    match parts.get(number as usize) {
        None => false,
        Some(part) => stays(parts, publics, part, number),
    }
}

// Which of the three relocatable parts are pieces of the module.
#[tactic(auto, unfolding(crate::specs::Order::kept_of))]
pub(crate) fn kept_of(parts: &[Part], publics: &[Public]) -> Kept
    ensures { result ≡ order.kept_of parts.now publics.now }
{
    Kept {
        registers: stays_at(parts, publics, 0),
        code: stays_at(parts, publics, 1),
        ram: stays_at(parts, publics, 2),
    }
}
