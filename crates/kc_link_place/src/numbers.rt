ghost use Rattle.std.specs.Prelude.{◌≡◌, ◌<◌};
ghost use Rattle.kc_link_place.specs.BaseLists.{bases_in};
ghost use Rattle.kc_link_place.specs.Filled as filled;

use crate::bases::Bases;
use kc_obj_module::{Fixup, Target, number, reach};

fn target_number(bases: &Bases, target: Target, addend: u16) -> u16
    ensures { result ≡ filled.target_number (bases_in bases.now) target addend }
{
    match target {
        Target::Piece(piece) => bases.piece(piece).wrapping_add(addend),
        Target::External(external) => bases.external(external).wrapping_add(addend),
        Target::Number => addend,
    }
}

// The number that a relocation puts, with its first byte at an address.
#[tactic(auto, unfolding(kc_obj_module::specs::Numbers::number, kc_obj_module::specs::Numbers::distance))]
pub(crate) fn fixup_number(bases: &Bases, place: u32, fixup: Fixup) -> u16
    requires { place < 131072 }
    ensures { result ≡ filled.fixup_number (bases_in bases.now) place fixup }
{
    let to = target_number(bases, fixup.target, fixup.addend);
    let next = (place + reach(fixup.kind) as u32) % 65536;
    number(fixup.kind, next as u16, to)
}
