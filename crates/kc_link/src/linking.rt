ghost use Rattle.std.specs.Prelude.{◌≡◌, ◌+◌, ◌<◌, ◌≤◌, ℕ, List, IfOk, true, length};
ghost use Rattle.kc_link_place.specs.Ranges.{are_in_bounds};
ghost use Rattle.kc_link_place.specs.Placing.{IsKept};
ghost use Rattle.kc_link_place.specs.Placements.{IsAnswer};
ghost use Rattle.kc_link_place.specs.Apart.{AllKeepRules};
ghost use Rattle.kc_link.specs.Placed.{placed, unfit_by, ArePlacedAt};
ghost use Rattle.kc_link.specs.Writes.{IsBlank};
ghost use Rattle.kc_link.specs.Filled.{IsFilled, IsImage};

use crate::filling::fill;
use kc_base::{Image, NoMemory};
use kc_link_place::{Bases, LinkFault, Placement, Ranges, code_stands_apart, first_unfit, place};
use kc_obj_module::Module;
use std::alloc::Global;

// Whether the number of each relocation fits.
#[tactic(auto, unfolding(crate::specs::Placed::unfit_by))]
fn check_fits(modules: &[Module], bases: &[Bases]) -> Result<(), LinkFault>
    requires { length modules.now ≤ 64 }
    ensures { IsKept (unfit_by 0 modules.now bases.now) result }
{
    let mut left = modules;
    let mut ahead = bases;
    let mut index = 0u16;
    while let [object, rest @ ..] = left {
        match ahead {
            [] => return Ok(()),
            [own, others @ ..] => {
                if let Some(fixup) = first_unfit(object, own) {
                    return Err(LinkFault::Range {
                        module: index,
                        piece: fixup.piece,
                        offset: fixup.offset,
                    });
                }
                ahead = others;
            }
        }
        index += 1;
        left = rest;
    }
    Ok(())
}

/// Places 1 to 64 modules, with relocatable pieces in ranges within their bounds: the image, the line map and the map can be
/// made at these places. The refusal is that of `link`.
#[tactic(auto, unfolding(crate::specs::Placed::placed))]
pub fn linked_places(
    alloc: Global,
    modules: &[Module],
    ranges: &Ranges,
) -> Result<Placement, LinkFault>
    requires some { 0 < length modules.now }
    requires few { length modules.now ≤ 64 }
    requires ranges { are_in_bounds ranges.now ≡ true }
    ensures { IsAnswer modules.now (placed modules.now ranges.now) result }
{
    let placement = place(alloc, modules, ranges)?;
    match check_fits(modules, &placement.bases) {
        Ok(()) => Ok(placement),
        Err(fault) => Err(fault),
    }
}

/// Each of the modules keeps the rules of the format. It changes nothing.
pub(crate) fn keep_rules(modules: &[Module])
    ensures { AllKeepRules modules.now }
{
    for module in modules {
        module.keeps_rules();
    }
}

fn blank_image(alloc: Global) -> Result<Image, NoMemory>
    ensures { IfOk result (λ image. IsBlank image) }
{
    Image::blank(alloc)
}

/// The image of modules at their places: the contents of all code pieces, with relocations filled in, and FFH elsewhere.
pub fn image_at(alloc: Global, modules: &[Module], placement: &Placement) -> Result<Image, NoMemory>
    requires { ArePlacedAt modules.now placement.now }
    ensures { IfOk result (λ image. IsFilled modules.now placement.now.places image) }
{
    let mut image = blank_image(alloc)?;
    keep_rules(modules);
    code_stands_apart();
    fill(&mut image, modules, &placement.bases);
    Ok(image)
}

/// Links 1 to 64 modules, with relocatable pieces in ranges within their bounds, to the image of program memory: the
/// contents of all code pieces at their places, with relocations filled in, and FFH elsewhere. The refusal is the first
/// broken rule: a name that is taken and not given, a name that is given twice, an address that two absolute pieces
/// have, a piece without room, a number that does not fit its relocation; or memory ran out.
pub fn link(alloc: Global, modules: &[Module], ranges: &Ranges) -> Result<Image, LinkFault>
    requires some { 0 < length modules.now }
    requires few { length modules.now ≤ 64 }
    requires ranges { are_in_bounds ranges.now ≡ true }
    ensures { IsImage modules.now ranges.now result }
{
    let placement = linked_places(alloc, modules, ranges)?;
    Ok(image_at(alloc, modules, &placement)?)
}
