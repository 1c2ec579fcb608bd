// Modules that are placed.
ghost use Rattle.std.specs.Prelude.{length};
ghost use Rattle.kc_kit_words.specs.Asked.{AreLinkable};
ghost use Rattle.kc_kit_messages.specs.Origins.{words_of};
ghost use Rattle.kc_kit_answer.specs.Jobs.{IsPlaced};

use kc_kit_files::Refusal;
use kc_kit_messages::{Origins, link_refusal};
use kc_kit_words::Ranges;
use kc_link::{Placement, linked_places};
use kc_obj_module::Module;
use std::alloc::Global;

/// The places of modules from these files; or the refusal of the first broken rule.
pub(crate) fn place_modules(
    alloc: Global,
    origins: &Origins<'_, '_, '_>,
    modules: &[Module],
    ranges: &Ranges,
) -> Result<Placement, Refusal>
    requires { AreLinkable (length modules.now) ranges.now }
    ensures { IsPlaced (words_of origins.now) ranges.now modules.now result }
{
    match linked_places(alloc, modules, ranges) {
        Ok(placement) => Ok(placement),
        Err(fault) => Err(link_refusal(alloc, origins, modules, &fault)),
    }
}
