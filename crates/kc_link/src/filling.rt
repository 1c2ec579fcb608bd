ghost use Rattle.std.specs.Prelude.{◌≡◌, ◌+◌, ◌-◌, ◌<◌, ◌≤◌, ℕ, List, None, length, slice_index};
ghost use Rattle.kc_link_place.specs.BaseLists.{bases_in};
ghost use Rattle.kc_link_place.specs.Filled.{unfit_in};
ghost use Rattle.kc_link.specs.Writes.{written, bytes_of, runs_of, all_bytes, RunStands, RunsStand, ModulesStand};

use kc_base::{IMAGE_START, Image};
use kc_link_place::{Bases, filled_byte};
use kc_obj_module::{Content, Module};

// Puts the filled bytes of a run into the image.
fn fill_run(image: &mut Image, object: &Module, bases: &Bases, run: &Content)
    requires fit { unfit_in (bases_in bases.now) object.now.fixups ≡ None }
    requires stands { RunStands (bases_in bases.now) object.now run.now }
    ensures { image.new ≡ written image.old (bytes_of (bases_in bases.now) object.now run.now.piece run.now.offset (length run.now.bytes)) }
{
    let bytes = run.bytes.as_slice();
    let start = bases.piece(run.piece) as usize + run.offset as usize;
    for k in 0..bytes.len() {
        let value = filled_byte(object, bases, run.piece, run.offset + k as u16, bytes[k]);
        image.set((start + k) as u16, value);
    }
}

// Puts all runs of a module into the image.
#[tactic(auto, unfolding(crate::specs::Writes::runs_of))]
fn fill_runs(image: &mut Image, object: &Module, bases: &Bases, runs: &[Content])
    requires fit { unfit_in (bases_in bases.now) object.now.fixups ≡ None }
    requires stand { RunsStand (bases_in bases.now) object.now runs.now }
    ensures { image.new ≡ written image.old (runs_of (bases_in bases.now) object.now runs.now) }
{
    let mut left = runs;
    while let [run, rest @ ..] = left {
        fill_run(image, object, bases, run);
        left = rest;
    }
}

/// Puts all bytes of all modules into the image, each at its place and filled.
#[tactic(auto, unfolding(crate::specs::Writes::all_bytes))]
pub(crate) fn fill(image: &mut Image, modules: &[Module], bases: &[Bases])
    requires { ModulesStand modules.now bases.now }
    ensures { image.new ≡ written image.old (all_bytes modules.now bases.now) }
{
    let mut left = modules;
    let mut ahead = bases;
    while let [object, rest @ ..] = left {
        match ahead {
            [] => return,
            [own, others @ ..] => {
                fill_runs(image, object, own, object.contents());
                ahead = others;
            }
        }
        left = rest;
    }
}
