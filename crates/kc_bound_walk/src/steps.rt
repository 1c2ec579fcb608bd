// The ways of steps, and where they lead.
ghost use Rattle.std.specs.Prelude.{◌≡◌, ◌∷◌, IfOk, IsTrue};
ghost use Rattle.std.specs.Option.{option_map};
ghost use Rattle.kc_bound.specs.Ways.{ways_at};
ghost use Rattle.kc_bound_walk.specs.Walks as spec;
ghost use Rattle.kc_bound_walk.specs.Parts.{place_of};

use kc_base::{Image, NoMemory};
use kc_bound::{Notes, Way, is_end, ways};
use std::alloc::Global;

/// The address that begins next, with the open calls, the last one first.
#[derive(Drop)]
pub(crate) struct Place {
    pub(crate) at: u16,
    pub(crate) open_calls: Vec<u16>,
}

/// The states of a way.
pub(crate) fn states_of(way: Way) -> u32
    ensures { result ≡ spec.states_of way }
{
    match way {
        Way::To { states, .. }
        | Way::Call { states, .. }
        | Way::Back { states }
        | Way::Out { states } => states,
    }
}

/// Whether a way is one of an address.
pub(crate) fn is_way(
    alloc: Global,
    image: &Image,
    notes: &Notes,
    at: u16,
    way: Way,
) -> Result<bool, NoMemory>
    ensures { IfOk result (λ is_one. IsTrue is_one → spec.IsOneOf (ways_at image.now notes.now at) way) }
{
    match ways(alloc, image, notes, at)? {
        Some(found) => Ok(found.as_slice().contains(&way)),
        None => Ok(false),
    }
}

// With one more open call.
fn opened(alloc: Global, at: u16, back: u16, open_calls: &[u16]) -> Result<Place, NoMemory>
    ensures { IfOk result (λ p. place_of p ≡ record { at = at; open_calls = back ∷ open_calls.now }) }
{
    let mut all = vec![in alloc; back]?;
    all.extend_from_slice(open_calls)?;
    Ok(Place {
        at,
        open_calls: all,
    })
}

// Behind the last open call.
fn returned(alloc: Global, notes: &Notes, open_calls: &[u16]) -> Result<Option<Place>, NoMemory>
    ensures { IfOk result (λ p. option_map place_of p ≡ spec.returned notes.now open_calls.now) }
{
    let [back, others @ ..] = open_calls else {
        return Ok(None);
    };
    if is_end(notes, *back) {
        return Ok(None);
    }
    Ok(Some(Place {
        at: *back,
        open_calls: others.to_vec(alloc)?,
    }))
}

/// Where a way leads; `None` where the pass is over.
pub(crate) fn after_way(
    alloc: Global,
    notes: &Notes,
    way: Way,
    open_calls: &[u16],
) -> Result<Option<Place>, NoMemory>
    ensures { IfOk result (λ p. option_map place_of p ≡ spec.after_way notes.now way open_calls.now) }
{
    match way {
        Way::To { target, .. } => Ok(Some(Place {
            at: target,
            open_calls: open_calls.to_vec(alloc)?,
        })),
        Way::Call { target, back, .. } => Ok(Some(opened(alloc, target, back, open_calls)?)),
        Way::Back { .. } => returned(alloc, notes, open_calls),
        Way::Out { .. } => Ok(None),
    }
}
