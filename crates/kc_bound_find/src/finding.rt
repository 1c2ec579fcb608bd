ghost use Rattle.std.specs.Prelude.{IfOk};
ghost use Rattle.kc_bound_find.specs.Answers as spec;

use crate::reach::reach;
use crate::refusal::{Refusal, refuse_all, rising};
use crate::solving::{Solved, solve};
use kc_base::{Image, NoMemory};
use kc_bound::{Certificate, Notes};
use std::alloc::Global;

/// A certificate, of which nothing is claimed until it is checked; or why there is none, by rising address.
#[derive(Drop)]
pub enum Found {
    Certificate(Certificate),
    Refused(Vec<Refusal>),
}

/// A certificate for the passes from an address through an image.
pub fn find(alloc: Global, image: &Image, notes: &Notes, from: u16) -> Result<Found, NoMemory>
    ensures { IfOk result (spec.IsAnswer image.now notes.now) }
{
    let mut refused = Vec::new(alloc);
    let table = reach(alloc, image, notes, from, &mut refused)?;
    match solve(alloc, &table, notes, from, !refused.is_empty())? {
        Solved::Certificate(found) => Ok(Found::Certificate(found)),
        Solved::Refused(why, addresses) => {
            refuse_all(addresses.as_slice(), why, &mut refused)?;
            Ok(Found::Refused(rising(alloc, refused)?))
        }
    }
}
