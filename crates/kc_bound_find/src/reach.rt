// The addresses that a pass may come to.
ghost use Rattle.std.specs.Prelude.{◌≡◌, IfOk, OnOk};
ghost use Rattle.std.specs.List.{All};
ghost use Rattle.kc_bound_find.specs.Refusals.{IsRefusal, reason_of};

use crate::by_address::ADDRESSES;
use crate::refusal::{Refusal, Why};
use crate::table::{Seen, Table};
use kc_base::{Image, NoMemory};
use kc_bound::{Notes, Way, found_at, is_end, ways};
use kc_code::Decoded;
use std::alloc::Global;

const BMOV: u8 = 0xC1;

const BMOVI: u8 = 0xCD;

// Why an address has no ways, by what stands there.
fn why_none(found: &Decoded) -> Why
    ensures { result ≡ reason_of found.now }
{
    match found {
        Decoded::Insn(insn, _) if insn.opcode == BMOV || insn.opcode == BMOVI => Why::Block,
        Decoded::Insn(_, _) => Why::Computed,
        _ => Why::Outside,
    }
}

// How it goes on as if it had one: behind a block move, or out.
fn way_all_the_same(found: &Decoded, at: u16) -> Way {
    match found {
        Decoded::Insn(insn, length) if insn.opcode == BMOV || insn.opcode == BMOVI => Way::To {
            states: 2,
            target: at.wrapping_add(u16::from(*length)),
        },
        _ => Way::Out { states: 2 },
    }
}

// The ways on from an address; where it has none that is refused.
fn ways_or_refused(
    alloc: Global,
    image: &Image,
    notes: &Notes,
    at: u16,
    refused: &mut Vec<Refusal>,
) -> Result<Vec<Way>, NoMemory>
    requires { All (IsRefusal image.now notes.now) refused.old.items }
    ensures { OnOk result (All (IsRefusal image.now notes.now) refused.new.items) }
{
    if let Some(found) = ways(alloc, image, notes, at)? {
        return Ok(found);
    }
    let found = found_at(image, at);
    refused.push(Refusal {
        at,
        why: why_none(&found),
    })?;
    let way = way_all_the_same(&found, at);
    Ok(vec![in alloc; way]?)
}

// The ways on from an address that is reached from another one. Where a pass is over nothing follows.
fn ways_from(
    alloc: Global,
    image: &Image,
    notes: &Notes,
    from: u16,
    at: u16,
    refused: &mut Vec<Refusal>,
) -> Result<Vec<Way>, NoMemory>
    requires { All (IsRefusal image.now notes.now) refused.old.items }
    ensures { OnOk result (All (IsRefusal image.now notes.now) refused.new.items) }
{
    if at != from && is_end(notes, at) {
        return Ok(vec![in alloc; Way::Out { states: 0 }]?);
    }
    ways_or_refused(alloc, image, notes, at, refused)
}

/// All addresses that are reached from one, with their ways, and what is refused of them.
pub(crate) fn reach(
    alloc: Global,
    image: &Image,
    notes: &Notes,
    from: u16,
    refused: &mut Vec<Refusal>,
) -> Result<Table, NoMemory>
    requires { All (IsRefusal image.now notes.now) refused.old.items }
    ensures { OnOk result (All (IsRefusal image.now notes.now) refused.new.items) }
{
    let mut seen = Seen::only(alloc, from)?;
    let mut table = Table::new(alloc)?;
    for k in 0..ADDRESSES {
        let Some(at) = seen.get(k) else {
            break;
        };
        let found = ways_from(alloc, image, notes, from, at, refused)?;
        seen.see_called(found.as_slice())?;
        seen.see_next(found.as_slice())?;
        table.set(at, found);
    }
    table.reached = seen.into_addresses();
    Ok(table)
}
