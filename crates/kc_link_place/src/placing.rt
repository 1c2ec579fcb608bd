ghost use Rattle.std.specs.Prelude.{◌≡◌, ◌+◌, ◌<◌, ◌≤◌, ◌++◌, ℕ, List, [], IfOk, true, length};
ghost use Rattle.std.specs.Option.{option_map};
ghost use Rattle.kc_obj_module.specs.Object.{Object};
ghost use Rattle.kc_obj_module.specs.declared.parts.SegKind.TheVariants as kinds;
ghost use Rattle.kc_link_place.specs.declared.pieces.Stand as the;
ghost use Rattle.kc_link_place.specs.declared.ranges.LinkFault.TheVariants as faults;
ghost use Rattle.kc_link_place.specs.Ranges.{are_in_bounds, range_of};
ghost use Rattle.kc_link_place.specs.Stands.{least_free, fixed_from, wanted};
ghost use Rattle.kc_link_place.specs.Gaps.{Represents};
ghost use Rattle.kc_link_place.specs.Names as named;
ghost use Rattle.kc_link_place.specs.Names.{Knows};
ghost use Rattle.kc_link_place.specs.Placing as placing;
ghost use Rattle.kc_link_place.specs.Placing.{ArePlaced, IsKept, stack_at, with_puts};
ghost use Rattle.kc_link_place.specs.Placements.{IsLocated};

use crate::bases::Bases;
use crate::cover::{cover, gaps_between, overlap};
use crate::gaps::{Gap, find};
use crate::names::{Names, public_names};
use crate::pieces::{Stand, fixed_pieces, wanted_pieces};
use crate::places::{Placed, all_places};
use crate::putting::{NoPlace, put_all};
use crate::ranges::{LinkFault, Ranges};
use crate::rules::{doubled, unresolved};
use crate::stack::stack_size;
use kc_base::Text;
use kc_obj_module::{Module, SegKind};
use std::alloc::Global;

// Whether each name that is taken is given.
fn check_taken(alloc: Global, names: &Names, size: u32, modules: &[Module]) -> Result<(), LinkFault>
    ensures { Knows names.now.defining_modules.entries modules.now → IsKept (option_map faults.Unresolved (named.unresolved modules.now size modules.now)) result }
{
    match unresolved(names, size, modules) {
        None => Ok(()),
        Some(name) => Err(LinkFault::Unresolved(Text::of(alloc, name.as_slice())?)),
    }
}

// Whether each name is given once.
fn check_given(alloc: Global, names: &Names, modules: &[Module]) -> Result<(), LinkFault>
    ensures { Knows names.now.defining_modules.entries modules.now → IsKept (option_map faults.OverlapName (named.doubled modules.now 0 modules.now)) result }
{
    match doubled(names, modules) {
        None => Ok(()),
        Some(name) => Err(LinkFault::OverlapName(Text::of(alloc, name.as_slice())?)),
    }
}

// The addresses that absolute pieces leave free, where no two of them overlap.
fn free_addresses(alloc: Global, fixed: &[Stand]) -> Result<Vec<Gap>, LinkFault>
    ensures kept { IsKept (option_map faults.OverlapPlace (placing.overlap fixed.now)) result }
    ensures free { IfOk result (λ gaps. Represents gaps.items fixed.now) }
{
    let counts = cover(alloc, fixed)?;
    match overlap(&counts) {
        None => Ok(gaps_between(alloc, &counts)?),
        Some(address) => Err(LinkFault::OverlapPlace(address)),
    }
}

// Where the stack stands.
fn place_stack(ranges: &Ranges, gaps: &[Gap], size: u32) -> Option<u16>
    ensures { (taken : List the.Stand) → Represents gaps.now taken → result ≡ stack_at size (least_free taken (range_of ranges.now kinds.Stack) 2 size) }
{
    match find(gaps, SegKind::Stack, ranges.ram, size) {
        Some(at) => Some(at),
        None => { if size == 0 { Some(0) } else { None } }
    }
}

fn fault_of(cause: NoPlace) -> LinkFault
    ensures { result ≡ placing.fault_of cause }
{
    match cause {
        NoPlace::NoRoom(piece) => LinkFault::Capacity {
            kind: piece.kind,
            module: piece.index,
        },
        NoPlace::NoMemoryLeft => LinkFault::NoMemory,
    }
}

// Where all pieces stand once all but the stack are put.
fn with_stack(
    alloc: Global,
    puts: &[Stand],
    gaps: &[Gap],
    size: u32,
    modules: &[Module],
    ranges: &Ranges,
) -> Result<Placed, LinkFault>
    requires { length modules.now ≤ 64 }
    ensures { (fixed : List the.Stand) → Represents gaps.now (fixed ++ puts.now)
        → ArePlaced (placing.with_stack modules.now puts.now size (stack_at size (least_free (fixed ++ puts.now) (range_of ranges.now kinds.Stack) 2 size))) result }
{
    match place_stack(ranges, gaps, size) {
        None => Err(LinkFault::Capacity {
            kind: SegKind::Stack,
            module: modules.len() as u16,
        }),
        Some(stack) => {
            let pieces = all_places(alloc, puts, stack, modules)?;
            let after_stack = ((u64::from(stack) + u64::from(size)) % 65_536) as u16;
            Ok(Placed::new(pieces, after_stack))
        }
    }
}

// Where all pieces stand once the absolute ones have left these gaps.
fn with_pieces(
    alloc: Global,
    gaps: &mut Vec<Gap>,
    size: u32,
    modules: &[Module],
    ranges: &Ranges,
) -> Result<Placed, LinkFault>
    requires { length modules.now ≤ 64 }
    ensures { Represents gaps.old.items (fixed_from 0 modules.now) → size ≡ placing.stack_size ranges.now modules.now
        → ArePlaced (with_puts modules.now ranges.now (placing.put_all ranges.now (fixed_from 0 modules.now) [] (wanted modules.now))) result }
{
    let pieces = wanted_pieces(alloc, modules)?;
    match put_all(alloc, ranges, gaps, &pieces) {
        Ok(puts) => with_stack(alloc, &puts, gaps, size, modules, ranges),
        Err(cause) => Err(fault_of(cause)),
    }
}

// Where all pieces stand, or the first broken rule.
#[tactic(auto, unfolding(crate::specs::Placing::located))]
fn located(
    alloc: Global,
    names: &Names,
    modules: &[Module],
    ranges: &Ranges,
) -> Result<Placed, LinkFault>
    requires few { length modules.now ≤ 64 }
    requires ranges { are_in_bounds ranges.now ≡ true }
    ensures { Knows names.now.defining_modules.entries modules.now → ArePlaced (placing.located modules.now ranges.now) result }
{
    let size = stack_size(ranges, modules);
    check_taken(alloc, names, size, modules)?;
    check_given(alloc, names, modules)?;
    let fixed = fixed_pieces(alloc, modules)?;
    let mut gaps = free_addresses(alloc, &fixed)?;
    with_pieces(alloc, &mut gaps, size, modules, ranges)
}

/// Where the pieces of 1 to 64 modules stand within ranges that are within bounds. The refusal is that of `place`.
pub fn locate(alloc: Global, modules: &[Module], ranges: &Ranges) -> Result<Placed, LinkFault>
    requires some { 0 < length modules.now }
    requires few { length modules.now ≤ 64 }
    requires ranges { are_in_bounds ranges.now ≡ true }
    ensures { ArePlaced (placing.located modules.now ranges.now) result }
{
    let names = public_names(alloc, modules)?;
    located(alloc, &names, modules, ranges)
}

/// Where the pieces of modules stand, and what the numbers of each module count from there.
#[derive(Drop)]
pub struct Placement {
    pub places: Placed,
    pub bases: Vec<Bases>,
}

/// Places the pieces of 1 to 64 modules within ranges that are within bounds, and gives for each module what its
/// numbers count from. The refusal is the first broken rule: a name that is taken and not given, a name that is given
/// twice, an address from 001AH on that two absolute pieces have, a piece without room.
pub fn place(alloc: Global, modules: &[Module], ranges: &Ranges) -> Result<Placement, LinkFault>
    requires some { 0 < length modules.now }
    requires few { length modules.now ≤ 64 }
    requires ranges { are_in_bounds ranges.now ≡ true }
    ensures { IsLocated modules.now ranges.now result }
{
    let names = public_names(alloc, modules)?;
    let places = located(alloc, &names, modules, ranges)?;
    let bases = places.bases(alloc, &names, modules)?;
    Ok(Placement { places, bases })
}
