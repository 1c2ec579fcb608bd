ghost use Rattle.std.specs.Prelude.{◌≡◌, ◌<◌, ◌≤◌, ◌++◌, IfOk, OnOk, true, length, map};
ghost use Rattle.std.specs.List.Sorted.{IsPermutation, IsNonDecreasingBy};
ghost use Rattle.kc_link_place.specs.BaseLists.{bases_in};
ghost use Rattle.kc_link_place.specs.Ranges.{are_in_bounds};
ghost use Rattle.kc_link.specs.Placed.{ArePlacedAt};
ghost use Rattle.kc_link.specs.LineMap.{line_at, lines_in, lines_by, LinesStand, MaybeLinesStand, AllLinesStand, IsLineMap, IsLines};

use crate::linking::{keep_rules, linked_places};
use kc_base::{NoMemory, Text};
use kc_link_place::{Bases, LinkFault, Placement, Ranges, code_stands_apart};
use kc_obj_module::{Lines, Module};
use std::alloc::Global;

/// The bytes at this address come from this line of the module with this name.
#[derive(Drop)]
pub struct LineAt {
    pub addr: u16,
    pub name: Text,
    pub line: u32,
}

// Adds the line entries of a module.
fn add_lines(
    alloc: Global,
    entries: &mut Vec<LineAt>,
    bases: &Bases,
    name: &Text,
    lines: &[Lines],
) -> Result<(), NoMemory>
    requires { LinesStand (bases_in bases.now) lines.now }
    ensures { OnOk result (entries.new.items ≡ entries.old.items ++ map (line_at (bases_in bases.now) name.now) lines.now) }
{
    let mut left = lines;
    while let [entry, rest @ ..] = left {
        let addr = bases.piece(entry.piece) + entry.offset;
        let name = Text::of(alloc, name.as_slice())?;
        entries.push(LineAt {
            addr,
            name,
            line: entry.line,
        })?;
        left = rest;
    }
    Ok(())
}

// Adds the line entries of a module, if it has such.
fn add_module(
    alloc: Global,
    entries: &mut Vec<LineAt>,
    bases: &Bases,
    object: &Module,
) -> Result<(), NoMemory>
    requires { MaybeLinesStand (bases_in bases.now) object.now.lines }
    ensures { OnOk result (entries.new.items ≡ entries.old.items ++ lines_in (bases_in bases.now) object.now.name object.now.lines) }
{
    match object.lines() {
        None => Ok(()),
        Some(lines) => add_lines(alloc, entries, bases, object.name(), lines),
    }
}

// The line entries of all modules.
#[tactic(auto, unfolding(crate::specs::LineMap::lines_by))]
fn all_lines(alloc: Global, modules: &[Module], bases: &[Bases]) -> Result<Vec<LineAt>, NoMemory>
    requires { AllLinesStand modules.now bases.now }
    ensures { IfOk result (λ all. all.items ≡ lines_by modules.now bases.now) }
{
    let mut entries = Vec::new(alloc);
    let mut left = modules;
    let mut ahead = bases;
    while let [object, rest @ ..] = left {
        match ahead {
            [] => return Ok(entries),
            [own, others @ ..] => {
                add_module(alloc, &mut entries, own, object)?;
                ahead = others;
            }
        }
        left = rest;
    }
    Ok(entries)
}

// Sorts line entries by address.
fn sort(entries: &mut Vec<LineAt>) -> Result<(), NoMemory>
    ensures same { IsPermutation entries.old.items entries.new.items }
    ensures sorted { OnOk result (IsNonDecreasingBy (λ e. e.addr) entries.new.items) }
{
    entries.sort_by_key(|e| e.addr)?;
    Ok(())
}

/// The line map of modules at their places: each line entry with the address at which it stands, by rising address. A module
/// without line entries gives none.
pub fn lines_at(
    alloc: Global,
    modules: &[Module],
    placement: &Placement,
) -> Result<Vec<LineAt>, NoMemory>
    requires { ArePlacedAt modules.now placement.now }
    ensures { IfOk result (λ entries. IsLineMap modules.now placement.now.places entries.items) }
{
    keep_rules(modules);
    code_stands_apart();
    let mut entries = all_lines(alloc, modules, &placement.bases)?;
    sort(&mut entries)?;
    Ok(entries)
}

/// The line map of 1 to 64 modules that are linked in these ranges: each line entry with the address at which it stands,
/// by rising address. It is refused as `link` is, for the same causes. A module without line entries gives none.
pub fn line_map(
    alloc: Global,
    modules: &[Module],
    ranges: &Ranges,
) -> Result<Vec<LineAt>, LinkFault>
    requires some { 0 < length modules.now }
    requires few { length modules.now ≤ 64 }
    requires ranges { are_in_bounds ranges.now ≡ true }
    ensures { IsLines modules.now ranges.now result }
{
    let placement = linked_places(alloc, modules, ranges)?;
    Ok(lines_at(alloc, modules, &placement)?)
}
