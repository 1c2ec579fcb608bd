// From which line of which module the bytes at an address come.
ghost use Rattle.std.specs.Prelude.{◌≡◌, find};
ghost use Rattle.std.specs.Option.{option_map};
ghost use Rattle.kc_link_place.specs.BaseLists.{bases_in};
ghost use Rattle.kc_link.specs.Placed.{ArePlacedAt};
ghost use Rattle.kc_link.specs.SourceLine.{begins_at, line_begun, source_line, source_line_by};

use kc_link_place::{Bases, Placement};
use kc_obj_module::{Lines, Module};

/// A line of the source of a module, by the number of its module, counted from 0.
#[derive(Clone, Copy, Drop)]
pub struct SourceLine {
    pub index: usize,
    pub line: u32,
}

// Whether the bytes of a line entry begin at an address.
fn begins_at(bases: &Bases, addr: u16, entry: &Lines) -> bool
    ensures { result ≡ begins_at (bases_in bases.now) addr entry.now }
{
    u32::from(bases.piece(entry.piece)) + u32::from(entry.offset) == u32::from(addr)
}

// The line of the first of some line entries whose bytes begin at an address.
fn line_begun(bases: &Bases, addr: u16, lines: &[Lines]) -> Option<u32>
    ensures { result ≡ option_map (λ l. l.line) (find (begins_at (bases_in bases.now) addr) lines.now) }
{
    let mut left = lines;
    while let [entry, rest @ ..] = left {
        if begins_at(bases, addr, entry) {
            return Some(entry.line);
        }
        left = rest;
    }
    None
}

// The line of a module of which the bytes begin at an address, if it has line entries.
fn line_in(bases: &Bases, addr: u16, object: &Module) -> Option<u32>
    ensures { result ≡ line_begun (bases_in bases.now) addr object.now.lines }
{
    match object.lines() {
        None => None,
        Some(lines) => line_begun(bases, addr, lines),
    }
}

// The line of which the bytes begin at an address, of modules with their bases.
#[tactic(auto, unfolding(crate::specs::SourceLine::source_line_by))]
fn line_among(modules: &[Module], bases: &[Bases], addr: u16) -> Option<SourceLine>
    ensures { result ≡ source_line_by addr 0 modules.now bases.now }
{
    let mut left = modules;
    let mut ahead = bases;
    let mut index = 0;
    while let [object, rest @ ..] = left {
        match ahead {
            [] => return None,
            [own, others @ ..] => {
                if let Some(line) = line_in(own, addr, object) {
                    return Some(SourceLine { index, line });
                }
                ahead = others;
            }
        }
        index += 1;
        left = rest;
    }
    None
}

/// The line of which the bytes begin at an address, where modules stand at their places; `None` where none has a line entry there.
pub fn source_line(modules: &[Module], placement: &Placement, addr: u16) -> Option<SourceLine>
    requires { ArePlacedAt modules.now placement.now }
    ensures { result ≡ source_line modules.now placement.now.places addr }
{
    line_among(modules, &placement.bases, addr)
}
