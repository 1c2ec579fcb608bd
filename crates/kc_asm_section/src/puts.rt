ghost use Rattle.std.specs.Prelude.{◌≡◌, ◌+◌, ◌<◌, ◌≤◌, ◌++◌, map, true, OnOk};
ghost use Rattle.std.specs.List.{list_all};
ghost use Rattle.kc_obj_module.specs.Pieces as pieces;
ghost use Rattle.kc_asm_encode.specs.Relocating as relocating;
ghost use Rattle.kc_asm_section.specs.Order as order;
ghost use Rattle.kc_asm_section.specs.Puts as spec;

use crate::kept::{Kept, number_of, own_number};
use crate::part::{Mark, Part, PlacedByte};
use kc_asm_encode::{relocated, shown};
use kc_base::NoMemory;
use kc_expr::{Base, Value};
use kc_obj_module::{Fixup, Lines, Target};

/// A byte of the module at its place, with the relocation that begins there.
#[derive(Clone, Copy)]
pub struct Put {
    pub piece: u16,
    pub offset: u16,
    pub byte: u8,
    pub fixup: Option<Fixup>,
}

fn target_of(kept: Kept, base: Base) -> Target
    ensures { result ≡ spec.target_of (order.number_of kept) base }
{
    match base {
        Base::Fixed | Base::Absolute => Target::Number,
        Base::Piece(part) => Target::Piece(number_of(kept, part)),
        Base::External(external) => Target::External(external),
    }
}

fn fixup_for(kept: Kept, piece: u16, offset: u16, number: Option<(u8, Value)>) -> Option<Fixup>
    ensures { result ≡ spec.fixup_for (order.number_of kept) piece offset number }
{
    match number {
        None => None,
        Some((kind, value)) => Some(Fixup {
            piece,
            offset,
            kind,
            target: target_of(kept, value.base),
            addend: value.number,
        }),
    }
}

fn start_of(at: Option<u16>) -> u16
    ensures { result ≡ order.start_of at }
{
    match at {
        None => 0,
        Some(base) => base,
    }
}

fn put_of(kept: Kept, piece: u16, part: &Part, placed_byte: PlacedByte) -> Put
    requires starts { spec.has_start placed_byte.relocatable_byte ≡ true }
    requires fits { order.start_of part.now.at + placed_byte.offset < 65536 }
    ensures { result ≡ spec.put_of (order.number_of kept) piece part.now placed_byte }
{
    let at = part.at();
    let own = own_number(part.kind());
    let place = start_of(at) + placed_byte.offset;
    Put {
        piece,
        offset: placed_byte.offset,
        byte: shown(at, own, place, placed_byte.relocatable_byte),
        fixup: fixup_for(
            kept,
            piece,
            placed_byte.offset,
            relocated(at, own, placed_byte.relocatable_byte),
        ),
    }
}

// Adds what stands in a part as a piece of the module.
pub(crate) fn put_placed_bytes(
    puts: &mut Vec<Put>,
    kept: Kept,
    piece: u16,
    part: &Part,
) -> Result<(), NoMemory>
    requires starts { list_all (λ c. spec.has_start c.relocatable_byte) part.now.placed_bytes ≡ true }
    requires fits { order.start_of part.now.at + part.now.length ≤ 65536 }
    ensures { OnOk result (puts.new.items ≡ puts.old.items ++ map (spec.put_of (order.number_of kept) piece part.now) part.now.placed_bytes) }
{
    let mut left = part.placed_bytes();
    while let [first, rest @ ..] = left {
        puts.push(put_of(kept, piece, part, *first))?;
        left = rest;
    }
    Ok(())
}

fn entry_of(piece: u16, mark: Mark) -> Lines
    ensures { result ≡ spec.entry_of piece mark }
{
    Lines {
        piece,
        offset: mark.offset,
        line: mark.line,
    }
}

// Adds the line entries of a part as a piece of the module.
pub(crate) fn put_marks(lines: &mut Vec<Lines>, piece: u16, part: &Part) -> Result<(), NoMemory>
    ensures { OnOk result (lines.new.items ≡ lines.old.items ++ map (spec.entry_of piece) part.now.marks) }
{
    let mut left = part.marks();
    while let [first, rest @ ..] = left {
        lines.push(entry_of(piece, *first))?;
        left = rest;
    }
    Ok(())
}
