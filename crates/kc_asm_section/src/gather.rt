ghost use Rattle.std.specs.Prelude.{◌≡◌, ◌+◌, ◌<◌, ◌≤◌, ◌++◌, [], ◌∷◌, true, length, OnOk, IfOk, Some};
ghost use Rattle.std.specs.List.{list_all};
ghost use Rattle.kc_asm_section.specs.Section.{is_section};
ghost use Rattle.kc_asm_section.specs.Order as order;
ghost use Rattle.kc_asm_section.specs.ModuleContents as module_contents;

use crate::kept::Kept;
use crate::part::Part;
use crate::puts::{Put, put_marks, put_placed_bytes};
use kc_base::NoMemory;
use kc_obj_module::{Lines, SegKind, Segment};
use std::alloc::Global;
use std::marker::Model;

/// The pieces of a module with what stands in them, one after the other.
#[derive(Drop)]
pub(crate) struct Gathered {
    segments: Vec<Segment>,
    puts: Vec<Put>,
    lines: Vec<Lines>,
}

impl Model for Gathered {
    ghost use Rattle.kc_asm_section.specs.ModuleContents.{ModuleContents, module_contents_of};

    ghost Value = { ModuleContents };

    ghost view = { λ g. module_contents_of g.segments.items g.puts.items g.lines.items };
}

fn segment_of(part: &Part) -> Segment
    requires { part.now.length < 65536 }
    ensures segment { result ≡ order.segment_of part.now }
    ensures section { is_section part.now ≡ true }
{
    Segment {
        kind: part.kind(),
        at: part.at(),
        length: part.length() as u16,
    }
}

impl Gathered {
    fn new(alloc: Global) -> Gathered
        ensures { result ≡ module_contents.empty }
    {
        Gathered {
            segments: Vec::new(alloc),
            puts: Vec::new(alloc),
            lines: Vec::new(alloc),
        }
    }

    // What stands at the places of the pieces.
    pub(crate) fn puts(&self) -> &[Put]
        ensures { result.now ≡ self.now.puts }
    {
        self.puts.as_slice()
    }

    // The pieces and their line entries.
    pub(crate) fn into_lists(self) -> (Vec<Segment>, Vec<Lines>)
        ensures segments { result.0.items ≡ self.segments }
        ensures lines { result.1.items ≡ self.entries }
    {
        (self.segments, self.lines)
    }

    // Adds a part as the next piece.
    fn add(&mut self, kept: Kept, part: &Part) -> Result<(), NoMemory>
        requires room { length self.old.segments < 65536 }
        requires part { module_contents.IsAddable part.now }
        ensures added { OnOk result (self.new ≡ module_contents.added (order.number_of kept) part.now self.old) }
        ensures section { is_section part.now ≡ true }
    {
        let piece = self.segments.len() as u16;
        self.segments.push(segment_of(part))?;
        put_placed_bytes(&mut self.puts, kept, piece, part)?;
        put_marks(&mut self.lines, piece, part)
    }

    // Adds parts as the next pieces.
    #[tactic(auto, unfolding(crate::specs::ModuleContents::added_all, crate::specs::ModuleContents::AreAddable))]
    fn add_all(&mut self, kept: Kept, parts: &[Part]) -> Result<(), NoMemory>
        requires room { length self.old.segments + length parts.now ≤ 65536 }
        requires parts { module_contents.AreAddable parts.now }
        ensures added { OnOk result (self.new ≡ module_contents.added_all (order.number_of kept) parts.now self.old) }
        ensures sections { OnOk result (list_all is_section parts.now ≡ true) }
    {
        let mut left = parts;
        while let [first, rest @ ..] = left {
            self.add(kept, first)?;
            left = rest;
        }
        Ok(())
    }

    // Adds a part as the next piece where it is kept.
    #[tactic(auto, unfolding(crate::specs::ModuleContents::added_all))]
    fn add_if(&mut self, kept: Kept, stays: bool, part: &Part) -> Result<(), NoMemory>
        requires room { length self.old.segments + length (order.kept_if stays (Some part.now)) ≤ 65536 }
        requires part { module_contents.IsAddable part.now }
        ensures added { OnOk result (self.new ≡ module_contents.added_all (order.number_of kept) (order.kept_if stays (Some part.now)) self.old) }
        ensures section { is_section part.now ≡ true }
    {
        let length = part.length();
        prove!(length <= 65536);
        if stays { self.add(kept, part) } else { Ok(()) }
    }

    // Adds the stack as the next piece where it has bytes.
    #[tactic(auto, unfolding(crate::specs::ModuleContents::added_all))]
    fn add_stack(&mut self, kept: Kept, bytes: u16) -> Result<(), NoMemory>
        requires { length self.old.segments + length (order.stack_pieces bytes) ≤ 65536 }
        ensures { OnOk result (self.new ≡ module_contents.added_all (order.number_of kept) (order.stack_pieces bytes) self.old) }
    {
        if bytes == 0 {
            return Ok(());
        }
        self.segments.push(Segment {
            kind: SegKind::Stack,
            at: None,
            length: bytes,
        })?;
        Ok(())
    }
}

// The pieces of a module with what stands in them: the parts that are kept, the stack, the absolute parts.
fn gather_all(
    alloc: Global,
    kept: Kept,
    registers: &Part,
    code: &Part,
    ram: &Part,
    stack: u16,
    absolute: &[Part],
) -> Result<Gathered, NoMemory>
    requires count { length (order.in_order kept (Some registers.now) (Some code.now) (Some ram.now) stack absolute.now) ≤ 65536 }
    requires of_registers { module_contents.IsAddable registers.now }
    requires of_code { module_contents.IsAddable code.now }
    requires of_ram { module_contents.IsAddable ram.now }
    requires of_absolute { module_contents.AreAddable absolute.now }
    ensures pieces { IfOk result (λ g. g ≡ module_contents.added_all (order.number_of kept) (order.in_order kept (Some registers.now) (Some code.now) (Some ram.now) stack absolute.now) module_contents.empty) }
    ensures of_registers { OnOk result (is_section registers.now ≡ true) }
    ensures of_code { OnOk result (is_section code.now ≡ true) }
    ensures of_ram { OnOk result (is_section ram.now ≡ true) }
    ensures of_absolute { OnOk result (list_all is_section absolute.now ≡ true) }
{
    let mut gathered = Gathered::new(alloc);
    gathered.add_if(kept, kept.registers, registers)?;
    gathered.add_if(kept, kept.code, code)?;
    gathered.add_if(kept, kept.ram, ram)?;
    gathered.add_stack(kept, stack)?;
    gathered.add_all(kept, absolute)?;
    Ok(gathered)
}

// All pieces of a module with what stands in them.
pub(crate) fn gather(
    alloc: Global,
    kept: Kept,
    parts: &[Part],
    stack: u16,
) -> Result<Gathered, NoMemory>
    requires three { 3 ≤ length parts.now }
    requires count { length (order.pieces_of kept parts.now stack) ≤ 65536 }
    requires parts { module_contents.AreAddable parts.now }
    ensures pieces { IfOk result (λ g. g ≡ module_contents.added_all (order.number_of kept) (order.pieces_of kept parts.now stack) module_contents.empty) }
    ensures sections { OnOk result (list_all is_section parts.now ≡ true) }
{
    match parts {
        [registers, code, ram, absolute @ ..] => gather_all(
            alloc, kept, registers, code, ram, stack, absolute,
        ),
        _ => unreachable!(),
    }
}
