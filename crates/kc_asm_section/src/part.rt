ghost use Rattle.std.specs.Prelude.{◌≡◌, ◌+◌, ◌≤◌, ◌<◌, true, length, OnOk, OnErr};
ghost use Rattle.kc_asm_section.specs.Section as section;

use kc_asm_encode::RelocatableByte;
use kc_base::NoMemory;
use kc_obj_module::SegKind;
use std::alloc::Global;
use std::marker::Model;

/// What stands at an offset of a part.
#[derive(Clone, Copy)]
pub struct PlacedByte {
    pub offset: u16,
    pub relocatable_byte: RelocatableByte,
}

/// The offset where the relocatable bytes of the statement on a line begin.
#[derive(Clone, Copy)]
pub struct Mark {
    pub offset: u16,
    pub line: u32,
}

/// A piece of a module while it is written: its kind, its address if it is absolute, its length in bytes, and what stands
/// at its offsets. What is reserved or passed over has a length and takes no memory.
#[derive(Drop)]
pub struct Part {
    kind: SegKind,
    at: Option<u16>,
    size: u32,
    placed_bytes: Vec<PlacedByte>,
    marks: Vec<Mark>,
}

impl Model for Part {
    ghost use Rattle.std.specs.Prelude.{◌≡◌, true};
    ghost use Rattle.kc_asm_section.specs.Section.{Section, section_of, is_section};

    ghost Value = { Section };

    ghost invariant = { λ p. is_section (section_of p.kind p.at p.size p.placed_bytes.items p.marks.items) ≡ true };

    ghost view = { λ p. section_of p.kind p.at p.size p.placed_bytes.items p.marks.items };
}

impl Part {
    /// An empty piece of a kind, absolute at an address or relocatable.
    pub fn new(alloc: Global, kind: SegKind, at: Option<u16>) -> Part
        ensures { result ≡ section.blank kind at }
    {
        Part {
            kind,
            at,
            size: 0,
            placed_bytes: Vec::new(alloc),
            marks: Vec::new(alloc),
        }
    }

    /// The kind of memory.
    pub fn kind(&self) -> SegKind
        ensures { result ≡ self.now.kind }
    {
        self.kind
    }

    /// The address, where the piece is absolute.
    pub fn at(&self) -> Option<u16>
        ensures { result ≡ self.now.at }
    {
        self.at
    }

    /// The length in bytes, at most 65536.
    pub fn length(&self) -> u32
        ensures length { result ≡ self.now.length }
        ensures section { section.is_section self.now ≡ true }
    {
        self.size
    }

    /// What stands in the piece, by rising offset.
    pub fn placed_bytes(&self) -> &[PlacedByte]
        ensures placed_bytes { result.now ≡ self.now.placed_bytes }
        ensures section { section.is_section self.now ≡ true }
    {
        self.placed_bytes.as_slice()
    }

    /// Where the statements begin, by rising offset.
    pub fn marks(&self) -> &[Mark]
        ensures marks { result.now ≡ self.now.marks }
        ensures section { section.is_section self.now ≡ true }
    {
        self.marks.as_slice()
    }

    /// Puts a relocatable byte at the end. A refusal changes nothing.
    pub fn push(&mut self, relocatable_byte: RelocatableByte) -> Result<(), NoMemory>
        requires { self.old.length < 65536 }
        ensures ok { OnOk result (self.new ≡ section.put relocatable_byte self.old) }
        ensures err { OnErr result (self.new ≡ self.old) }
    {
        let offset = self.size as u16;
        self.placed_bytes.push(PlacedByte {
            offset,
            relocatable_byte,
        })?;
        self.size += 1;
        Ok(())
    }

    /// Leaves out some bytes at the end: they are reserved or passed over.
    pub fn skip(&mut self, count: u32)
        requires { self.old.length + count ≤ 65536 }
        ensures { self.new ≡ section.skipped count self.old }
    {
        self.size += count;
    }

    // Puts the first relocatable byte of a statement at the end.
    fn begin(&mut self, line: u32, relocatable_byte: RelocatableByte) -> Result<(), NoMemory>
        requires { self.old.length < 65536 }
        ensures { OnOk result (self.new ≡ section.begun line relocatable_byte self.old) }
    {
        let offset = self.size as u16;
        self.placed_bytes.push(PlacedByte {
            offset,
            relocatable_byte,
        })?;
        self.size += 1;
        self.marks.push(Mark { offset, line })?;
        Ok(())
    }

    // Puts relocatable bytes at the end.
    #[tactic(auto, unfolding(crate::specs::Section::laid))]
    fn append(&mut self, relocatable_bytes: &[RelocatableByte]) -> Result<(), NoMemory>
        requires { self.old.length + length relocatable_bytes.now ≤ 65536 }
        ensures { OnOk result (self.new ≡ section.laid relocatable_bytes.now self.old) }
    {
        let mut left = relocatable_bytes;
        while let [first, rest @ ..] = left {
            self.push(*first)?;
            left = rest;
        }
        Ok(())
    }

    /// Puts the relocatable bytes of the statement on a line at the end: the line is marked where there is at least one. After
    /// a refusal some of them may stand.
    pub fn write(
        &mut self,
        line: u32,
        relocatable_bytes: &[RelocatableByte],
    ) -> Result<(), NoMemory>
        requires { self.old.length + length relocatable_bytes.now ≤ 65536 }
        ensures { OnOk result (self.new ≡ section.written line relocatable_bytes.now self.old) }
    {
        match relocatable_bytes {
            [] => Ok(()),
            [first, rest @ ..] => {
                self.begin(line, *first)?;
                self.append(rest)
            }
        }
    }
}
