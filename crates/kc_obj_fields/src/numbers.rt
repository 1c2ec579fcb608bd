// Relocations that were read, and the bytes under them.
ghost use Rattle.std.specs.Prelude.{◌≡◌, ◌++◌, ◌∷◌, [], OnOk, OnErr};
ghost use Rattle.std.specs.HashSet.{IsEmpty};
ghost use Rattle.kc_obj_fields.specs.Records.{is_under};
ghost use Rattle.kc_obj_fields.specs.Places.{Covers, CoversNumber};

use kc_base::NoMemory;
use kc_obj_module::{Fixup, width};
use std::alloc::Global;
use std::collections::HashSet;
use std::marker::Model;

// Bytes by their piece and offset.
type Covered = HashSet<(u16, u32)>;

fn cover(under: &mut Covered, piece: u16, offset: u32) -> Result<(), NoMemory>
    ensures { OnOk result (Covers under.old under.new piece offset) }
{
    under.insert((piece, offset))?;
    Ok(())
}

// Puts the one or two bytes under a relocation.
fn cover_number(under: &mut Covered, fixup: Fixup) -> Result<(), NoMemory>
    ensures { OnOk result (CoversNumber under.old under.new fixup) }
{
    let offset = fixup.offset as u32;
    cover(under, fixup.piece, offset)?;
    if width(fixup.kind) == 2 {
        cover(under, fixup.piece, offset + 1)
    } else {
        Ok(())
    }
}

fn put_number(fixups: &mut Vec<Fixup>, under: &mut Covered, fixup: Fixup) -> Result<(), NoMemory>
    ensures under { OnOk result (CoversNumber under.old under.new fixup) }
    ensures fixups { OnOk result (fixups.new.items ≡ fixups.old.items ++ fixup ∷ []) }
{
    cover_number(under, fixup)?;
    fixups.push(fixup)?;
    Ok(())
}

fn forget(fixups: &mut Vec<Fixup>, under: &mut Covered)
    ensures fixups { fixups.new.items ≡ [] }
    ensures under { IsEmpty under.new }
{
    fixups.clear();
    under.clear();
}

/// Relocations that were read, in the order of their records.
#[derive(Drop)]
pub struct Numbers {
    fixups: Vec<Fixup>,
    under: Covered,
}

impl Model for Numbers {
    ghost use Rattle.std.specs.Prelude.{List};
    ghost use Rattle.kc_obj_module.specs.declared.parts.Fixup.{Fixup};
    ghost use Rattle.kc_obj_fields.specs.Places.{HasCovered};

    ghost Value = { List Fixup };

    ghost view = { λ n. n.fixups.items };

    ghost invariant = { λ n. HasCovered n.under n.fixups.items };
}

impl Numbers {
    /// No relocations.
    pub fn new(alloc: Global) -> Numbers
        ensures { result ≡ [] }
    {
        Numbers {
            fixups: Vec::new(alloc),
            under: HashSet::new(alloc),
        }
    }

    /// Adds a relocation. After an error nothing is left.
    pub fn push(&mut self, fixup: Fixup) -> Result<(), NoMemory>
        ensures ok { OnOk result (self.new ≡ self.old ++ fixup ∷ []) }
        ensures err { OnErr result (self.new ≡ []) }
    {
        match put_number(&mut self.fixups, &mut self.under, fixup) {
            Ok(()) => Ok(()),
            Err(error) => {
                forget(&mut self.fixups, &mut self.under);
                Err(error)
            }
        }
    }

    /// Whether a byte is under a relocation.
    pub fn covers(&self, piece: u16, offset: u32) -> bool
        ensures { result ≡ is_under self.now piece offset }
    {
        self.under.contains(&(piece, offset))
    }

    /// The relocations, lent.
    pub fn as_slice(&self) -> &[Fixup]
        ensures { result.now ≡ self.now }
    {
        self.fixups.as_slice()
    }

    /// The relocations, handed over.
    pub fn into_fixups(self) -> Vec<Fixup>
        ensures { result.items ≡ self }
    {
        let Numbers {
            fixups,
            under: _under,
        } = self;
        fixups
    }
}
