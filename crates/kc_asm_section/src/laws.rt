ghost use Rattle.kc_asm_section.specs.Writing.{PutStands, WrittenStands};

/// The relocatable bytes of a statement that is written stand behind what stood, and their line is marked where there are such.
pub fn written_stands()
    ensures { WrittenStands }
{}

/// A relocatable byte that is put stands behind what stood.
pub fn put_stands()
    ensures { PutStands }
{}
