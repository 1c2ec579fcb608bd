ghost use Rattle.kc_asm_emit.specs.Bases.{ContentsAreRelocatableBytes};
ghost use Rattle.kc_asm_emit.specs.Laws.{ExtentsStay};
ghost use Rattle.kc_asm_emit.specs.Pairing.{ContentsArePaired};

use kc_asm_encode::laws::{length_stays, relocatables_are_paired};

/// How far a statement goes on depends neither on where it stands nor on numbers that are not fixed.
pub fn extents_stay()
    ensures { ExtentsStay }
{
    length_stays();
}

/// The second byte of a number stands behind its first one, and nowhere else.
pub fn contents_are_paired()
    ensures { ContentsArePaired }
{
    relocatables_are_paired();
}

/// Relocatable bytes count from nothing that the names do not count from, and each number has a kind and stands where it may.
pub fn contents_are_relocatables()
    ensures { ContentsAreRelocatableBytes }
{}
