//! The unlinked module that the statements of a source are, as a definition, and laws of it, without code: where a source has
//! no fault, each number fits its bytes, and each byte is one of a statement at its place, or FFH in a gap. An image that is filled
//! from the modules of unlinked modules holds each of their bytes at its place, filled under the bases of its module. They stand on
//! `kc_asm_check` and `kc_link`. Example: `CSEG AT 2080H`, `NOP`, `ORG 2084H`, `NOP` give FD FF FF FF FD; a worked unlinked
//! module, with its bytes in an image, stands in `specs/Worked.antt`.
#![tactic(auto)]

ghost use Rattle.kc_asm_unlinked_laws.specs.Few.{PiecesAreFew};
ghost use Rattle.kc_asm_unlinked_laws.specs.Growing.{FirstsStay, NoMisfitStays};
ghost use Rattle.kc_asm_unlinked_laws.specs.Linked.{AbsolutePartsStand, UnlinkedModulesAreLinked, HeldIsRead, NumbersFit};
ghost use Rattle.kc_asm_unlinked_laws.specs.Sound.{UnlinkedModulesAreUnlinked, UnlinkedModulesAreSettled, UnlinkedModulesAreWhole};
ghost use Rattle.kc_asm_unlinked_laws.specs.Stood.{NothingElseStands, StatementsStand};
ghost use Rattle.kc_asm_unlinked_laws.specs.Worked.{WorkedUnlinked};
ghost use Rattle.kc_asm_unlinked_laws.specs.Writable.{PartsAreWritable};

use kc_asm_check::no_fault_no_codes;
use kc_asm_emit::{contents_are_paired, contents_are_relocatables};
use kc_asm_layout::{sizes_have_lengths, sizes_stay};
use kc_asm_section::{put_stands, written_stands};
use kc_asm_symbols::bases_are_known;
use kc_link::{absolute_pieces_stand, relocations_fit};

/// Where a source has no fault, what its statements write has room in its pieces.
pub fn parts_are_writable()
    ensures { PartsAreWritable }
{
    sizes_stay();
    sizes_have_lengths();
    no_fault_no_codes();
}

/// A module has at most one piece more than its source has statements. So a source of at most 65,535 lines behind expansion has
/// at most 65,536 pieces, as many as an object can number.
pub fn pieces_are_few()
    ensures { PiecesAreFew }
{
    bases_are_known();
    contents_are_relocatables();
}

/// The unlinked module of a source without a fault, whose statements an object can report and whose bytes stand in code, can be made into a
/// module, where that has at most 65,536 pieces.
pub fn unlinked_modules_are_unlinked()
    ensures { UnlinkedModulesAreUnlinked }
{
    written_stands();
    contents_are_paired();
    contents_are_relocatables();
    bases_are_known();
    sizes_stay();
    sizes_have_lengths();
    no_fault_no_codes();
}

/// The unlinked module of a source without a fault is written by whole numbers: the relocatable bytes of each part stand by rising offset within
/// it, and each second byte of a number stands behind its first one.
pub fn unlinked_modules_are_whole()
    ensures { UnlinkedModulesAreWhole }
{
    written_stands();
    put_stands();
    firsts_stay();
    contents_are_paired();
    sizes_stay();
    sizes_have_lengths();
    no_fault_no_codes();
}

/// In the unlinked module of a source without a fault each number that depends on no base fits its bytes.
pub fn unlinked_modules_are_settled()
    ensures { UnlinkedModulesAreSettled }
{
    written_stands();
    put_stands();
    no_misfit_stays();
    sizes_stay();
    sizes_have_lengths();
    no_fault_no_codes();
}

/// In the unlinked module of a source without a fault the relocatable bytes of each statement stand one after the other from its place on.
pub fn statements_stand()
    ensures { StatementsStand }
{
    written_stands();
    sizes_stay();
    sizes_have_lengths();
    no_fault_no_codes();
}

/// In the unlinked module of a source without a fault each relocatable byte is one of a statement, at its place, or FFH that fills a gap.
pub fn nothing_else_stands()
    ensures { NothingElseStands }
{
    sizes_stay();
    sizes_have_lengths();
    no_fault_no_codes();
}

// ---- the image that is filled from unlinked modules

/// Where no rule of the linker is broken, each absolute part of an unlinked module stands at its address.
pub fn absolute_parts_stand()
    ensures { AbsolutePartsStand }
{
    absolute_pieces_stand();
}

/// The image that is filled from the modules of unlinked modules has each relocatable byte of each unlinked module at its place, filled under the bases
/// of its module, and FFH where no unlinked module has a relocatable byte.
pub fn unlinked_modules_are_linked()
    ensures { UnlinkedModulesAreLinked }
{
    absolute_pieces_stand();
}

/// Relocatable bytes that stand one after the other in a part of an unlinked module are read one after the other, filled, from their place on in
/// an image that holds the unlinked module.
pub fn held_is_read()
    ensures { HeldIsRead }
{}

/// Where no rule of the linker is broken, each number of each unlinked module fits its bytes.
pub fn numbers_fit()
    ensures { NumbersFit }
{
    absolute_pieces_stand();
    relocations_fit();
}

/// In a part at whose end paired relocatable bytes are written each second byte of a number stands behind its first one.
pub fn firsts_stay()
    ensures { FirstsStay }
{}

/// A part at whose end relocatable bytes without misfits are written has no misfit.
pub fn no_misfit_stays()
    ensures { NoMisfitStays }
{}

/// Where the parts of a worked unlinked module stand, and some of its bytes.
pub fn worked_unlinked()
    ensures { WorkedUnlinked }
{}
