//! What the listing of a source says of its module: laws of definitions, without code.

ghost use Rattle.kc_asm_laws.specs.Laws.{OneInstructions, OneListing, StretchesFollow};
ghost use Rattle.kc_asm_laws.specs.Shown.{EachByteIsShownOnce};

use kc_asm_check::no_fault_no_codes;
use kc_asm_layout::{sizes_are_numbered, sizes_have_lengths, sizes_stay};
use kc_asm_section::{put_stands, written_stands};

/// A source has one listing with the bytes of a module.
pub fn one_listing()
    ensures { OneListing }
{}

/// The instructions of a source stand in one way.
pub fn one_instructions()
    ensures { OneInstructions }
{}

/// The stretches of the statements of a piece, in the order in which they come out, begin where the piece begins, and each
/// where the one before ends.
pub fn stretches_follow()
    ensures { StretchesFollow }
{
    sizes_are_numbered();
}

/// Each byte of the module of a source is shown by one statement of its listing.
pub fn each_byte_is_shown_once()
    ensures { EachByteIsShownOnce }
{
    written_stands();
    put_stands();
    sizes_stay();
    sizes_have_lengths();
    no_fault_no_codes();
}
