ghost use Rattle.kc_asm_layout.specs.SizesLaws.{SizesAreNumbered, SizesHaveLengths, SizesStay};

use kc_asm_emit::extents_stay;
use kc_asm_encode::laws::branches_have_lengths;
use kc_asm_symbols::meanings_are_alike;

/// Whatever places are chosen, the size record of a statement has its segment, what its place is divisible by, how far it goes on
/// in each form, and the address of the absolute piece that it opens.
pub fn sizes_stay()
    ensures { SizesStay }
{
    meanings_are_alike();
    extents_stay();
    branches_have_lengths();
}

/// A table of sizes has a size record for each statement.
pub fn sizes_have_lengths()
    ensures { SizesHaveLengths }
{}

/// The pieces of a table of sizes are numbered as they are opened, a segment is in force until another one is opened, and in code
/// places are divisible by 1 or 2.
pub fn sizes_are_numbered()
    ensures { SizesAreNumbered }
{}
