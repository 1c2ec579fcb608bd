// Laws of definitions, without code: the image that is linked from the modules of sources decodes to their statements, each operation
// at its place, and no other image does.
ghost use Rattle.kc_asm.specs.Linked.{LinkedImage, OneImage, OneImageOfSources, StatementsHaveLocations};
ghost use Rattle.kc_asm.specs.Worked.{WorkedSource};

use kc_asm_check::no_fault_no_codes;
use kc_asm_encode::laws::{
    filled_is_spelled, numbers_are_words, operations_are_instructions, pointers_are_even,
    settled_is_sound,
};
use kc_asm_layout::sizes_have_lengths;
use kc_asm_section::{numbers_stand, one_module};
use kc_asm_unlinked_laws::{
    absolute_parts_stand, held_is_read, nothing_else_stands, numbers_fit, statements_stand,
    unlinked_modules_are_linked, unlinked_modules_are_settled, unlinked_modules_are_unlinked,
    unlinked_modules_are_whole,
};
use kc_code::{one_spelling, spelled_is_decoded};
use kc_source_statement::statements_are_formed;

/// The image that is filled from the modules of sources without a fault, where their pieces are placed, is linked: at the
/// address of each statement it decodes to the instructions of that statement, or has its data, and it is FFH where no
/// statement has a byte.
pub fn linked_image()
    ensures { LinkedImage }
{
    statements_are_formed();
    no_fault_no_codes();
    unlinked_modules_are_unlinked();
    unlinked_modules_are_whole();
    unlinked_modules_are_settled();
    statements_stand();
    nothing_else_stands();
    numbers_stand();
    unlinked_modules_are_linked();
    held_is_read();
    numbers_fit();
    absolute_parts_stand();
    filled_is_spelled();
    settled_is_sound();
    operations_are_instructions();
    pointers_are_even();
    numbers_are_words();
    spelled_is_decoded();
}

/// At most one image is linked, since no two byte strings decode to the same instruction.
pub fn one_image()
    ensures { OneImage }
{
    one_spelling();
}

/// Sources have at most one image in the ranges: it does not matter which unlinked modules, modules and places are reported.
pub fn one_image_of_sources()
    ensures { OneImageOfSources }
{
    one_spelling();
    one_module();
}

/// Each statement of a source has a location, so that the image has what each of them says.
pub fn statements_have_locations()
    ensures { StatementsHaveLocations }
{
    sizes_have_lengths();
}

/// A worked source: a jump that stands first in the code, where that stands at 2080H.
pub fn worked_source()
    ensures { WorkedSource }
{}
