//! What is known of texts, their modules and their image: laws of definitions, without code.

ghost use Rattle.kc_asm_laws.specs.Exists.{FaultlessAreRead, FaultlessHaveModules};
ghost use Rattle.kc_asm_laws.specs.Images.{FilledAreBytes, FilledIsLinked, LinkedIsFilled, OneImageOfTexts, OneLinkedImageOfTexts};
ghost use Rattle.kc_asm_laws.specs.Modules.{ModulesFit, OneAnswerOfText, OneModuleOfText};

use kc_asm::{linked_image, one_image};
use kc_asm_check::no_fault_no_codes;
use kc_asm_encode::laws::numbers_are_words;
use kc_asm_section::one_module;
use kc_asm_symbols::externals_are_few;
use kc_asm_unlinked_laws::{
    nothing_else_stands, parts_are_writable, pieces_are_few, unlinked_modules_are_linked,
    unlinked_modules_are_unlinked, unlinked_modules_are_whole,
};
use kc_link::{one_image as one_filled_image, placed_have_image};
use kc_macro::laws::expansion_ends;
use kc_source_laws::{sources_are_read_well, statements_are_of_the_text};

/// The numbers of the module of a text have the room of their fields, where the text has fewer than 2^32 bytes.
pub fn modules_fit()
    ensures { ModulesFit }
{
    statements_are_of_the_text();
    sources_are_read_well();
    numbers_are_words();
    nothing_else_stands();
    unlinked_modules_are_unlinked();
    parts_are_writable();
    no_fault_no_codes();
    externals_are_few();
}

/// A text has at most one module.
pub fn one_module_of_text()
    ensures { OneModuleOfText }
{
    one_module();
}

/// A text has one answer at most: its module, or its first fault, which is one and shuts out a module.
pub fn one_answer_of_text()
    ensures { OneAnswerOfText }
{
    one_module_of_text();
    expansion_ends();
}

/// What is filled from the modules of texts, where these are placed, are bytes.
pub fn filled_are_bytes()
    ensures { FilledAreBytes }
{
    numbers_are_words();
    nothing_else_stands();
    statements_are_of_the_text();
    sources_are_read_well();
    unlinked_modules_are_unlinked();
    unlinked_modules_are_whole();
    unlinked_modules_are_linked();
}

/// The image that is filled from the modules of texts is linked: its bytes read as what the statements say.
pub fn filled_is_linked()
    ensures { FilledIsLinked }
{
    filled_are_bytes();
    linked_image();
    sources_are_read_well();
}

/// No other image is linked, where the ranges are within their bounds.
pub fn linked_is_filled()
    ensures { LinkedIsFilled }
{
    filled_are_bytes();
    linked_image();
    one_image();
    placed_have_image();
}

/// Texts have at most one image in the ranges.
pub fn one_image_of_texts()
    ensures { OneImageOfTexts }
{
    one_module_of_text();
    one_filled_image();
}

/// Texts have at most one linked image in ranges within their bounds.
pub fn one_linked_image_of_texts()
    ensures { OneLinkedImageOfTexts }
{
    linked_is_filled();
    one_image_of_texts();
}

/// A text without a fault is read: macros, repetitions and conditions leave lines of which none has a fault.
pub fn faultless_are_read()
    ensures { FaultlessAreRead }
{
    expansion_ends();
}

/// A text without a fault has a module, where there is an unlinked module of what it says.
pub fn faultless_have_modules()
    ensures { FaultlessHaveModules }
{
    statements_are_of_the_text();
    sources_are_read_well();
    pieces_are_few();
    unlinked_modules_are_unlinked();
    unlinked_modules_are_whole();
    parts_are_writable();
    no_fault_no_codes();
}
