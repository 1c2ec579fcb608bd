//! Texts without a fault have modules, and these an image: laws of definitions, without code.

ghost use Rattle.kc_asm_laws.specs.Made.{TextsAreAnswered, TextsAreLinked, TextsHaveModules};

use crate::modules::{faultless_are_read, faultless_have_modules};
use kc_asm_symbols::externals_are_few;
use kc_link::{placed_have_image, placed_have_lines};
use kc_macro::laws::expansion_ends;
use kc_source::names_are_clear;

/// A text without a fault has a module: there are statements that its lines say, an unlinked module that they are, and the module
/// of that unlinked module.
pub fn texts_have_modules()
    ensures { TextsHaveModules }
{
    faultless_are_read();
    faultless_have_modules();
    externals_are_few();
    names_are_clear();
}

/// Each text has an answer: its module, or its first fault.
pub fn texts_are_answered()
    ensures { TextsAreAnswered }
{
    expansion_ends();
    faultless_have_modules();
    externals_are_few();
    names_are_clear();
}

/// Texts without a fault have modules, and where no rule of the linker is broken these have an image and a line map.
pub fn texts_are_linked()
    ensures { TextsAreLinked }
{
    texts_have_modules();
    placed_have_image();
    placed_have_lines();
}
