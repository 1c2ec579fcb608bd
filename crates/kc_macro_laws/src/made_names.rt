//! Each word that macros, repetitions and conditions make is a name: laws of definitions, without code.

ghost use Rattle.kc_macro_laws.specs.Ends.{ExpansionEndsAtAPlace};
ghost use Rattle.kc_macro_laws.specs.Kept.{ExpansionKeepsTests};
ghost use Rattle.kc_macro_laws.specs.MadeNames.{ExpansionMakesNames, LinesHaveNames, LocalNamesAreFew};

use kc_lex::grammar::lexemes_are_proper;

/// An expansion without a fault ends at a place.
pub fn expansion_ends_at_a_place()
    ensures { ExpansionEndsAtAPlace }
{}

/// What holds of each token of a source, and of each name that is made, holds of each token that comes out.
pub fn expansion_keeps_tests()
    ensures { ExpansionKeepsTests }
{}

/// Each word of a text is a name.
pub fn lines_have_names()
    ensures { LinesHaveNames }
{
    lexemes_are_proper();
}

/// Names for LOCAL names do not run out: those that an expansion without a fault gives have at most 31 characters.
pub fn local_names_are_few()
    ensures { LocalNamesAreFew }
{}

/// Each word that comes out is a name where those of the source are.
pub fn expansion_makes_names()
    ensures { ExpansionMakesNames }
{}
