//! What stands in the statements of a source stands in its text, and what the passes over lines, macros, statements and names
//! make sure of: laws of definitions, without code.
//! It stands on the definitions of the expansion, of statements and of names (`kc_macro`, `kc_source`, `kc_asm_symbols`).
//! The statement of ` DCB 'AB'` on line 3 has the number 3, and its string is the bytes 41H and 42H of that line.

ghost use Rattle.kc_source_laws.specs.Lines.{ExpansionKeepsLines, LinesAreOfTheText, StatementsAreOfTheText, StatementsKeepLines};
ghost use Rattle.kc_source_laws.specs.Strings.{StringsStandOnTheLine};

use kc_lex::grammar::lexemes_are_proper;
use kc_macro_laws::{expansion_ends_at_a_place, expansion_keeps_tests};
use kc_source_statement::operands_have_forms;

/// What holds of the text of each token of a line holds of each string of its statement.
pub fn strings_stand_on_the_line()
    ensures { StringsStandOnTheLine }
{
    operands_have_forms();
}

/// The lines of a text are numbered from 1, and their characters are bytes.
pub fn lines_are_of_the_text()
    ensures { LinesAreOfTheText }
{
    lexemes_are_proper();
}

/// The lines that macros, repetitions and conditions leave have numbers of lines of the source, and their characters are
/// bytes where those of the source are.
pub fn expansion_keeps_lines()
    ensures { ExpansionKeepsLines }
{
    expansion_ends_at_a_place();
    expansion_keeps_tests();
}

/// A statement has the number of a line, and its strings are bytes where the characters of the line are.
pub fn statements_keep_lines()
    ensures { StatementsKeepLines }
{
    operands_have_forms();
}

/// The statements of a text have numbers of its lines, and their strings are bytes.
pub fn statements_are_of_the_text()
    ensures { StatementsAreOfTheText }
{
    lines_are_of_the_text();
    expansion_keeps_lines();
    statements_keep_lines();
}
