//! What the passes over lines, macros, statements and names make sure of, so that the check of values has no code for it: laws
//! of definitions, without code.

ghost use Rattle.kc_source_laws.specs.Places.{BytesStandInCode};
ghost use Rattle.kc_source_laws.specs.Reporting.{StatementsAreReported, TextsAreReported};
ghost use Rattle.kc_source_laws.specs.Read.{SourcesAreReadWell};

use crate::sources::lines_are_of_the_text;
use kc_macro_laws::{
    expansion_ends_at_a_place, expansion_keeps_tests, lines_have_names, local_names_are_few,
};
use kc_source_statement::names_stand_on_the_line;

/// Each instruction and all data of a text whose statements have no fault stand in segments of code.
pub fn bytes_stand_in_code()
    ensures { BytesStandInCode }
{}

/// The lines of a text have numbers from 1, and their words are names.
pub fn texts_are_reported()
    ensures { TextsAreReported }
{
    lines_are_of_the_text();
    lines_have_names();
    expansion_ends_at_a_place();
    expansion_keeps_tests();
    local_names_are_few();
}

/// A statement has the number of its line, and its names are words of the line.
pub fn statements_are_reported()
    ensures { StatementsAreReported }
{
    names_stand_on_the_line();
}

/// Where a source and its statements have no fault, an object can report each statement, and each instruction and all data stand
/// in segments of code.
pub fn sources_are_read_well()
    ensures { SourcesAreReadWell }
{
    bytes_stand_in_code();
    texts_are_reported();
    statements_are_reported();
}
