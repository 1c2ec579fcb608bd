//! Where the first fault of a source stands, and what it is about: laws of definitions, without code.

ghost use Rattle.kc_asm_laws.specs.Lines.{FaultsHaveTheirLines, FaultsStandAtLines};
ghost use Rattle.kc_asm_laws.specs.Standing.{SymbolsStandAtTheirLines};
ghost use Rattle.kc_asm_laws.specs.Symbols.{FaultsOfNamesHaveNames};

use kc_asm_symbols::meanings_are_alike;

/// The first fault of a source stands at one of its lines; that of a missing END alone at the line behind the last.
pub fn faults_stand_at_lines()
    ensures { FaultsStandAtLines }
{}

/// So each fault but that of a missing END is reported with the text of its line.
pub fn faults_have_their_lines()
    ensures { FaultsHaveTheirLines }
{}

/// A fault that is about a name has the name that it is about: the name of a use against the rules, or one that means nothing.
pub fn faults_of_names_have_names()
    ensures { FaultsOfNamesHaveNames }
{
    meanings_are_alike();
}

/// And that name stands at the line of the fault.
pub fn symbols_stand_at_their_lines()
    ensures { SymbolsStandAtTheirLines }
{}
