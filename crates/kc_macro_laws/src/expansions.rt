//! What stands for macros, repetitions and conditions, in the words of the language: laws of the rewriting that expansion is,
//! without code; and that each word which they make is a name.
//! It stands on the definitions of the expansion (`kc_macro`).
//! ` REPT 2`, ` NOP`, ` ENDM` is two copies of ` NOP`, by `rept_is_copies`; the LOCAL names `??0001`, `??0002` and on have at
//! most 31 characters.

ghost use Rattle.kc_macro_laws.specs.Course.{RewritingKeepsTheAnswer, ReachedMarksAreOld};
ghost use Rattle.kc_macro_laws.specs.Constructs.{ReptIsCopies, IrpIsCopies, MacroIsDefined, CallIsItsBody, PlainCallIsItsLines, IfElseIsItsPart, IfIsItsPart};
ghost use Rattle.kc_macro_laws.specs.Exits.{ExitmEndsTheInnermost, ExitmInACall, ExitmInARept};
ghost use Rattle.kc_macro_laws.specs.Names.{CallsHaveTheirOwnNames, LocalsHaveTheirOwnNames};

/// At each place of the rewriting the answer is that of the whole source.
pub fn rewriting_keeps_the_answer()
    ensures { RewritingKeepsTheAnswer }
{}

/// At each place that the rewriting of a source comes to, no line ahead comes from a call or repetition that is still to come.
pub fn reached_marks_are_old()
    ensures { ReachedMarksAreOld }
{}

/// A REPT of n, wherever the rewriting comes to it, is n copies of its body, each counted as one more line, where no line of
/// the body is an EXITM.
pub fn rept_is_copies()
    ensures { ReptIsCopies }
{}

/// An IRP is a copy of its body for each argument, which stands there for the parameter.
pub fn irp_is_copies()
    ensures { IrpIsCopies }
{}

/// A definition leaves nothing but the macro.
pub fn macro_is_defined()
    ensures { MacroIsDefined }
{}

/// A call is the body of its macro with the arguments and LOCAL names in it, and one more line, or macros stand too deep, where
/// LOCAL names do not run out.
pub fn call_is_its_body()
    ensures { CallIsItsBody }
{}

/// A call of a macro without parameters, LOCAL, `&` and EXITM is the lines of its body.
pub fn plain_call_is_its_lines()
    ensures { PlainCallIsItsLines }
{}

/// An IF with ELSE is the part that its value keeps, or IFs stand too deep; the other part leaves nothing.
pub fn if_else_is_its_part()
    ensures { IfElseIsItsPart }
{}

/// An IF without ELSE is its part where its value is not 0, else nothing, or IFs stand too deep.
pub fn if_is_its_part()
    ensures { IfIsItsPart }
{}

/// Wherever the rewriting of a source comes to an EXITM, all goes that comes from the innermost call or repetition, and
/// nothing else.
pub fn exitm_ends_the_innermost()
    ensures { ExitmEndsTheInnermost }
{}

/// A call with an EXITM behind lines that come out is these lines.
pub fn exitm_in_a_call()
    ensures { ExitmInACall }
{}

/// A REPT with an EXITM behind lines that come out is these lines, once.
pub fn exitm_in_a_rept()
    ensures { ExitmInARept }
{}

/// Of two calls, one after the other, no LOCAL name has the same name.
pub fn calls_have_their_own_names()
    ensures { CallsHaveTheirOwnNames }
{}

/// In one call no two LOCAL names have the same name.
pub fn locals_have_their_own_names()
    ensures { LocalsHaveTheirOwnNames }
{}
