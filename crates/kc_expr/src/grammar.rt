ghost use Rattle.std.specs.Prelude.{List};
ghost use Rattle.kc_lex.specs.declared.token.Token.{Token};
ghost use Rattle.kc_expr.specs.Grammar.{parsed};
ghost use Rattle.kc_expr.specs.Derives.{IsLongest};

/// What `parse` reads is the longest expression at the beginning of the tokens by the rules of the grammar, and its one
/// tree; where it reads none, no prefix of the tokens is an expression.
pub fn readings_are_longest()
    ensures { (tokens : List Token) → IsLongest (parsed tokens) tokens }
{}
