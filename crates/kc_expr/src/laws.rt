ghost use Rattle.kc_expr.specs.Alike.{ExpressionsAreAlike};
ghost use Rattle.kc_expr.specs.Known.{ExpressionsAreKnown};

/// Where all names answer alike, so do all expressions: the same fault, or values of one base and one tag, and of one
/// number where it is fixed.
pub fn expressions_are_alike()
    ensures { ExpressionsAreAlike }
{}

/// The value of an expression counts from nothing, from address 0, or from what one of its names counts from.
pub fn expressions_are_known()
    ensures { ExpressionsAreKnown }
{}
