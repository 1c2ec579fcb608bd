//! What the inverse jumps of generic branches do: a law of definitions, without code.

ghost use Rattle.kc_asm_encode.specs.Opposite.{ConditionsAreOpposite, TestsAreOpposite};

/// The inverse jump of a conditional branch is taken exactly where its jump is not.
pub fn conditions_are_opposite()
    ensures { ConditionsAreOpposite }
{}

/// The inverse jump of a bit test asks for the bit the other way.
pub fn tests_are_opposite()
    ensures { TestsAreOpposite }
{}
