//! A fault has one origin: a law of definitions, without code.

ghost use Rattle.kc_asm_laws.specs.OneOrigin.{OneOrigin};

/// What is found for a fault of a source is one: the line of a body, or none.
pub fn one_origin()
    ensures { OneOrigin }
{}
