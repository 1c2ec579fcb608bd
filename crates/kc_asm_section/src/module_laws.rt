ghost use Rattle.kc_asm_section.specs.Count.{FewPieces};
ghost use Rattle.kc_asm_section.specs.Numbers.{AbsoluteAlike, NumbersStand};
ghost use Rattle.kc_asm_section.specs.OneModule.{OneModule};

/// An unlinked module has at most one module: bytes and relocations place by place leave one list of each.
pub fn one_module()
    ensures { OneModule }
{}

/// There is at most one piece more than there are parts: the stack.
pub fn few_pieces()
    ensures { FewPieces }
{}

/// A relocatable part that a public or the target of a relocation names is the piece with its number.
pub fn numbers_stand()
    ensures { NumbersStand }
{}

/// What an absolute part has does not depend on a number of its own.
pub fn absolute_alike()
    ensures { AbsoluteAlike }
{}
