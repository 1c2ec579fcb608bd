ghost use Rattle.kc_asm_symbols.specs.Alike.{MeaningsAreAlike, MeaningsDoNotDependOnPlaces};
ghost use Rattle.kc_asm_symbols.specs.Few.{ExternalsAreFew};
ghost use Rattle.kc_asm_symbols.specs.Known.{BasesAreKnown};

/// Where the values of all places are alike, names answer alike: the same fault, or values of one base and one tag, and of
/// one number where it is fixed.
pub fn meanings_are_alike()
    ensures { MeaningsAreAlike }
{}

/// Wherever the statements stand, an expression of one has the same fault, or values of one base and one tag, and of one
/// number where it is fixed: so the sizes of statements do not depend on the places of labels.
pub fn meanings_do_not_depend_on_places()
    ensures { MeaningsDoNotDependOnPlaces }
{}

/// What names mean counts from nothing, from address 0, from an external of the module, or from what the place of one of
/// its statements counts from.
pub fn bases_are_known()
    ensures { BasesAreKnown }
{}

/// A source without a fault has at most 16,385 externals: the names of a module, and STACK.
pub fn externals_are_few()
    ensures { ExternalsAreFew }
{}
