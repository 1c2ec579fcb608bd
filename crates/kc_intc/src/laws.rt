ghost use Rattle.kc_intc.specs.Laws.{GreatestIsGreatest, ChangedSets};

/// The request that is chosen passes its test, and none above it does.
pub fn greatest_is_greatest()
    ensures { GreatestIsGreatest }
{}

/// A set without a request, or with one, is the same at every other request.
pub fn bits_of_changed_sets()
    ensures { ChangedSets }
{}
