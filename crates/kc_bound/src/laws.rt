ghost use Rattle.kc_bound.specs.Bounded.{CertifiedIsBounded};
ghost use Rattle.kc_bound.specs.Rising.{NotesStandByAddress};
ghost use Rattle.kc_bound.specs.Steps.{StatesAreMost, StatesAreSome, FoundIsDecoded, TurnIsPaid};

/// An instruction takes at most the states of its way.
pub fn states_are_most()
    ensures { StatesAreMost }
{}

/// An instruction takes a state at least.
pub fn states_are_some()
    ensures { StatesAreSome }
{}

/// What a machine decodes in the ROM is what stands there in its image.
pub fn found_is_decoded<X>()
    ensures { FoundIsDecoded X }
{}

/// A begin is paid by the turns of its loops.
pub fn turn_is_paid()
    ensures { TurnIsPaid }
{}

/// What a certificate shows is so: each pass keeps to its bound.
pub fn certified_is_bounded<X>()
    ensures { CertifiedIsBounded X }
{}

/// The notes of each kind that are read stand by rising address.
pub fn notes_stand_by_address()
    ensures { NotesStandByAddress }
{}
