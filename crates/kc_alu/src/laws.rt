//! Shifts by many places and normalizing, given by single places: laws of definitions, without code.

ghost use Rattle.kc_alu.specs.Laws.{ShiftsGoByPlaces, NormalizingGoesByPlaces, NormalizingIsOne};

/// A shift by n places is n shifts by one place, for each kind, width, value and n: C is the last bit that goes out, ST of a
/// shift to the right shows a 1 that went out before it, V of a shift to the left of a place that changed the top bit.
pub fn shifts_go_by_places()
    ensures { ShiftsGoByPlaces }
{}

/// Normalizing is as many shifts to the left by one place, up to the first after which the top bit is 1, or 31 of them; Z and
/// N are by the result, C is 0, and the other flags are kept.
pub fn normalizing_goes_by_places()
    ensures { NormalizingGoesByPlaces }
{}

/// No other number of places is that of normalizing.
pub fn normalizing_is_one()
    ensures { NormalizingIsOne }
{}
