ghost use Rattle.kc_bound_requests.specs.Asking.{HighestIsEntered};
ghost use Rattle.kc_bound_requests.specs.Gaps.{GapsAreShort, WaitsAreShort};
ghost use Rattle.kc_bound_requests.specs.Entries.{EntriesAreShort, RoutinesBegin, LatencyIsShort};

use kc_bound::{found_is_decoded, states_are_most, states_are_some, turn_is_paid};

/// Where interrupts are asked for, the highest that is requested is entered next.
pub fn highest_is_entered<X>()
    ensures { HighestIsEntered X }
{}

/// No time of a pass without interrupts is longer than a certificate shows.
pub fn gaps_are_short<X>()
    ensures { GapsAreShort X }
{
    found_is_decoded::<X>();
    states_are_most();
    states_are_some();
    turn_is_paid();
}

/// No request waits longer, for its entry or for the end of the pass.
pub fn waits_are_short<X>()
    ensures { WaitsAreShort X }
{
    highest_is_entered::<X>();
    gaps_are_short::<X>();
}

/// An entry takes 14 states at most.
pub fn entries_are_short<X>()
    ensures { EntriesAreShort X }
{}

/// Behind its entry the routine of an interrupt begins, at the address of its vector, as a pass does that an interrupt enters.
pub fn routines_begin<X>()
    ensures { RoutinesBegin X }
{}

/// The routine of a request that waits begins at most 14 states later than a certificate shows.
pub fn latency_is_short<X>()
    ensures { LatencyIsShort X }
{
    found_is_decoded::<X>();
    states_are_some();
    highest_is_entered::<X>();
    waits_are_short::<X>();
    entries_are_short::<X>();
    routines_begin::<X>();
}
