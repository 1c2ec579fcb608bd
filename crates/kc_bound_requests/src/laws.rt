ghost use Rattle.kc_bound_requests.specs.Requests.{NoServiceIsDue, ServiceMayBeDue, ActivitiesChange, FirstSetsAre, RequestsAreOpen, OwnIfNoNmi, ClosedShowsServed};

use kc_bound::{found_is_decoded, states_are_some};

/// Where a request may not be served and NMI does not pend, no entry and no set-up comes next.
pub fn no_service_is_due<X>()
    ensures { NoServiceIsDue X }
{}

/// Where a request may be served, one does come next with some requests.
pub fn service_may_be_due<X>()
    ensures { ServiceMayBeDue X }
{}

/// Each activity of a routine's own changes what is allowed as its instruction says.
pub fn activities_change<X>()
    ensures { ActivitiesChange X }
{}

/// What is allowed first, where a routine is called and where an interrupt enters it.
pub fn first_sets_are()
    ensures { FirstSetsAre }
{}

/// Where a request may be served in a pass, the address is open.
pub fn requests_are_open<X>()
    ensures { RequestsAreOpen X }
{
    found_is_decoded::<X>();
    states_are_some();
}

/// Where no address is open, all that is done from the address on is the routine's own, as long as NMI does not pend.
pub fn own_if_no_nmi<X>()
    ensures { OwnIfNoNmi X }
{
    found_is_decoded::<X>();
    states_are_some();
}

/// What a closed certificate shows is so: requests other than NMI are served from the least open address on, or not at all.
pub fn closed_shows_served<X>()
    ensures { ClosedShowsServed X }
{
    found_is_decoded::<X>();
    states_are_some();
}
