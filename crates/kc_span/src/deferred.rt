//! Units that stand each at a state of their own, while the board shows them all in the present state: what a deferred unit is,
//! and the laws by which it goes on, waits, is caught up forward and rescheduled. This crate holds definitions and their
//! laws alone.

ghost use Rattle.kc_span.specs.Laws.{Next, Calm, Event, Waits, Lent, CaughtUp, CaughtUpShows, Asked, AskedShows, Alike, AlikeShows, PassesOver};

/// What is shown of a deferred unit goes on by one Tick from state to state.
pub fn next_state<D>()
    ensures { Next D }
{}

/// Before its due state each Tick of a deferred unit is quiet.
pub fn calm_before_due<D>()
    ensures { Calm D }
{}

/// The Tick of the present state is quiet exactly where that is not the due state.
pub fn event_at_due<D>()
    ensures { Event D }
{}

/// The present state may go on up to the due state.
pub fn waits_up_to_due<D>()
    ensures { Waits D }
{}

/// A unit that is lent stands where each Tick up to the present state is quiet.
pub fn lent_quietly<D>()
    ensures { Lent D }
{}

/// Caught up forward to the present state, a deferred unit keeps its due state: it is not rescheduled.
pub fn caught_up_forward<D>()
    ensures due { CaughtUp D }
    ensures shows { CaughtUpShows D }
{}

/// What was asked in the present state makes a deferred unit that stands there.
pub fn rescheduled<D>()
    ensures due { Asked D }
    ensures shows { AskedShows D }
{}

/// Rules that do the same from where a deferred unit stands have the same deferred units, and show the same of them.
pub fn alike_rules<D>()
    ensures due { Alike D }
    ensures shows { AlikeShows D }
{}

/// A unit that is quiet in the present state stands as it is in the next.
pub fn passes_over<D>()
    ensures { PassesOver D }
{}
