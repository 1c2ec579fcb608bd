//! Laws of scheduled units: why the block need not step.

ghost use Rattle.kc_block_units.specs.Scheduler.{IsFurther};
ghost use Rattle.kc_block_units.specs.Laws.{QuietState, QuietSpan, GoesOn, EventIsWorked, LeastSlotIsDue, NoSlotIsDue};
ghost use Rattle.kc_block_units.specs.Rows.{Timer2Row, HsoRow, HsiRow, FurtherRow, FlagRow, ViewsAreLines};
ghost use Rattle.kc_block_units.specs.Events.{TouchesAreKnown, FurtherAgrees, UntouchedAreSilent, EventsJoin};

use kc_extra::Extra;

/// What every further unit keeps.
pub fn extras_are_further<X: Extra>()
    ensures { IsFurther X.further X.agrees }
{}

/// Before each due state a Tick does nothing but let the shown units go on.
pub fn quiet_states_only_rest<X: Extra>()
    ensures state { QuietState X.further X.agrees }
    ensures span { QuietSpan X.further X.agrees }
    ensures stays { GoesOn X.further X.agrees }
{}

/// In the due state of a unit the Tick is worked.
pub fn due_states_are_worked<X: Extra>()
    ensures { EventIsWorked X.further X.agrees }
{}

/// So the least slot time is the next state in which anything is worked.
pub fn least_slots_are_due<X: Extra>()
    ensures due { LeastSlotIsDue X.further X.agrees }
    ensures none { NoSlotIsDue X.further X.agrees }
{}

/// In an event, a unit that the Tick does not touch stands as it is, and shows what the Tick gives.
pub fn untouched_scheduler_stay<X: Extra>()
    ensures timer2 { Timer2Row X.further X.agrees }
    ensures hso { HsoRow X.further X.agrees }
    ensures hsi { HsiRow X.further X.agrees }
    ensures further { FurtherRow X.further X.agrees }
    ensures flag { FlagRow X.further X.agrees }
{}

/// What an event touches is given by edges, due states and the command that fires.
pub fn touches_are_known<X: Extra>()
    ensures known { TouchesAreKnown X.further X.agrees }
    ensures agrees { FurtherAgrees X.further X.agrees }
{}

/// A unit that a Tick does not touch gives nothing.
pub fn untouched_units_are_silent<X>()
    ensures { UntouchedAreSilent X }
{}

/// Deferred units of which each was asked after the Tick, or is one that the Tick does not touch, are those of the next state,
/// and show what the Tick gives.
pub fn events_join<X: Extra>()
    ensures { EventsJoin X.further X.agrees }
{}

/// HSO may be asked and moved under the view of Timer 2 as it is shown.
pub fn views_are_lines<X>()
    ensures { ViewsAreLines X }
{}
