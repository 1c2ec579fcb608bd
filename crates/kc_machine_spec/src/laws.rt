ghost use Rattle.kc_machine_spec.specs.Passing.{IdleSpan, PartOfActivity, WholeActivity};
ghost use Rattle.kc_machine_spec.specs.Work.{TouchIsWithinWork};

/// Some states of an activity are the Ticks of their span.
pub fn part_of_activity<X>()
    ensures { PartOfActivity X }
{}

/// All states of an activity are the Ticks of its span, and then its accesses.
pub fn whole_activity<X>()
    ensures { WholeActivity X }
{}

/// Idle states up to the first Tick that is not quiet, and the state of that Tick, are the Ticks of their span.
pub fn idle_span<X>()
    ensures { IdleSpan X }
{}

/// The touch of a run, by which its calls of units are bounded, is at most four times its work.
pub fn touch_is_within_work<X>()
    ensures { TouchIsWithinWork X }
{}
