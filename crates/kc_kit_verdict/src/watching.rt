// The lives of a run, step by step, as rules watch them.
ghost use Rattle.std.specs.Prelude.{◌≡◌, None, List, OnOk};
ghost use Rattle.kc_events.specs.Steps.{Seen};
ghost use Rattle.kc_events.specs.Underway.{seen_by};
ghost use Rattle.kc_events.specs.Reporting.{AreToCome, IsWrongAt, IfWrong, Counts};
ghost use Rattle.kc_kit_verdict.specs.Watched.{IsWatched, HasWatched};

use kc_base::NoMemory;
use kc_byte_source::Source;
use kc_events::{Lives, LivesFault, Step};
use kc_monitor::Watch;
use std::alloc::Global;

// Has the rules see a step that was just reported.
fn watch_step<S: Source + Drop>(
    alloc: Global,
    step: Step,
    lives: &Lives<S>,
    watch: &mut Watch,
) -> Result<(), NoMemory>
    ensures { OnOk result (IsWatched watch.old (seen_by step lives.now.course) watch.new) }
{
    match step {
        Step::Begins => watch.begin(alloc, *lives.levels()),
        Step::Passes(at) => watch.state(alloc, at, lives.whats())?,
        Step::Ends(last) => watch.over(last),
    }
    Ok(())
}

/// Has the rules see all lives of a run, to its end.
pub(crate) fn watch_run<S: Source + Drop>(
    alloc: Global,
    lives: &mut Lives<S>,
    watch: &mut Watch,
) -> Result<(), LivesFault>
    requires { lives.old.stopped ≡ None }
    ensures watched { OnOk result ((steps : List Seen) × AreToCome lives.old steps × HasWatched watch.old steps watch.new) }
    ensures wrong { IfWrong result (IsWrongAt lives.old) }
    ensures faults { Counts lives.old.trace.faults result lives.new.trace.faults }
{
    for _ in 0..u64::MAX {
        match lives.next_step() {
            Ok(Some(step)) => {
                if watch_step(alloc, step, lives, watch).is_err() {
                    return Err(LivesFault::NoMemory);
                }
            }
            Ok(None) => return Ok(()),
            Err(fault) => return Err(fault),
        }
    }
    Err(LivesFault::NoMemory)
}
