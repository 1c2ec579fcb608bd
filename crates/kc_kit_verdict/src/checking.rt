// The run of a trace, checked by rules.
ghost use Rattle.std.specs.Prelude.{IfOk};
ghost use Rattle.kc_events.specs.Reporting.{Counts};
ghost use Rattle.kc_kit_verdict.specs.Verdicts.{IsChecked, IsVerdict, IsPassedOn};

use crate::verdict::{Verdict, verdict_of};
use crate::watching::watch_run;
use kc_base::NoMemory;
use kc_byte_source::Source;
use kc_events::{Lives, LivesFault};
use kc_monitor::Watch;
use kc_rules::Rules;
use kc_stim::Stimuli;
use std::alloc::Global;

/// Checks the run whose trace a source gives, and whose inputs stimuli drive, by the rules of a file with this name and this text. The
/// source comes back, with as many faults as it has counted; where memory runs out before its first read, it is dropped.
pub fn check_run<S: Source + Drop>(
    alloc: Global,
    rules: Rules,
    name: &str,
    text: &[u8],
    stimuli: Stimuli,
    source: S,
) -> Result<(S, Result<Verdict, LivesFault>), NoMemory>
    ensures answer { IfOk result (λ r. IsChecked name.now text.now rules stimuli (S.to_come source) r.1) }
    ensures faults { IfOk result (λ r. Counts (S.faults source) r.1 (S.faults r.0)) }
{
    let mut watch = Watch::new(alloc, rules)?;
    let mut lives = Lives::new(alloc, source, stimuli)?;
    let watched = watch_run(alloc, &mut lives, &mut watch);
    let source = lives.into_source();
    let verdict = run_verdict(alloc, name, text, &watch, watched);
    Ok((source, verdict))
}

// The verdict of rules that have watched a run to its end.
fn run_verdict(
    alloc: Global,
    name: &str,
    text: &[u8],
    watch: &Watch,
    watched: Result<(), LivesFault>,
) -> Result<Verdict, LivesFault>
    ensures { IsPassedOn watched (IsVerdict name.now text.now watch.now.rules.rules watch.now.monitors.items) result }
{
    match watched {
        Ok(()) => match verdict_of(alloc, name, text, watch.rules().rules(), watch.monitors()) {
            Ok(verdict) => Ok(verdict),
            Err(NoMemory) => Err(LivesFault::NoMemory),
        },
        Err(fault) => Err(fault),
    }
}
