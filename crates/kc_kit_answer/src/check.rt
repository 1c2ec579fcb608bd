// The command that checks a trace by timing rules.
ghost use Rattle.std.specs.Prelude.{◌≡◌, ◌≤◌, length, map};
ghost use Rattle.kc_base.specs.Limits.{file_limit};
ghost use Rattle.kc_base.specs.Causes.{Rose};
ghost use Rattle.kc_kit_files.specs.Outside.{OnlyRead};
ghost use Rattle.kc_kit_files.specs.Reads.{AllShort};
ghost use Rattle.kc_kit_words.specs.Asked.{asked, IsWithin};
ghost use Rattle.kc_kit_words.specs.Inputs.{inputs_in};
ghost use Rattle.kc_kit_answer.specs.Check.{CheckAnswer};
ghost use Rattle.kc_kit_answer.specs.Checking.{IsChecked, IsVerdictJob, MayCheck};
ghost use Rattle.kc_kit_answer.specs.Jobs.{Prepares};

use crate::job::Job;
use kc_base::{FileFault, NoMemory};
use kc_events::LivesFault;
use kc_kit_files::{Refusal, read_file, unread};
use kc_kit_inputs::{given_for, read_inputs, read_rules, stimuli_in, trace_refusal};
use kc_kit_streams::Streams;
use kc_kit_verdict::{Verdict, check_run};
use kc_kit_words::{Check, Command};
use std::alloc::Global;

/// Reads rules and stimuli, opens a trace, and checks its run by the rules.
pub fn prepare_check<'a, F: Streams>(
    alloc: Global,
    check: &Check<'a>,
    files: &mut F,
) -> Result<Job<'a>, Refusal>
    requires { IsWithin (Command.Check check.now) }
    ensures { Prepares F.held F.read_faults F.write_faults (asked (Command.Check check.now)) files.old result files.new }
{
    let text = match read_file(alloc, check.rules, files) {
        Ok(text) => text,
        Err(refusal) => return Err(refusal),
    };
    let inputs = match read_inputs(alloc, check.inputs, files) {
        Ok(inputs) => inputs,
        Err(refusal) => return Err(refusal),
    };
    match files.open(alloc, check.trace) {
        Ok(stream) => check_stream(alloc, check, &text, &inputs, stream, files),
        Err(fault) => Err(unread(alloc, check.trace, fault)),
    }
}

// The verdict of the rules with a text over the run whose trace is open, with inputs with others. A stream that is not read is
// dropped: none of its reads has failed.
fn check_stream<'a, F: Streams>(
    alloc: Global,
    check: &Check<'a>,
    text: &[u8],
    inputs: &[Vec<u8>],
    stream: F::Stream,
    files: &mut F,
) -> Result<Job<'a>, Refusal>
    requires clock { 1 ≤ check.now.clock }
    requires short { length text.now ≤ file_limit }
    requires inputs { AllShort (map (λ t. t.items) inputs.now) }
    requires calm { F.Stream.faults stream ≡ 0 }
    ensures answer { IsChecked (F.Stream.to_come stream) (MayCheck check.now.trace.now (Rose (F.read_faults files.old) (F.read_faults files.new))
        (λ printed. CheckAnswer check.now.trace.now check.now.rules.now (inputs_in check.now.inputs) check.now.clock printed text.now (map (λ t. t.items) inputs.now))) result }
    ensures only_read { OnlyRead F.held F.read_faults F.write_faults files.old files.new }
{
    let rules = match read_rules(alloc, check.rules, check.clock, text) {
        Ok(rules) => rules,
        Err(refusal) => return Err(refusal),
    };
    let stimuli = match stimuli_in(alloc, given_for(check.inputs, inputs).stimuli) {
        Ok(stimuli) => stimuli,
        Err(refusal) => return Err(refusal),
    };
    match check_run(alloc, rules, check.rules, text, stimuli, stream) {
        Ok((stream, verdict)) => {
            files.close(stream);
            verdict_job(alloc, check.trace, verdict)
        }
        Err(NoMemory) => Err(Refusal::NoMemory),
    }
}

// The job that prints a verdict, or the refusal where the run of a trace with this name could not be read to its end.
fn verdict_job<'a>(
    alloc: Global,
    name: &str,
    verdict: Result<Verdict, LivesFault>,
) -> Result<Job<'a>, Refusal>
    ensures { IsVerdictJob name.now verdict result }
{
    match verdict {
        Ok(verdict) => Ok(Job::Report { verdict }),
        Err(LivesFault::BadTrace(line)) => Err(trace_refusal(alloc, name, line)),
        Err(LivesFault::Failed) => Err(unread(alloc, name, FileFault::Failed)),
        Err(LivesFault::NoMemory) => Err(Refusal::NoMemory),
    }
}
