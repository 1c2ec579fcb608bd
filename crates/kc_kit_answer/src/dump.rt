// The command that writes a run as a value change dump.
ghost use Rattle.std.specs.Prelude.{◌≡◌, ◌≤◌, map};
ghost use Rattle.kc_base.specs.Causes.{Rose};
ghost use Rattle.kc_kit_files.specs.Outside.{OnlyRead};
ghost use Rattle.kc_kit_files.specs.Reads.{AllShort};
ghost use Rattle.kc_kit_words.specs.Asked.{asked, IsWithin};
ghost use Rattle.kc_kit_words.specs.Inputs.{inputs_in};
ghost use Rattle.kc_kit_answer.specs.Checking.{IsChecked, IsDumpJob, MayCheck};
ghost use Rattle.kc_kit_answer.specs.Dump.{DumpAnswer};
ghost use Rattle.kc_kit_answer.specs.Jobs.{Prepares};

use crate::job::Job;
use kc_base::{FileFault, NoMemory};
use kc_events::LivesFault;
use kc_kit_files::{Refusal, unread};
use kc_kit_inputs::{Driving, driving_in, given_for, read_inputs, trace_refusal};
use kc_kit_running::Output;
use kc_kit_streams::Streams;
use kc_kit_words::{Command, Dump};
use kc_vcd::dump_run;
use std::alloc::Global;

/// Reads what drives the inputs, opens a trace, and makes the dump that is to be written.
pub fn prepare_dump<'a, F: Streams>(
    alloc: Global,
    dump: &Dump<'a>,
    files: &mut F,
) -> Result<Job<'a>, Refusal>
    requires { IsWithin (Command.Dump dump.now) }
    ensures { Prepares F.held F.read_faults F.write_faults (asked (Command.Dump dump.now)) files.old result files.new }
{
    let inputs = match read_inputs(alloc, dump.inputs, files) {
        Ok(inputs) => inputs,
        Err(refusal) => return Err(refusal),
    };
    match files.open(alloc, dump.trace) {
        Ok(stream) => dump_stream(alloc, dump, &inputs, stream, files),
        Err(fault) => Err(unread(alloc, dump.trace, fault)),
    }
}

// The dump of the run whose trace is open, with inputs with these texts. A stream that is not read is dropped: none of its reads has
// failed.
fn dump_stream<'a, F: Streams>(
    alloc: Global,
    dump: &Dump<'a>,
    inputs: &[Vec<u8>],
    stream: F::Stream,
    files: &mut F,
) -> Result<Job<'a>, Refusal>
    requires clock { 1 ≤ dump.now.clock }
    requires inputs { AllShort (map (λ t. t.items) inputs.now) }
    requires calm { F.Stream.faults stream ≡ 0 }
    ensures answer { IsChecked (F.Stream.to_come stream) (MayCheck dump.now.trace.now (Rose (F.read_faults files.old) (F.read_faults files.new))
        (λ printed. DumpAnswer dump.now.trace.now (inputs_in dump.now.inputs) dump.now.out.now dump.now.clock printed (map (λ t. t.items) inputs.now))) result }
    ensures only_read { OnlyRead F.held F.read_faults F.write_faults files.old files.new }
{
    let Driving { stimuli, values } = match driving_in(alloc, given_for(dump.inputs, inputs)) {
        Ok(driving) => driving,
        Err(refusal) => return Err(refusal),
    };
    match dump_run(alloc, dump.clock, stimuli, values, stream) {
        Ok((stream, made)) => {
            files.close(stream);
            dump_job(alloc, dump, made)
        }
        Err(NoMemory) => Err(Refusal::NoMemory),
    }
}

// The job that writes a dump, or the refusal where the run of the trace could not be read to its end.
fn dump_job<'a>(
    alloc: Global,
    dump: &Dump<'a>,
    made: Result<Vec<u8>, LivesFault>,
) -> Result<Job<'a>, Refusal>
    ensures { IsDumpJob dump.now.trace.now dump.now.out.now made result }
{
    match made {
        Ok(bytes) => Ok(Job::Write {
            file: Output {
                name: dump.out,
                bytes,
            },
            lines: None,
            map: None,
        }),
        Err(LivesFault::BadTrace(line)) => Err(trace_refusal(alloc, dump.trace, line)),
        Err(LivesFault::Failed) => Err(unread(alloc, dump.trace, FileFault::Failed)),
        Err(LivesFault::NoMemory) => Err(Refusal::NoMemory),
    }
}
