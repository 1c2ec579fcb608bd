// What happens in the lives of the run whose trace a source gives.
ghost use Rattle.std.specs.Prelude.{◌≡◌, ◌≢◌, ◌≤◌, ℕ, List, true, false, None, Some, Ok, Err, IfOk, IfErr, IfSome};
ghost use Rattle.kc_events.specs.Grammar.{start_place};
ghost use Rattle.kc_events.specs.Steps.{Seen};
ghost use Rattle.kc_events.specs.Underway.{needs_line};
ghost use Rattle.kc_events.specs.Reporting.{AreToCome, AreStepsOf, IsFirstWrongIn, IsWrongAt, IsAnswer, stop_of, MayGoOn, HasRead, IsInStep, reporting};

use crate::course::{Course, Step};
use crate::trace::{Trace, TraceFault};
use kc_base::NoMemory;
use kc_byte_source::Source;
use kc_stim::Stimuli;
use kc_trace::{Levels, What};
use std::alloc::Global;
use std::marker::Model;
use thiserror::Error;

/// Why no step is reported.
#[derive(Clone, Copy, Debug, PartialEq, Eq, Error)]
pub enum LivesFault {
    /// The line of this number, counted from 1, is the first that no board prints there; or it is lacking.
    #[error("line {0} is no line of a trace")]
    BadTrace(u64),
    #[error("the source has failed")]
    Failed,
    #[error("memory was wanted and not had")]
    NoMemory,
}

// Reads the next line and feeds it: whether there is one.
fn take_line<S: Source + Drop>(
    trace: &mut Trace<S>,
    course: &mut Course,
) -> Result<bool, LivesFault>
    requires in_step { IsInStep (reporting trace.old course.old) }
    requires needs { needs_line course.old.ahead course.old.known ≡ true }
    ensures fed { result ≡ Ok true → HasRead (reporting trace.old course.old) (reporting trace.new course.new) × IsInStep (reporting trace.new course.new) }
    ensures over { result ≡ Ok false → IsAnswer (reporting trace.old course.old) (Ok None) (reporting trace.new course.new) × IsInStep (reporting trace.new course.new) }
    ensures fault { IfErr result (λ fault. IsAnswer (reporting trace.old course.old) (Err fault) (reporting trace.new course.new)) }
    ensures failed { result ≡ Err LivesFault.Failed → IsInStep (reporting trace.new course.new) }
    ensures calm { result ≢ Err LivesFault.Failed → trace.new.faults ≡ trace.old.faults }
    ensures later { trace.old.faults ≤ trace.new.faults }
{
    match trace.next_line() {
        Ok(Some(line)) => {
            course.feed(&line);
            Ok(true)
        }
        Ok(None) => Ok(false),
        Err(TraceFault::BadTrace(line)) => Err(LivesFault::BadTrace(line)),
        Err(TraceFault::Failed) => Err(LivesFault::Failed),
    }
}

// The next step of a run whose trace is read.
fn next_reported<S: Source + Drop>(
    trace: &mut Trace<S>,
    course: &mut Course,
) -> Result<Option<Step>, LivesFault>
    requires { IsInStep (reporting trace.old course.old) }
    ensures answer { IsAnswer (reporting trace.old course.old) result (reporting trace.new course.new) }
    ensures in_step { MayGoOn result → IsInStep (reporting trace.new course.new) }
    ensures calm { result ≢ Err LivesFault.Failed → trace.new.faults ≡ trace.old.faults }
    ensures later { trace.old.faults ≤ trace.new.faults }
{
    for _ in 0..u64::MAX {
        match course.next_step() {
            Ok(Some(step)) => return Ok(Some(step)),
            Ok(None) => {}
            Err(NoMemory) => return Err(LivesFault::NoMemory),
        }
        if !take_line(trace, course)? {
            return Ok(None);
        }
    }
    Err(LivesFault::NoMemory)
}

/// What happens in the lives of the run whose trace a source gives, one step at a time. It keeps the events of one state, and a
/// piece of the text of fixed length.
#[derive(Drop)]
pub struct Lives<S: Source> {
    trace: Trace<S>,
    course: Course,
    stopped: Option<LivesFault>,
}

impl<S: Source> Model for Lives<S> {
    ghost use Rattle.kc_events.specs.Reporting.{Reporting, IsReported};

    ghost Value = { Reporting };

    ghost view = { λ l. record { trace = l.trace; course = l.course; stopped = l.stopped } };

    ghost invariant = { λ l. IsReported (record { trace = l.trace; course = l.course; stopped = l.stopped }) };
}

impl<S: Source + Drop> Lives<S> {
    /// The lives of the run whose trace a source gives, and whose inputs these stimuli drive, of which no step is reported.
    pub fn new(alloc: Global, source: S, stimuli: Stimuli) -> Result<Self, NoMemory>
        ensures steps { IfOk result (λ lives. (steps : List Seen) → AreToCome lives steps → AreStepsOf stimuli (S.to_come source) steps) }
        ensures wrong { IfOk result (λ lives. (line : ℕ) → IsWrongAt lives line → IsFirstWrongIn (start_place 0) (S.to_come source) 0 line) }
        ensures count { IfOk result (λ lives. lives.trace.count ≡ 0) }
        ensures faults { IfOk result (λ lives. lives.trace.faults ≡ S.faults source) }
        ensures stopped { IfOk result (λ lives. lives.stopped ≡ None) }
    {
        Ok(Lives {
            trace: Trace::new(alloc, source)?,
            course: Course::new(alloc, stimuli)?,
            stopped: None,
        })
    }

    /// The next step; none where the run has ended. After a line that no board prints, and once memory has run out, it answers the
    /// same again; after a read that has failed, the next call goes on where it has stopped.
    pub fn next_step(&mut self) -> Result<Option<Step>, LivesFault>
        ensures answer { self.old.stopped ≡ None → IsAnswer self.old result self.new }
        ensures stopped { IfSome self.old.stopped (λ fault. (result ≡ Err fault) × (self.new ≡ self.old)) }
        ensures stops { self.old.stopped ≡ None → self.new.stopped ≡ stop_of result }
        ensures calm { result ≢ Err LivesFault.Failed → self.new.trace.faults ≡ self.old.trace.faults }
        ensures later { self.old.trace.faults ≤ self.new.trace.faults }
    {
        if let Some(fault) = self.stopped {
            return Err(fault);
        }
        match next_reported(&mut self.trace, &mut self.course) {
            Ok(next) => Ok(next),
            Err(LivesFault::Failed) => Err(LivesFault::Failed),
            Err(fault) => {
                self.stopped = Some(fault);
                Err(fault)
            }
        }
    }

    /// The source, given back, with as many faults as its trace has counted.
    pub fn into_source(self) -> S
        ensures { S.faults result ≡ self.trace.faults }
    {
        let Lives { trace, .. } = self;
        trace.into_source()
    }

    /// What has happened in the state that has passed last, in its order.
    pub fn whats(&self) -> &[What]
        ensures { result.now ≡ self.now.course.passed }
    {
        self.course.whats()
    }

    /// The level of each signal, at the end of the state that has passed last, or before state 0 of a life that begins.
    pub fn levels(&self) -> &Levels
        ensures { result.now ≡ self.now.course.levels }
    {
        self.course.levels()
    }
}
