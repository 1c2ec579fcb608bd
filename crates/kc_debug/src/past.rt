// The activities that have finished in the lives of a board.
ghost use Rattle.std.specs.Prelude.{◌≡◌, ◌≤◌, ◌-◌, ◌++◌, if◌then◌else◌, length, drop, take, map, flat_map};
ghost use Rattle.circular_buffer.specs.Buffer.{buffer, keep_last};
ghost use Rattle.kc_trace.specs.Out.{Puts};
ghost use Rattle.kc_trace.specs.Trace.{out_of};
ghost use Rattle.kc_debug.specs.Debugging.{past_in, past_of};
ghost use Rattle.kc_debug.specs.InLives.{activity_line as line_of_activity};

use crate::activities::Begun;
use crate::lines::activity_fields_in_life;
use crate::showing::report_place;
use circular_buffer::HeapCircularBuffer;
use kc_base::Sink;
use kc_debug_script::LineMap;
use kc_trace::TraceOut;

/// An activity that has finished in the life of this number.
#[derive(Clone, Copy, Drop)]
pub struct Past {
    pub life: u16,
    pub begun: Begun,
}

/// How many of so many activities have finished: where one is under way, it is the last that began.
pub fn count_finished(begun: usize, between: bool) -> usize
    ensures count { result ≡ (if between then begun else begun - 1) }
    ensures few { result ≤ begun }
{
    if between {
        begun
    } else {
        begun.saturating_sub(1)
    }
}

/// Keeps the first activities of a life, as many as have finished, for the lives that follow.
pub fn keep_finished(
    past: &mut HeapCircularBuffer<Past>,
    life: u16,
    begun: &HeapCircularBuffer<Begun>,
    finished: usize,
)
    requires { past.old ≡ buffer (keep_last 32 past.old.items) 32 }
    ensures { past.new ≡ buffer (keep_last 32 (past.old.items ++ map (past_in life) (take finished begun.now.items))) 32 }
{
    for index in 0..finished {
        match begun.get(index) {
            Some(activity) => {
                past.push_back(Past {
                    life,
                    begun: *activity,
                });
            }
            None => {}
        }
    }
}

// Reports an activity with its life and its source line.
fn report_past<S: Sink>(lines: &LineMap, past: &Past, out: &mut TraceOut<S>)
    ensures { Puts (out_of S.written S.faults out.old) (line_of_activity lines.now (past_of past.now)) (out_of S.written S.faults out.new) }
{
    out.put_text(activity_fields_in_life(&past.begun, past.life).as_slice());
    report_place(lines, past.begun.pc, out);
    out.put_text(b"\n");
}

/// Reports the activities of earlier lives from one on, oldest first.
pub fn report_earlier<S: Sink>(
    lines: &LineMap,
    past: &HeapCircularBuffer<Past>,
    first: usize,
    out: &mut TraceOut<S>,
)
    ensures { Puts (out_of S.written S.faults out.old) (flat_map (λ p. line_of_activity lines.now (past_of p)) (drop first past.now.items)) (out_of S.written S.faults out.new) }
{
    for index in first..past.len() {
        match past.get(index) {
            Some(activity) => report_past(lines, activity, out),
            None => {}
        }
    }
}

/// Reports the activities of a life from one on, of those that have finished, oldest first.
pub fn report_present<S: Sink>(
    lines: &LineMap,
    life: u16,
    begun: &HeapCircularBuffer<Begun>,
    first: usize,
    finished: usize,
    out: &mut TraceOut<S>,
)
    requires { first ≤ finished }
    ensures { Puts (out_of S.written S.faults out.old) (flat_map (λ b. line_of_activity lines.now (past_of (past_in life b))) (drop first (take finished begun.now.items))) (out_of S.written S.faults out.new) }
{
    for index in first..finished {
        match begun.get(index) {
            Some(activity) => {
                let past = Past {
                    life,
                    begun: *activity,
                };
                report_past(lines, &past, out);
            }
            None => {}
        }
    }
}
