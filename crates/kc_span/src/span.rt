//! How a part of the board goes on by itself over a span of state times, when it next does something, and how it waits as a
//! deferred unit: at a state of its own, until it is caught up and rescheduled. All peripheral units and the machine speak of
//! time in these words.
//! It stands on no other crate, and holds definitions with their laws; of code it has the earlier of two due states alone.
//! `earlier(Some(16), Some(9))` gives `Some(9)`. A timer that is due in state 15 is quiet over the six states from 9 on.

ghost use Rattle.std.specs.Prelude.{◌≡◌, ℕ, ◌+◌, ◌-◌, ◌≤◌, ◌<◌, Option, Some};
ghost use Rattle.kc_span.specs.Span.{Rule, after, QuietFor, IsDue, least_of};

/// Two spans, one after the other, are one span.
pub fn spans_join<D>()
    ensures { (rule : Rule D) (from m n : ℕ) (d : D) →
        after rule from (m + n) d ≡ after rule (from + m) n (after rule from m d) }
{}

/// A span that does not go past the due state is quiet.
pub fn quiet_up_to_due<D>()
    ensures { (rule : Rule D) (from : ℕ) (d : D) (due : Option ℕ) (t : ℕ) → IsDue rule from d due →
        ((u : ℕ) → due ≡ Some u → t ≤ u) → QuietFor rule from (t - from) d }
{}

/// The earlier of two state times, where there is one; of two numbers of states the smaller.
pub fn earlier(a: Option<u64>, b: Option<u64>) -> Option<u64>
    ensures { result ≡ least_of a b }
{
    match (a, b) {
        (None, b) => b,
        (a, None) => a,
        (Some(a), Some(b)) => Some(a.min(b)),
    }
}
