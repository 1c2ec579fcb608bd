// `E every SPAN`, and `PIN LEVEL for SPAN` in states: from an event that begins something to the next event.
ghost use Rattle.std.specs.Prelude.{◌≡◌, ℕ, ◌-◌, List, [], ◌∷◌, Some, None, if◌then◌else◌};
ghost use Rattle.kc_monitor_forms.specs.declared.obligation.Point.{Point};
ghost use Rattle.kc_monitor_forms.specs.Spans as spans;
ghost use Rattle.kc_monitor_forms.specs.Gaps.{closed, unfinished};
ghost use Rattle.kc_monitor_forms.specs.Tallies.{with_all};
ghost use Rattle.kc_monitor_forms.specs.Machines.{gaps_rest};

use crate::obligation::{Answer, Obligation, Point};
use crate::tally::Tally;
use kc_rules::Span;

/// The last event.
#[derive(Clone, Copy)]
pub struct Gaps {
    pub span: Span,
    pub last: Option<Point>,
}

fn is_least(least: Option<u64>, n: u64) -> bool
    ensures { result ≡ spans.is_least least n }
{
    match least {
        Some(least) => least <= n,
        None => true,
    }
}

fn is_most(most: Option<u64>, n: u64) -> bool
    ensures { result ≡ spans.is_most most n }
{
    match most {
        Some(most) => n <= most,
        None => true,
    }
}

/// Whether a length or a number lies in a span.
pub fn is_within(span: Span, n: u64) -> bool
    ensures { result ≡ spans.is_within span n }
{
    is_least(span.least, n) && is_most(span.most, n)
}

/// Whether what goes on is too long, or too many, already.
pub fn is_past(most: Option<u64>, n: u64) -> bool
    ensures { result ≡ spans.is_past most n }
{
    match most {
        Some(most) => most < n,
        None => false,
    }
}

// Counts what lies between an event and the next.
#[tactic(auto, unfolding(crate::specs::Tallies::with_all))]
fn close(span: Span, life: u64, i: Point, j: Point, tally: &mut Tally)
    ensures { tally.new ≡ with_all life tally.old (closed span i j) }
{
    if i.from {
        let n = j.at.saturating_sub(i.at);
        tally.add(life, Obligation::measured(i.at, n, is_within(span, n)));
    }
}

// Counts what has no next event.
#[tactic(auto, unfolding(crate::specs::Tallies::with_all))]
fn finish(span: Span, life: u64, end: u64, i: Point, tally: &mut Tally)
    ensures { tally.new ≡ with_all life tally.old (unfinished span end i) }
{
    if i.from && is_past(span.most, end.saturating_sub(i.at)) {
        tally.add(life, Obligation::unseen(i.at, Answer::Bad));
    }
}

impl Gaps {
    /// No event has come.
    pub fn new(span: Span) -> Gaps
        ensures { result ≡ record { span = span; last = None } }
    {
        Gaps { span, last: None }
    }

    /// Sees a point.
    #[tactic(auto, using(crate::proofs::GapLemmas::between_next))]
    pub fn point(&mut self, life: u64, point: Point, tally: &mut Tally)
        ensures { (end : ℕ) (points : List Point) →
            with_all life tally.old (gaps_rest self.old end (point ∷ points)) ≡ with_all life tally.new (gaps_rest self.new end points) }
    {
        if !point.event {
            return;
        }
        if let Some(last) = self.last {
            close(self.span, life, last, point, tally);
        }
        self.last = Some(point);
    }

    /// The scope is over; `end` is the first state behind it.
    #[tactic(auto, unfolding(crate::specs::Gaps::between, crate::specs::Tallies::with_all))]
    pub fn over(&self, life: u64, end: u64, tally: &mut Tally)
        ensures { with_all life tally.old (gaps_rest self.now end []) ≡ tally.new }
    {
        if let Some(last) = self.last {
            finish(self.span, life, end, last, tally);
        }
    }
}
