// `never E` and `COUNT E in each life`: one obligation a life.
ghost use Rattle.std.specs.Prelude.{◌≡◌, ℕ, List, [], ◌∷◌, false};
ghost use Rattle.kc_monitor_forms.specs.declared.obligation.Point.{Point};
ghost use Rattle.kc_monitor_forms.specs.Tallies.{with_all};
ghost use Rattle.kc_monitor_forms.specs.Machines.{never_rest, in_life_rest};

use crate::gaps::is_within;
use crate::obligation::{Answer, Obligation, Point};
use crate::tally::Tally;
use kc_rules::Span;

/// Whether such an event has come.
#[derive(Clone, Copy)]
pub struct Never {
    pub come: bool,
}

impl Never {
    /// None has come.
    pub fn new() -> Never
        ensures { result.come ≡ false }
    {
        Never { come: false }
    }

    /// Sees a point.
    #[tactic(auto, unfolding(crate::specs::Never::never, crate::specs::Tallies::with_all))]
    pub fn point(&mut self, life: u64, point: Point, tally: &mut Tally)
        ensures { (first : ℕ) (points : List Point) →
            with_all life tally.old (never_rest self.old first (point ∷ points)) ≡ with_all life tally.new (never_rest self.new first points) }
    {
        if point.event && !self.come {
            self.come = true;
            tally.add(life, Obligation::unseen(point.at, Answer::Bad));
        }
    }

    /// The scope, which has begun in this state, is over.
    #[tactic(auto, unfolding(crate::specs::Never::never, crate::specs::Tallies::with_all))]
    pub fn over(&self, life: u64, first: u64, tally: &mut Tally)
        ensures { with_all life tally.old (never_rest self.now first []) ≡ tally.new }
    {
        if !self.come {
            tally.add(life, Obligation::unseen(first, Answer::Good));
        }
    }
}

/// How many events a life may have, and how many have come.
#[derive(Clone, Copy)]
pub struct InLife {
    pub span: Span,
    pub count: u64,
}

impl InLife {
    /// None has come.
    pub fn new(span: Span) -> InLife
        ensures { result ≡ record { span = span; count = 0 } }
    {
        InLife { span, count: 0 }
    }

    /// Sees a point.
    #[tactic(auto, unfolding(crate::specs::Machines::count_with))]
    pub fn point(&mut self, point: Point)
        ensures { (first : ℕ) (points : List Point) → in_life_rest self.old first (point ∷ points) ≡ in_life_rest self.new first points }
    {
        if point.event {
            self.count = self.count.saturating_add(1);
        }
    }

    /// The scope, which has begun in this state, is over.
    #[tactic(auto, unfolding(crate::specs::Machines::count_with, crate::specs::Tallies::with_all))]
    pub fn over(&self, life: u64, first: u64, tally: &mut Tally)
        ensures { with_all life tally.old (in_life_rest self.now first []) ≡ tally.new }
    {
        let good = is_within(self.span, self.count);
        tally.add(life, Obligation::measured(first, self.count, good));
    }
}
