ghost use Rattle.std.specs.Prelude.{◌≡◌};
ghost use Rattle.kc_monitor_forms.specs.Tallies as spec;

use crate::obligation::{Answer, Obligation, Offset, Spread};

/// The first bad obligation, or the first open one.
#[derive(Clone, Copy)]
pub struct Found {
    /// The life, counted from 1.
    pub life: u64,
    pub at: u64,
    pub seen: Option<Offset>,
}

/// What became of the obligations of a rule. Each count stands at its last value.
#[derive(Clone, Copy)]
pub struct Tally {
    pub good: u64,
    pub bad: u64,
    pub undecided: u64,
    pub first_bad: Option<Found>,
    pub first_open: Option<Found>,
    pub spread: Option<Spread>,
}

fn first(before: Option<Found>, now: Found) -> Option<Found>
    ensures { result ≡ spec.first_of before now }
{
    match before {
        Some(found) => Some(found),
        None => Some(now),
    }
}

fn found_now(life: u64, what: Obligation) -> Found
    ensures { result ≡ spec.found life what }
{
    Found {
        life,
        at: what.at,
        seen: what.seen,
    }
}

pub fn widened(before: Option<Spread>, more: Option<Spread>) -> Option<Spread>
    ensures { result ≡ spec.widened before more }
{
    match before {
        None => more,
        Some(a) => match more {
            None => before,
            Some(b) => Some(Spread {
                least: a.least.least(b.least),
                most: a.most.most(b.most),
            }),
        },
    }
}

impl Tally {
    /// No obligation.
    pub fn new() -> Tally
        ensures { result ≡ spec.none }
    {
        Tally {
            good: 0,
            bad: 0,
            undecided: 0,
            first_bad: None,
            first_open: None,
            spread: None,
        }
    }

    fn answer(&mut self, life: u64, what: Obligation)
        ensures { self.new ≡ spec.answered life what what.answer self.old }
    {
        match what.answer {
            Answer::Good => self.good = self.good.saturating_add(1),
            Answer::Bad => {
                self.bad = self.bad.saturating_add(1);
                self.first_bad = first(self.first_bad, found_now(life, what));
            }
            Answer::Open => {
                self.undecided = self.undecided.saturating_add(1);
                self.first_open = first(self.first_open, found_now(life, what));
            }
        }
    }

    pub fn widen(&mut self, more: Option<Spread>)
        ensures { self.new ≡ spec.spread_by self.old more }
    {
        self.spread = widened(self.spread, more);
    }

    /// Counts an obligation of a life.
    pub fn add(&mut self, life: u64, what: Obligation)
        ensures { self.new ≡ spec.with_one life self.old what }
    {
        self.answer(life, what);
        self.widen(what.spread);
    }
}
