// `PIN LEVEL and PIN LEVEL D apart`.
ghost use Rattle.std.specs.Prelude.{◌≡◌, ◌-◌, not, ◌&&◌, option_to_list};
ghost use Rattle.kc_monitor_forms.specs.Apart.{both};
ghost use Rattle.kc_monitor_forms.specs.Tallies.{with_all};
ghost use Rattle.kc_monitor_forms.specs.Sides as spec;

use crate::obligation::{Answer, Obligation, Offset, Spread};
use crate::tally::Tally;

/// Whether one of two signals has its level, and the last state in which it had it before.
#[derive(Clone, Copy)]
pub struct Side {
    on: bool,
    last: Option<u64>,
}

/// Two signals that are to have their levels apart.
#[derive(Clone, Copy)]
pub struct Apart {
    pub distance: u64,
    one: Side,
    other: Side,
}

impl Side {
    fn off() -> Side
        ensures { result ≡ spec.off }
    {
        Side {
            on: false,
            last: None,
        }
    }

    // As it is in a state.
    fn at(self, at: u64, on: bool) -> Side
        ensures { result ≡ spec.side_at self at on }
    {
        let last = if self.on && !on {
            Some(at.saturating_sub(1))
        } else {
            self.last
        };
        Side { on, last }
    }
}

fn together(at: u64) -> Obligation
    ensures { result ≡ both at }
{
    Obligation {
        at,
        answer: Answer::Bad,
        seen: Some(Offset::Minus(1)),
        spread: Some(Spread {
            least: Offset::Minus(1),
            most: Offset::Minus(1),
        }),
    }
}

// What is asked where a signal comes to its level.
fn met(distance: u64, at: u64, other: Side) -> Option<Obligation>
    ensures { option_to_list result ≡ spec.met distance at other }
{
    if other.on {
        return Some(together(at));
    }
    match other.last {
        Some(last) => {
            let n = at.saturating_sub(last).saturating_sub(1);
            Some(Obligation::measured(at, n, distance <= n))
        }
        None => None,
    }
}

// Counts what is asked of a signal, before and in a state, by the other one in it.
#[tactic(auto, unfolding(crate::specs::Tallies::with_all))]
fn ask(distance: u64, life: u64, at: u64, before: Side, now: Side, other: Side, tally: &mut Tally)
    ensures { tally.new ≡ with_all life tally.old (spec.asked_of distance at before now other) }
{
    if now.on && !before.on {
        match met(distance, at, other) {
            Some(what) => tally.add(life, what),
            None => {}
        }
    }
}

impl Apart {
    /// Neither has had its level.
    pub fn new(distance: u64) -> Apart
        ensures { result ≡ record { distance = distance; one = spec.off; other = spec.off } }
    {
        Apart {
            distance,
            one: Side::off(),
            other: Side::off(),
        }
    }

    /// A state comes, in which each has its level or not.
    #[tactic(auto, using(crate::proofs::TallyLemmas::with_all_append))]
    pub fn state(&mut self, life: u64, at: u64, one: bool, other: bool, tally: &mut Tally)
        ensures kept { self.new ≡ record self.old { one = spec.side_at self.old.one at one; other = spec.side_at self.old.other at other } }
        ensures reported { tally.new ≡ with_all life tally.old (spec.asked_in self.old.distance at self.old.one one self.old.other other) }
    {
        let one_now = self.one.at(at, one);
        let other_now = self.other.at(at, other);
        ask(self.distance, life, at, self.one, one_now, other_now, tally);
        ask(
            self.distance,
            life,
            at,
            self.other,
            other_now,
            one_now,
            tally,
        );
        self.one = one_now;
        self.other = other_now;
    }
}
