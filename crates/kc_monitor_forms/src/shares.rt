// `PIN LEVEL for SPAN` in shares: from an edge to the level to the next edge, of the time to the edge behind that.
ghost use Rattle.std.specs.Prelude.{◌≡◌, ◌<◌, ◌*◌, ◌^◌, List, ◌∷◌};
ghost use Rattle.kc_monitor_forms.specs.declared.obligation.Point.{Point};
ghost use Rattle.kc_monitor_forms.specs.declared.shares.Kept.TheVariants as kept;
ghost use Rattle.kc_monitor_forms.specs.Shares as spec;
ghost use Rattle.kc_monitor_forms.specs.Tallies.{with_all};
ghost use Rattle.kc_monitor_forms.specs.Machines.{duty_rest};

use crate::obligation::{Obligation, Offset, Point, Spread, good_if};
use crate::tally::Tally;
use kc_rules::{Share, Shares};

/// The last edges, two at most, the later one last.
#[derive(Clone, Copy)]
pub enum Kept {
    Nothing,
    One(Point),
    Two(Point, Point),
}

/// The shares that are asked for, and the last edges.
#[derive(Clone, Copy)]
pub struct Duty {
    pub shares: Shares,
    pub kept: Kept,
}

/// A part of a share, and a number of states.
pub fn product(part: u32, n: u64) -> u128
    ensures value { result ≡ part * n }
    ensures small { result < 2 ^ 96 }
{
    u128::from(part) * u128::from(n)
}

fn is_least(share: Option<Share>, n: u64, whole: u64) -> bool
    ensures { result ≡ spec.is_least share n whole }
{
    match share {
        Some(share) => product(share.num, whole) <= product(share.den, n),
        None => true,
    }
}

fn is_most(share: Option<Share>, n: u64, whole: u64) -> bool
    ensures { result ≡ spec.is_most share n whole }
{
    match share {
        Some(share) => product(share.den, n) <= product(share.num, whole),
        None => true,
    }
}

// Hundredths of a percent, rounded down and up.
fn hundredths(n: u64, whole: u64) -> Option<Spread>
    ensures { result ≡ spec.hundredths n whole }
{
    if whole == 0 || whole < n {
        return None;
    }
    let parts = product(10_000, n);
    let whole = u128::from(whole);
    Some(Spread {
        least: Offset::Plus(parts / whole),
        most: Offset::Plus((parts + (whole - 1)) / whole),
    })
}

fn share_seen(shares: Shares, begin: u64, n: u64, whole: u64) -> Obligation
    ensures { result ≡ spec.share_seen shares begin n whole }
{
    Obligation {
        at: begin,
        answer: good_if(is_least(shares.least, n, whole) && is_most(shares.most, n, whole)),
        seen: Some(Offset::Plus(u128::from(n))),
        spread: hundredths(n, whole),
    }
}

// Counts a period.
#[tactic(auto, unfolding(crate::specs::Tallies::with_all))]
fn close(shares: Shares, life: u64, i: Point, e: Point, j: Point, tally: &mut Tally)
    ensures { tally.new ≡ with_all life tally.old (spec.period shares i e j) }
{
    if i.from {
        let n = e.at.saturating_sub(i.at);
        let whole = j.at.saturating_sub(i.at);
        tally.add(life, share_seen(shares, i.at, n, whole));
    }
}

impl Duty {
    /// No edge has come.
    pub fn new(shares: Shares) -> Duty
        ensures { result ≡ record { shares = shares; kept = kept.Nothing } }
    {
        Duty {
            shares,
            kept: Kept::Nothing,
        }
    }

    /// Sees a point.
    #[tactic(auto, using(crate::proofs::GapLemmas::among_next))]
    pub fn point(&mut self, life: u64, point: Point, tally: &mut Tally)
        ensures { (points : List Point) →
            with_all life tally.old (duty_rest self.old (point ∷ points)) ≡ with_all life tally.new (duty_rest self.new points) }
    {
        if !point.event {
            return;
        }
        match self.kept {
            Kept::Nothing => self.kept = Kept::One(point),
            Kept::One(last) => self.kept = Kept::Two(last, point),
            Kept::Two(before, last) => {
                close(self.shares, life, before, last, point, tally);
                self.kept = Kept::Two(last, point);
            }
        }
    }
}
