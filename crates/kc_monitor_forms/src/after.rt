// `after each F, [no] E within [A to] B`.
ghost use Rattle.std.specs.Prelude.{◌≡◌, ◌∷◌, ◌++◌, [], ℕ, List, ◌<◌, ◌≤◌, Some, None, true, false, length, OnOk, IsTrue};
ghost use Rattle.kc_monitor_forms.specs.declared.obligation.Point.{Point};
ghost use Rattle.kc_monitor_forms.specs.After as after;
ghost use Rattle.kc_monitor_forms.specs.Machines as spec;

use crate::obligation::{Answer, Obligation, Offset, Point, Spread, good_if};
use crate::tally::{Found, Tally};
use kc_base::NoMemory;
use std::alloc::Global;
use std::collections::VecDeque;

/// The first and the last of what is reported already, since it has waited too long, and of which the event may still be seen.
#[derive(Clone, Copy)]
pub struct Late {
    pub first: u64,
    pub last: u64,
}

/// The states of what waits for its event.
#[derive(Drop)]
pub struct After {
    pub none: bool,
    pub least: u64,
    pub most: u64,
    pub waiting: VecDeque<u64>,
    pub late: Option<Late>,
}

// An answer, or where none was wanted the other one.
fn wanted(none: bool, came: bool) -> bool
    ensures { result ≡ after.wanted none came }
{
    if none { !came } else { came }
}

// What is known of what has no event up to the end of the scope.
fn left_over(none: bool, most: u64, end: u64, at: u64) -> Answer
    ensures { result ≡ spec.left_over none most end at }
{
    if most < end.saturating_sub(at) {
        good_if(none)
    } else {
        Answer::Open
    }
}

fn later(late: Option<Late>, at: u64) -> Option<Late>
    ensures { result ≡ spec.later late at }
{
    match late {
        Some(late) => Some(Late {
            first: late.first,
            last: at,
        }),
        None => Some(Late {
            first: at,
            last: at,
        }),
    }
}

fn patched(life: u64, at: u64, first: Option<Found>) -> Option<Found>
    ensures { result ≡ spec.patched life at first }
{
    match first {
        Some(found) => {
            if found.life == life && found.seen.is_none() {
                Some(Found {
                    life: found.life,
                    at: found.at,
                    seen: Some(Offset::Plus(u128::from(at.saturating_sub(found.at)))),
                })
            } else {
                first
            }
        }
        None => None,
    }
}

// The event of what was late is seen.
fn see_late(life: u64, late: Late, at: u64, tally: &mut Tally)
    ensures { tally.new ≡ spec.with_late life late at tally.old }
{
    tally.first_bad = patched(life, at, tally.first_bad);
    tally.widen(Some(Spread {
        least: Offset::Plus(u128::from(at.saturating_sub(late.last))),
        most: Offset::Plus(u128::from(at.saturating_sub(late.first))),
    }));
}

impl After {
    /// Nothing waits.
    pub fn new(alloc: Global, none: bool, least: u64, most: u64) -> After
        ensures asked { (result.none ≡ none) × (result.least ≡ least) × (result.most ≡ most) }
        ensures empty { (result.waiting.items ≡ []) × (result.late ≡ None) }
    {
        After {
            none,
            least,
            most,
            waiting: VecDeque::new(alloc),
            late: None,
        }
    }

    // What waits first.
    fn front(&self) -> Option<u64>
        ensures { result ≡ spec.front_of self.now.waiting.items }
    {
        self.waiting.front().copied()
    }

    // What waits first waits no more.
    fn pop(&mut self)
        ensures asked { (self.new.none ≡ self.old.none) × (self.new.least ≡ self.old.least) × (self.new.most ≡ self.old.most) × (self.new.late ≡ self.old.late) }
        ensures waiting { self.new.waiting.items ≡ spec.behind_front self.old.waiting.items }
    {
        self.waiting.pop_front();
    }

    // Reports what waits first if it has waited too long; its event may still be seen.
    fn expire_one(&mut self, life: u64, at: u64, tally: &mut Tally) -> bool
        ensures waiting { spec.IsWaiting life tally.old self.old at → spec.IsWaiting life tally.new self.new at }
        ensures total { spec.IsWaiting life tally.old self.old at → (end : ℕ) (points : List Point) → at ≤ end → spec.IsOrderedFrom at points →
            spec.after_total life tally.old self.old end points ≡ spec.after_total life tally.new self.new end points }
        ensures fewer { IsTrue result → length self.new.waiting.items < length self.old.waiting.items }
    {
        let Some(first) = self.front() else {
            return false;
        };
        let n = at.saturating_sub(first);
        if n <= self.most || n < self.least {
            return false;
        }
        self.pop();
        tally.add(life, Obligation::unseen(first, good_if(self.none)));
        self.late = later(self.late, first);
        true
    }

    // Reports all that has waited too long in a state.
    fn expire(&mut self, life: u64, at: u64, tally: &mut Tally)
        ensures waiting { spec.IsWaiting life tally.old self.old at → spec.IsWaiting life tally.new self.new at }
        ensures total { spec.IsWaiting life tally.old self.old at → (end : ℕ) (points : List Point) → at ≤ end → spec.IsOrderedFrom at points →
            spec.after_total life tally.old self.old end points ≡ spec.after_total life tally.new self.new end points }
    {
        'late: while self.expire_one(life, at, tally) {}
    }

    // An event comes: it is the one of what was late.
    fn see(&mut self, life: u64, at: u64, tally: &mut Tally)
        ensures waiting { spec.IsWaiting life tally.old self.old at → spec.IsWaiting life tally.new self.new at }
        ensures late { self.new.late ≡ None }
        ensures total { spec.IsWaiting life tally.old self.old at → (end : ℕ) (points : List Point) (p : Point) → p.at ≡ at → p.event ≡ true →
            spec.after_total life tally.old self.old end (p ∷ points) ≡ spec.after_total life tally.new self.new end (p ∷ points) }
    {
        if let Some(late) = self.late {
            see_late(life, late, at, tally);
            self.late = None;
        }
    }

    // It is the answer of what waits first, if that has waited long enough.
    fn answer_one(&mut self, life: u64, at: u64, tally: &mut Tally) -> bool
        ensures waiting { self.old.late ≡ None → spec.IsWaiting life tally.old self.old at → spec.IsWaiting life tally.new self.new at }
        ensures late { self.new.late ≡ self.old.late }
        ensures total { self.old.late ≡ None → spec.IsWaiting life tally.old self.old at → (end : ℕ) (points : List Point) (p : Point) → p.at ≡ at → p.event ≡ true →
            spec.after_total life tally.old self.old end (p ∷ points) ≡ spec.after_total life tally.new self.new end (p ∷ points) }
        ensures fewer { IsTrue result → length self.new.waiting.items < length self.old.waiting.items }
        ensures near { result ≡ false → spec.IsWaiting life tally.old self.old at → spec.AreNear self.new.least at self.new.waiting.items }
    {
        let Some(first) = self.front() else {
            return false;
        };
        let n = at.saturating_sub(first);
        if n < self.least {
            return false;
        }
        self.pop();
        let good = wanted(self.none, n <= self.most);
        tally.add(life, Obligation::measured(first, n, good));
        true
    }

    // An event comes.
    fn event(&mut self, life: u64, at: u64, tally: &mut Tally)
        ensures waiting { spec.IsWaiting life tally.old self.old at → spec.IsWaiting life tally.new self.new at }
        ensures late { self.new.late ≡ None }
        ensures total { spec.IsWaiting life tally.old self.old at → (end : ℕ) (points : List Point) (p : Point) → p.at ≡ at → p.event ≡ true →
            spec.after_total life tally.old self.old end (p ∷ points) ≡ spec.after_total life tally.new self.new end (p ∷ points) }
        ensures near { spec.IsWaiting life tally.old self.old at → spec.AreNear self.new.least at self.new.waiting.items }
    {
        self.see(life, at, tally);
        'answers: while self.answer_one(life, at, tally) {}
    }

    // A point comes, which may be an event.
    fn take_event(&mut self, life: u64, point: Point, tally: &mut Tally)
        ensures waiting { spec.IsWaiting life tally.old self.old point.at → spec.IsWaiting life tally.new self.new point.at }
        ensures ready { spec.IsWaiting life tally.old self.old point.at → point.event ≡ true →
            (self.new.late ≡ None) × spec.AreNear self.new.least point.at self.new.waiting.items }
        ensures total { spec.IsWaiting life tally.old self.old point.at → (end : ℕ) (points : List Point) →
            spec.after_total life tally.old self.old end (point ∷ points) ≡ spec.after_total life tally.new self.new end (point ∷ points) }
    {
        if point.event {
            self.event(life, point.at, tally);
        }
    }

    // What begins to wait in a point.
    fn wait(&mut self, point: Point) -> Result<(), NoMemory>
        ensures asked { (self.new.none ≡ self.old.none) × (self.new.least ≡ self.old.least) × (self.new.most ≡ self.old.most) × (self.new.late ≡ self.old.late) }
        ensures waiting { OnOk result (self.new.waiting.items ≡ spec.waiting_after point self.old.waiting.items) }
    {
        if point.from {
            self.waiting.push_back(point.at)?;
        }
        Ok(())
    }

    /// Sees a point.
    pub fn point(&mut self, life: u64, point: Point, tally: &mut Tally) -> Result<(), NoMemory>
        ensures waiting { OnOk result (spec.IsWaiting life tally.old self.old point.at → spec.IsWaiting life tally.new self.new point.at) }
        ensures total { OnOk result (spec.IsWaiting life tally.old self.old point.at → (end : ℕ) (points : List Point) → point.at ≤ end → spec.IsOrderedFrom point.at points →
            spec.after_total life tally.old self.old end (point ∷ points) ≡ spec.after_total life tally.new self.new end points) }
    {
        self.expire(life, point.at, tally);
        self.take_event(life, point, tally);
        self.wait(point)?;
        Ok(())
    }

    // The scope is over: what waits first is open, or too late.
    fn finish_one(&mut self, life: u64, end: u64, tally: &mut Tally) -> bool
        ensures total { spec.after_total life tally.old self.old end [] ≡ spec.after_total life tally.new self.new end [] }
        ensures fewer { IsTrue result → length self.new.waiting.items < length self.old.waiting.items }
        ensures none { result ≡ false → self.new.waiting.items ≡ [] }
    {
        let Some(first) = self.front() else {
            return false;
        };
        self.pop();
        let answer = left_over(self.none, self.most, end, first);
        tally.add(life, Obligation::unseen(first, answer));
        true
    }

    /// The scope is over; `end` is the first state behind it.
    pub fn over(&mut self, life: u64, end: u64, tally: &mut Tally)
        ensures { spec.after_total life tally.old self.old end [] ≡ tally.new }
    {
        self.late = None;
        'waiting: while self.finish_one(life, end, tally) {}
    }
}
