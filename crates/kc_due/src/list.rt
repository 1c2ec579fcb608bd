//! Sixteen times, linked in their order.
ghost use Rattle.std.specs.Prelude.{◌≡◌, ℕ, ◌<◌, ◌≢◌, replicate, Some, None, slice_set};
ghost use Rattle.kc_due.specs.Due.{Times, at_slot, IsFirst};

use crate::links::Links;
use kc_base::StateTime;
use std::marker::Model;

/// The due times of sixteen slots. Contracts see the list of what each slot has.
#[derive(Drop)]
pub struct DueList {
    links: Links,
}

impl Model for DueList {
    ghost use Rattle.kc_due.specs.Due.{Times};

    ghost Value = { Times };

    ghost use Rattle.kc_due.specs.Links.{IsLinked, times_of};

    ghost view = { λ d. times_of d.links };

    ghost invariant = { λ d. IsLinked d.links };
}

impl DueList {
    /// No slot has a time.
    pub fn new() -> DueList
        ensures { result ≡ replicate 16 None }
    {
        DueList {
            links: Links::new(),
        }
    }

    /// The slot's time; None where it has none.
    pub fn time_of(&self, slot: u8) -> Option<StateTime>
        requires { slot < 16 }
        ensures { result ≡ at_slot self.now slot }
    {
        self.links.nodes[slot as usize].at
    }

    /// A least time with its slot, of equal times the least slot; None where no slot has a time.
    pub fn first(&self) -> Option<(u8, StateTime)>
        ensures { IsFirst self.now result }
    {
        let slot = self.links.head?;
        let at = self.links.nodes[slot as usize].at?;
        Some((slot, at))
    }

    /// Takes the slot's time away, if it has one; the other slots keep theirs.
    pub fn clear(&mut self, slot: u8)
        requires { slot < 16 }
        ensures whole { self.new ≡ slice_set self.old slot None }
        ensures here { at_slot self.new slot ≡ None }
        ensures others { (k : ℕ) → k ≢ slot → at_slot self.new k ≡ at_slot self.old k }
    {
        self.links.take_out(slot);
    }

    /// Gives the slot a time, in place of the one that it has; the other slots keep theirs.
    pub fn set(&mut self, slot: u8, at: StateTime)
        requires { slot < 16 }
        ensures whole { self.new ≡ slice_set self.old slot (Some at) }
        ensures here { at_slot self.new slot ≡ Some at }
        ensures others { (k : ℕ) → k ≢ slot → at_slot self.new k ≡ at_slot self.old k }
    {
        self.links.take_out(slot);
        self.links.put_in(slot, at);
    }
}
