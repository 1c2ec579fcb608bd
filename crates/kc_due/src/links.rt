//! Sixteen nodes in one array, linked by index in order of time and slot.
ghost use Rattle.std.specs.Prelude.{◌≡◌, ◌+◌, ◌*◌, ◌<◌, ◌↔◌, IsTrue, IfSome, replicate, Some, None, slice_set, length};
ghost use Rattle.kc_due.specs.Links.{IsLinked, IsJoined, IsLastBefore, times_of, node_of, next_of};

use crate::node::Node;
use kc_base::StateTime;

/// The nodes, and the first of them that has a time.
#[derive(Drop)]
pub struct Links {
    pub nodes: [Node; 16],
    pub head: Option<u8>,
}

/// Whether one place comes before another, in order of time and slot.
fn is_sooner(at: StateTime, slot: u8, other: StateTime, other_slot: u8) -> bool
    requires slot { slot < 16 }
    requires other { other_slot < 16 }
    ensures { IsTrue result ↔ (at * 16 + slot < other * 16 + other_slot) }
{
    at < other || at == other && slot < other_slot
}

impl Links {
    /// No slot has a time.
    pub fn new() -> Links
        ensures linked { IsLinked result }
        ensures times { times_of result ≡ replicate 16 None }
    {
        let blank = Node {
            at: None,
            previous: None,
            next: None,
        };
        Links {
            nodes: [blank; 16],
            head: None,
        }
    }

    // Lets one slot follow another. None stands for the head as the earlier, and for the end as the later.
    fn join(&mut self, earlier: Option<u8>, later: Option<u8>)
        requires sixteen { length self.old.nodes ≡ 16 }
        requires earlier { IfSome earlier (λ k. k < 16) }
        requires later { IfSome later (λ k. k < 16) }
        ensures { IsJoined self.old earlier later self.new }
    {
        if let Some(k) = later {
            self.nodes[k as usize].previous = earlier;
        }
        match earlier {
            Some(k) => self.nodes[k as usize].next = later,
            None => self.head = later,
        }
    }

    /// Takes the slot's time away, if it has one: the slots beside it follow each other.
    pub fn take_out(&mut self, slot: u8)
        requires slot { slot < 16 }
        requires linked { IsLinked self.old }
        ensures linked { IsLinked self.new }
        ensures times { times_of self.new ≡ slice_set (times_of self.old) slot None }
    {
        let node = self.nodes[slot as usize];
        if node.at.is_some() {
            self.nodes[slot as usize].at = None;
            self.join(node.previous, node.next);
        }
    }

    // What follows a slot, or the head.
    fn following(&self, from: Option<u8>) -> Option<u8>
        requires { IfSome from (λ k. k < 16) }
        ensures { result ≡ next_of self.now from }
    {
        match from {
            Some(k) => self.nodes[k as usize].next,
            None => self.head,
        }
    }

    // The last slot before a place, if there is one.
    fn before(&self, at: StateTime, slot: u8) -> Option<u8>
        requires slot { slot < 16 }
        requires linked { IsLinked self.now }
        requires blank { (node_of self.now slot).at ≡ None }
        ensures { IsLastBefore self.now (at * 16 + slot) result }
    {
        let mut earlier = None;
        let mut later = self.head;
        while let Some(k) = later {
            let node = self.nodes[k as usize];
            let Some(time) = node.at else {
                break;
            };
            if is_sooner(at, slot, time, k) {
                break;
            }
            earlier = later;
            later = node.next;
        }
        earlier
    }

    /// Gives a slot that has no time one: it stands behind all slots that come before it.
    pub fn put_in(&mut self, slot: u8, at: StateTime)
        requires slot { slot < 16 }
        requires linked { IsLinked self.old }
        requires blank { (node_of self.old slot).at ≡ None }
        ensures linked { IsLinked self.new }
        ensures times { times_of self.new ≡ slice_set (times_of self.old) slot (Some at) }
    {
        let earlier = self.before(at, slot);
        let later = self.following(earlier);
        self.nodes[slot as usize].at = Some(at);
        self.join(earlier, Some(slot));
        self.join(Some(slot), later);
    }
}
