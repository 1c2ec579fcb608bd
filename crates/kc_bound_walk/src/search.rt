// The next ways of a walk: to the head of a loop that has turns left, or out of the routine.
use crate::costs::{Costs, next_on};
use kc_base::NoMemory;
use kc_bound::Way;
use std::alloc::Global;

/// How many turns each loop has left, and whether it has a price.
#[derive(Drop)]
pub(crate) struct Left {
    pub(crate) turns: Vec<u64>,
    pub(crate) most: Vec<u64>,
    pub(crate) has_price: Vec<bool>,
}

impl Left {
    /// Of a loop.
    pub(crate) fn of(&self, k: usize) -> u64 {
        self.turns.get(k).copied().unwrap_or(0)
    }

    /// Sets those of a loop.
    pub(crate) fn set(&mut self, k: usize, turns: u64) {
        if let Some(left) = self.turns.get_mut(k) {
            *left = turns;
        }
    }

    // Whether turns are left of a loop that has a price.
    fn is_wanted(&self, k: usize) -> bool {
        self.of(k) > 0 && self.has_price.get(k).copied().unwrap_or(false)
    }

    /// A spot begins; false where it may not.
    pub(crate) fn begin(&mut self, costs: &Costs, number: usize) -> bool {
        let Some(spot) = costs.spots.get(number) else {
            return false;
        };
        for k in spot.heads.iter() {
            let left = self.of(*k);
            if left == 0 {
                return false;
            }
            self.set(*k, left - 1);
        }
        for k in spot.counted.iter() {
            let most = self.most.get(*k).copied().unwrap_or(0);
            self.set(*k, most);
        }
        true
    }
}

// How a spot was found: by a way from another.
#[derive(Clone, Copy, Drop)]
struct Found {
    turn: u32,
    from: usize,
    way: Way,
}

// Where ways may end: how many loops lose their turns there, whether it is a head, the spot, and the way out.
#[derive(Clone, Copy, Drop)]
struct Goal {
    lost: usize,
    is_head: bool,
    number: usize,
    out: Option<Way>,
}

/// A search over spots. Its vectors are used again.
#[derive(Drop)]
pub(crate) struct Search {
    found: Vec<Found>,
    queue: Vec<usize>,
    turn: u32,
    goal: Option<Goal>,
}

fn is_better(goal: Goal, other: Option<Goal>) -> bool {
    match other {
        None => true,
        Some(other) => {
            goal.lost < other.lost || goal.lost == other.lost && other.is_head && !goal.is_head
        }
    }
}

impl Search {
    /// Over the spots of a certificate.
    pub(crate) fn new(alloc: Global, costs: &Costs) -> Result<Search, NoMemory> {
        let mut found = Vec::new(alloc);
        for _ in costs.spots.iter() {
            found.push(Found {
                turn: 0,
                from: 0,
                way: Way::Out { states: 0 },
            })?;
        }
        Ok(Search {
            found,
            queue: Vec::new(alloc),
            turn: 0,
            goal: None,
        })
    }

    // How many loops lose turns where a spot begins next, or where the routine returns, or the pass is over.
    fn count_lost(
        &self,
        costs: &Costs,
        left: &Left,
        outer: &[bool],
        next: Option<usize>,
        is_over: bool,
    ) -> usize {
        let mut lost: usize = 0;
        for k in 0..left.turns.len() {
            let is_kept = !is_over
                && (outer.get(k).copied().unwrap_or(false)
                    || next.is_some_and(|number| costs.reaches(number, k)));
            if left.is_wanted(k) && !is_kept {
                lost = lost.saturating_add(1);
            }
        }
        lost
    }

    fn consider(&mut self, goal: Goal) {
        if is_better(goal, self.goal) {
            self.goal = Some(goal);
        }
    }

    // Whether the count of a loop begins anew on the way to a spot, behind the first one.
    fn is_anew(&self, costs: &Costs, first: usize, number: usize, k: usize) -> bool {
        let mut on = number;
        for _ in 0..self.found.len() {
            if on == first {
                return false;
            }
            if costs.is_counted_from(on, k) {
                return true;
            }
            match self.found.get(on) {
                Some(found) => {
                    on = found.from;
                }
                None => return false,
            }
        }
        false
    }

    // Whether a spot may begin behind another.
    fn may_begin(
        &self,
        costs: &Costs,
        left: &Left,
        first: usize,
        number: usize,
        next: usize,
    ) -> bool {
        match costs.spots.get(next) {
            Some(spot) => spot.heads.iter().all(|k| left.of(*k) > 0
                || self.is_anew(costs, first, number, *k)),
            None => false,
        }
    }

    // A way on from a spot.
    fn follow(
        &mut self,
        costs: &Costs,
        left: &Left,
        outer: &[bool],
        first: usize,
        number: usize,
        way: Way,
    ) -> Result<(), NoMemory> {
        let Some(at) = next_on(way) else {
            let is_over = matches!(way, Way::Out { .. });
            let lost = self.count_lost(costs, left, outer, None, is_over);
            self.consider(Goal {
                lost,
                is_head: false,
                number,
                out: Some(way),
            });
            return Ok(());
        };
        let Some(next) = costs.number_of(at) else {
            let lost = self.count_lost(costs, left, outer, None, true);
            self.consider(Goal {
                lost,
                is_head: false,
                number,
                out: Some(way),
            });
            return Ok(());
        };
        let is_seen = self
            .found
            .get(next)
            .is_none_or(|found| found.turn == self.turn);
        if is_seen || !self.may_begin(costs, left, first, number, next) {
            return Ok(());
        }
        if let Some(found) = self.found.get_mut(next) {
            *found = Found {
                turn: self.turn,
                from: number,
                way,
            };
        }
        self.queue.push(next)?;
        self.come_to(costs, left, outer, next);
        Ok(())
    }

    // Considers a spot that is the head of a loop with turns left.
    fn come_to(&mut self, costs: &Costs, left: &Left, outer: &[bool], number: usize) {
        let Some(spot) = costs.spots.get(number) else {
            return;
        };
        if spot.heads.iter().any(|k| left.is_wanted(*k)) {
            let lost = self.count_lost(costs, left, outer, Some(number), false);
            self.consider(Goal {
                lost,
                is_head: true,
                number,
                out: None,
            });
        }
    }

    // The ways to the goal, the last one first.
    fn ways_back(&self, alloc: Global, first: usize) -> Result<Vec<Way>, NoMemory> {
        let mut ways = Vec::new(alloc);
        let Some(goal) = self.goal else {
            return Ok(ways);
        };
        let mut on = goal.number;
        if let Some(way) = goal.out {
            ways.push(way)?;
            if on == first {
                return Ok(ways);
            }
        }
        for _ in 0..self.found.len().saturating_add(1) {
            let Some(found) = self.found.get(on).copied() else {
                break;
            };
            ways.push(found.way)?;
            on = found.from;
            if on == first {
                break;
            }
        }
        Ok(ways)
    }

    /// The next ways from a spot that has begun, the last one first: those that cost most, or any. None where there are none.
    pub(crate) fn next_ways(
        &mut self,
        alloc: Global,
        costs: &Costs,
        left: &Left,
        outer: &[bool],
        first: usize,
        is_any: bool,
    ) -> Result<Vec<Way>, NoMemory> {
        self.turn = self.turn.wrapping_add(1);
        self.goal = None;
        self.queue = Vec::new(alloc);
        self.queue.push(first)?;
        for i in 0..costs.spots.len().saturating_add(2) {
            let Some(number) = self.queue.get(i).copied() else {
                break;
            };
            let Some(spot) = costs.spots.get(number) else {
                break;
            };
            let all = if is_any {
                spot.ways.as_slice()
            } else {
                spot.dear.as_slice()
            };
            for way in all {
                self.follow(costs, left, outer, first, number, *way)?;
            }
        }
        self.ways_back(alloc, first)
    }
}
