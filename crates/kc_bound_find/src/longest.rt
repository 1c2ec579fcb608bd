// The most states of ways through a routine, by the prices of its loops.
use crate::by_address::ByAddress;
use crate::components::{Marks, Search};
use crate::loops::Loops;
use crate::table::{Table, called_by, next_on, states_of};
use kc_base::NoMemory;
use kc_bound::Way;
use std::alloc::Global;

/// Up to where ways are followed.
#[derive(Clone, Copy, Drop)]
pub(crate) enum Until {
    /// Back to the head of a loop.
    Head(u16),
    /// Until the routine returns, or the pass is over.
    Return,
}

/// The most states from addresses on that are found so far.
#[derive(Drop)]
pub(crate) struct Longest<'a> {
    pub(crate) table: &'a Table,
    pub(crate) loops: Loops<'a>,
    // where at least the floor has to be left
    kept: ByAddress<bool>,
    // until its routine returns; and for the addresses that are marked, by their ways inside
    best: ByAddress<Option<i128>>,
    value: ByAddress<Option<i128>>,
    inside: Marks,
    search: Search,
}

impl<'a> Longest<'a> {
    /// Nothing is found of any address.
    pub(crate) fn new(
        alloc: Global,
        table: &'a Table,
        loops: Loops<'a>,
        kept: ByAddress<bool>,
    ) -> Result<Longest<'a>, NoMemory> {
        Ok(Longest {
            table,
            loops,
            kept,
            best: ByAddress::new(alloc, None)?,
            value: ByAddress::new(alloc, None)?,
            inside: Marks::new(alloc)?,
            search: Search::new(alloc)?,
        })
    }

    /// The most states from an address on until its routine returns, beside those that loops pay for, if it is found.
    pub(crate) fn best_at(&self, at: u16) -> Option<i128> {
        self.best.get(at)
    }

    // What the routine takes that a way calls.
    fn called_states(&self, way: Way) -> i128 {
        match called_by(way) {
            Some(routine) => self.best.get(routine).unwrap_or(0),
            None => 0,
        }
    }

    // What a way takes, with the routine that it calls and the loops that are counted from its address, less what that has of its own.
    fn weight(&self, at: u16, way: Way) -> i128 {
        i128::from(states_of(way))
            .saturating_add(self.called_states(way))
            .saturating_add(self.loops.credit_at(at))
            .saturating_sub(self.loops.price_at(at))
    }

    // What is left behind a way, if that is known.
    fn behind(&self, way: Way, until: Until) -> Option<i128> {
        match (next_on(way), until) {
            (None, Until::Return) => Some(0),
            (None, Until::Head(_)) => None,
            (Some(next), Until::Head(head)) if next == head => Some(0),
            (Some(next), _) => {
                if self.inside.has(next) {
                    self.value.get(next)
                } else {
                    None
                }
            }
        }
    }

    // The longest of the ways from an address, by those that are known behind them.
    fn longest_from(&self, at: u16, until: Until) -> Option<i128> {
        let mut longest = None;
        for way in self.table.ways_at(at) {
            if let Some(then) = self.behind(*way, until) {
                let states = self.weight(at, *way).saturating_add(then);
                longest = longest.max(Some(states));
            }
        }
        longest
    }

    // Finds the longest way from an address anew; whether it has become longer.
    fn improve(&mut self, at: u16, until: Until) -> bool {
        let Some(states) = self.longest_from(at, until) else {
            return false;
        };
        let is_kept = matches!(until, Until::Return) && self.kept.get(at);
        let most = if is_kept { states.max(0) } else { states };
        let is_longer = self.value.get(at).is_none_or(|old| most > old);
        if is_longer {
            self.value.set(at, Some(most));
        }
        is_longer
    }

    // One turn of `relax_group`; whether it has found longer ways.
    fn improve_all(&mut self, group: &[u16], until: Until) -> bool {
        let mut is_longer = false;
        for at in group {
            if self.improve(*at, until) {
                is_longer = true;
            }
        }
        is_longer
    }

    // The longest ways inside a group of addresses that lead to each other; false where a circle gains.
    fn relax_group(&mut self, group: &[u16], until: Until) -> bool {
        let is_cyclic = self.table.is_cyclic(group);
        for _ in 0..group.len().saturating_add(1) {
            if !self.improve_all(group, until) || !is_cyclic {
                return true;
            }
        }
        false
    }

    /// Marks some addresses, and gives their components.
    pub(crate) fn groups_of(
        &mut self,
        alloc: Global,
        addresses: &[u16],
    ) -> Result<Vec<Vec<u16>>, NoMemory> {
        self.inside.mark(addresses);
        self.search
            .components(alloc, self.table, addresses, &self.inside)
    }

    /// Finds the longest ways inside some addresses; false where a circle gains.
    pub(crate) fn relax(
        &mut self,
        alloc: Global,
        addresses: &[u16],
        until: Until,
    ) -> Result<bool, NoMemory> {
        let groups = self.groups_of(alloc, addresses)?;
        for at in addresses {
            self.value.set(*at, None);
        }
        for group in groups.iter() {
            if !self.relax_group(group.as_slice(), until) {
                return Ok(false);
            }
        }
        Ok(true)
    }

    /// Takes over what is found of the addresses of a routine.
    pub(crate) fn keep(&mut self, body: &[u16]) {
        for at in body {
            let found = self.value.get(*at);
            if found.is_some() {
                self.best.set(*at, found);
            }
        }
    }

    /// The noted head of a group, if it has one.
    pub(crate) fn head_of(&mut self, group: &[u16]) -> Option<u16> {
        self.inside.mark(group);
        self.loops.head_of(group, &self.inside)
    }

    /// Where a group is entered, by the least address; else its least address.
    pub(crate) fn entered(&mut self, group: &[u16]) -> Option<u16> {
        self.inside.mark(group);
        let table = self.table;
        let mut least: Option<u16> = None;
        for at in table.reached.iter() {
            if self.inside.has(*at) {
                continue;
            }
            for way in table.ways_at(*at) {
                if let Some(next) = next_on(*way)
                    && self.inside.has(next)
                    && least.is_none_or(|other| next < other)
                {
                    least = Some(next);
                }
            }
        }
        least.or(group.iter().min().copied())
    }

    /// The most states of a turn of a loop from its head, by the longest ways of the rest, which is marked.
    pub(crate) fn turn(&self, head: u16) -> i128 {
        match self.longest_from(head, Until::Head(head)) {
            Some(states) => states.saturating_add(self.loops.price_at(head)).max(0),
            None => 0,
        }
    }
}
