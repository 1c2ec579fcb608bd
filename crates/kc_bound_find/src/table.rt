ghost use Rattle.std.specs.Prelude.{◌≡◌, vec_len};

use crate::by_address::{ADDRESSES, ByAddress};
use kc_base::NoMemory;
use kc_bound::Way;
use std::alloc::Global;

/// Where a way goes on in its routine: at its target, or behind a call. `None` where it leads out of the routine.
pub(crate) fn next_on(way: Way) -> Option<u16> {
    match way {
        Way::To { target, .. } => Some(target),
        Way::Call { back, .. } => Some(back),
        Way::Back { .. } | Way::Out { .. } => None,
    }
}

/// The routine that a way calls.
pub(crate) fn called_by(way: Way) -> Option<u16> {
    match way {
        Way::Call { target, .. } => Some(target),
        _ => None,
    }
}

/// The most states that a way takes itself.
pub(crate) fn states_of(way: Way) -> u32 {
    match way {
        Way::To { states, .. }
        | Way::Call { states, .. }
        | Way::Back { states }
        | Way::Out { states } => states,
    }
}

/// Addresses, each once, in the order in which they are found.
#[derive(Drop)]
pub(crate) struct Seen {
    is_seen: ByAddress<bool>,
    addresses: Vec<u16>,
}

impl Seen {
    /// None but a first one.
    pub(crate) fn only(alloc: Global, first: u16) -> Result<Seen, NoMemory> {
        let mut seen = Seen {
            is_seen: ByAddress::new(alloc, false)?,
            addresses: Vec::new(alloc),
        };
        seen.see(first)?;
        Ok(seen)
    }

    /// The address that was found behind so many others.
    pub(crate) fn get(&self, k: usize) -> Option<u16> {
        self.addresses.get(k).copied()
    }

    /// Adds an address that has not been seen.
    pub(crate) fn see(&mut self, at: u16) -> Result<(), NoMemory> {
        if !self.is_seen.get(at) {
            self.is_seen.set(at, true);
            self.addresses.push(at)?;
        }
        Ok(())
    }

    /// Adds the addresses at which ways go on in their routine.
    pub(crate) fn see_next(&mut self, ways: &[Way]) -> Result<(), NoMemory> {
        for way in ways {
            if let Some(next) = next_on(*way) {
                self.see(next)?;
            }
        }
        Ok(())
    }

    /// Adds the routines that ways call.
    pub(crate) fn see_called(&mut self, ways: &[Way]) -> Result<(), NoMemory> {
        for way in ways {
            if let Some(routine) = called_by(*way) {
                self.see(routine)?;
            }
        }
        Ok(())
    }

    /// All of them.
    pub(crate) fn into_addresses(self) -> Vec<u16> {
        self.addresses
    }
}

/// The ways on from each address that is reached.
#[derive(Drop)]
pub(crate) struct Table {
    pub(crate) reached: Vec<u16>,
    ways: Vec<Vec<Way>>,
    ghost whole: { vec_len ways ≡ 65536 },
}

impl Table {
    /// Without any address.
    pub(crate) fn new(alloc: Global) -> Result<Table, NoMemory> {
        let mut ways = Vec::new(alloc);
        'fill: while ways.len() < ADDRESSES {
            ways.push(Vec::new(alloc))?;
        }
        Ok(Table {
            reached: Vec::new(alloc),
            ways,
        })
    }

    /// The ways on from an address.
    pub(crate) fn ways_at(&self, at: u16) -> &[Way] {
        self.ways[usize::from(at)].as_slice()
    }

    /// Sets the ways on from an address.
    pub(crate) fn set(&mut self, at: u16, ways: Vec<Way>) {
        self.ways[usize::from(at)] = ways;
    }

    fn leads_to(&self, at: u16, next: u16) -> bool {
        self.ways_at(at)
            .iter()
            .any(|way| next_on(*way) == Some(next))
    }

    /// Whether addresses that lead to each other are on a circle.
    pub(crate) fn is_cyclic(&self, group: &[u16]) -> bool {
        group.len() > 1 || group.iter().any(|at| self.leads_to(*at, *at))
    }
}
