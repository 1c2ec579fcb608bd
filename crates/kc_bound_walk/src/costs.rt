// Which ways cost most, by a certificate.
use crate::steps::states_of;
use kc_base::{IMAGE_START, Image, NoMemory, ROM_END};
use kc_bound::{Certificate, Notes, Standing, Way, is_end, ways};
use std::alloc::Global;

/// How many times as many addresses as loops there may be.
const LARGEST: usize = 8_000_000;

/// What is known of an address that a pass may come to.
#[derive(Drop)]
pub(crate) struct Spot {
    pub(crate) at: u16,
    // all ways on, and those that cost most
    pub(crate) ways: Vec<Way>,
    pub(crate) dear: Vec<Way>,
    // the loops whose head it is, and those that are counted from it
    pub(crate) heads: Vec<usize>,
    pub(crate) counted: Vec<usize>,
    // the spots from which a way that costs most leads to it
    before: Vec<usize>,
}

/// The addresses that a pass may come to; and for each loop with a price the spots from which its head is reached by ways that cost
/// most before its count begins anew.
#[derive(Drop)]
pub(crate) struct Costs {
    pub(crate) spots: Vec<Spot>,
    numbers: Vec<usize>,
    reach: Vec<Vec<bool>>,
}

/// Where a way goes on in its routine: at its target, or behind a call.
pub(crate) fn next_on(way: Way) -> Option<u16> {
    match way {
        Way::To { target, .. } => Some(target),
        Way::Call { back, .. } => Some(back),
        Way::Back { .. } | Way::Out { .. } => None,
    }
}

fn standing_at(c: &Certificate, at: u16) -> Option<Standing> {
    if at < IMAGE_START {
        return None;
    }
    match c.standings.get(usize::from(at - IMAGE_START)) {
        Some(standing) => *standing,
        None => None,
    }
}

fn potential_at(c: &Certificate, at: u16) -> i128 {
    match standing_at(c, at) {
        Some(standing) => i128::from(standing.potential),
        None => 0,
    }
}

// What an address has for a begin, less what it spends for the loops that are counted from it.
fn own_at(notes: &Notes, c: &Certificate, at: u16) -> i128 {
    let mut own: i128 = 0;
    for (k, l) in notes.loops.iter().enumerate() {
        let price = i128::from(c.prices.get(k).copied().unwrap_or(0));
        if l.head == at {
            own = own.saturating_add(price);
        }
        if l.per.as_slice().contains(&at) {
            own = own.saturating_sub(price.saturating_mul(i128::from(l.most)));
        }
    }
    own
}

// What a way spends, and what is left behind it.
fn asked(c: &Certificate, way: Way) -> i128 {
    let floor = i128::from(c.floor);
    let behind = match way {
        Way::To { target, .. } => potential_at(c, target),
        Way::Call { target, back, .. } => {
            potential_at(c, target)
                .saturating_add(potential_at(c, back))
                .saturating_sub(floor)
        }
        Way::Back { .. } | Way::Out { .. } => floor,
    };
    behind.saturating_add(i128::from(states_of(way)))
}

// Those that ask all that there is.
fn dear_ways(
    alloc: Global,
    notes: &Notes,
    c: &Certificate,
    at: u16,
    all: &[Way],
) -> Result<Vec<Way>, NoMemory> {
    let has = potential_at(c, at).saturating_add(own_at(notes, c, at));
    let mut dear = Vec::new(alloc);
    for way in all {
        if asked(c, *way) >= has {
            dear.push(*way)?;
        }
    }
    Ok(dear)
}

fn spot_at(
    alloc: Global,
    image: &Image,
    notes: &Notes,
    c: &Certificate,
    at: u16,
) -> Result<Spot, NoMemory> {
    let all = match ways(alloc, image, notes, at)? {
        Some(found) => found,
        None => Vec::new(alloc),
    };
    let dear = dear_ways(alloc, notes, c, at, all.as_slice())?;
    let mut heads = Vec::new(alloc);
    let mut counted = Vec::new(alloc);
    for (k, l) in notes.loops.iter().enumerate() {
        if l.head == at {
            heads.push(k)?;
        }
        if l.per.as_slice().contains(&at) {
            counted.push(k)?;
        }
    }
    Ok(Spot {
        at,
        ways: all,
        dear,
        heads,
        counted,
        before: Vec::new(alloc),
    })
}

impl Costs {
    /// By a certificate; `None` where there are too many addresses and loops.
    pub(crate) fn new(
        alloc: Global,
        image: &Image,
        notes: &Notes,
        from: u16,
        c: &Certificate,
    ) -> Result<Option<Costs>, NoMemory> {
        let mut costs = Costs {
            spots: Vec::new(alloc),
            numbers: Vec::new(alloc),
            reach: Vec::new(alloc),
        };
        for at in IMAGE_START..ROM_END {
            costs.numbers.push(usize::MAX)?;
            let is_over = is_end(notes, at) && at != from;
            if standing_at(c, at).is_some() && !is_over {
                let number = costs.spots.len();
                if let Some(last) = costs.numbers.last_mut() {
                    *last = number;
                }
                costs.spots.push(spot_at(alloc, image, notes, c, at)?)?;
            }
        }
        if costs.spots.len().saturating_mul(notes.loops.len()) > LARGEST {
            return Ok(None);
        }
        costs.link()?;
        for (k, l) in notes.loops.iter().enumerate() {
            let has_price = c.prices.get(k).copied().unwrap_or(0) > 0;
            let marks = costs.reach_of(alloc, k, l.head, has_price)?;
            costs.reach.push(marks)?;
        }
        Ok(Some(costs))
    }

    /// The number of an address among the spots.
    pub(crate) fn number_of(&self, at: u16) -> Option<usize> {
        if at < IMAGE_START {
            return None;
        }
        let number = self.numbers.get(usize::from(at - IMAGE_START)).copied()?;
        (number < self.spots.len()).then_some(number)
    }

    /// Whether the head of a loop with a price is reached from a spot before its count begins anew.
    pub(crate) fn reaches(&self, number: usize, k: usize) -> bool {
        match self.reach.get(k) {
            Some(marks) => marks.get(number).copied().unwrap_or(false),
            None => false,
        }
    }

    // Finds the spots before each.
    fn link(&mut self) -> Result<(), NoMemory> {
        for number in 0..self.spots.len() {
            for i in 0..usize::MAX {
                let Some(way) = self.way_of(number, i) else {
                    break;
                };
                let called = match way {
                    Way::Call { target, .. } => Some(target),
                    _ => None,
                };
                self.link_to(number, next_on(way))?;
                self.link_to(number, called)?;
            }
        }
        Ok(())
    }

    fn way_of(&self, number: usize, i: usize) -> Option<Way> {
        let spot = self.spots.get(number)?;
        spot.dear.get(i).copied()
    }

    fn link_to(&mut self, number: usize, target: Option<u16>) -> Result<(), NoMemory> {
        let Some(at) = target else {
            return Ok(());
        };
        let Some(other) = self.number_of(at) else {
            return Ok(());
        };
        if let Some(spot) = self.spots.get_mut(other) {
            spot.before.push(number)?;
        }
        Ok(())
    }

    // From where the head of a loop is reached.
    fn reach_of(
        &self,
        alloc: Global,
        k: usize,
        head: u16,
        has_price: bool,
    ) -> Result<Vec<bool>, NoMemory> {
        let mut marks = Vec::new(alloc);
        let mut found = Vec::new(alloc);
        if !has_price {
            return Ok(marks);
        }
        for _ in self.spots.iter() {
            marks.push(false)?;
        }
        if let Some(number) = self.number_of(head) {
            found.push(number)?;
        }
        for i in 0..self.spots.len().saturating_add(1) {
            let Some(number) = found.get(i).copied() else {
                break;
            };
            if let Some(mark) = marks.get_mut(number) {
                *mark = true;
            }
            let Some(spot) = self.spots.get(number) else {
                break;
            };
            for other in spot.before.iter() {
                let is_new = !marks.get(*other).copied().unwrap_or(true);
                if is_new && !self.is_counted_from(*other, k) {
                    if let Some(mark) = marks.get_mut(*other) {
                        *mark = true;
                    }
                    found.push(*other)?;
                }
            }
        }
        Ok(marks)
    }

    /// Whether the count of a loop begins anew at a spot.
    pub(crate) fn is_counted_from(&self, number: usize, k: usize) -> bool {
        match self.spots.get(number) {
            Some(spot) => spot.counted.as_slice().contains(&k),
            None => false,
        }
    }
}
