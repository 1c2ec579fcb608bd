// Loops as the notes have them, and what is found of their prices.
use crate::by_address::ByAddress;
use crate::components::Marks;
use kc_base::NoMemory;
use kc_bound::{Loop, Notes};
use std::alloc::Global;

// How many loops, each counted from the one before, are looked at to find how often a head begins.
const DEEPEST: u32 = 17;

/// The noted loops, with prices that are found so far. Numbers are states, or how often something begins; they stay at the limits of
/// their type, since what is beyond these is refused anyway.
#[derive(Drop)]
pub(crate) struct Loops<'a> {
    notes: &'a Notes,
    // the loop whose head an address is
    loop_at: ByAddress<Option<usize>>,
    // by loop, about how often its head begins in a pass, and its price
    often: Vec<i128>,
    prices: Vec<i128>,
    // what an address spends for the loops that are counted from there
    credits: ByAddress<i128>,
}

fn loops_at(alloc: Global, notes: &Notes) -> Result<ByAddress<Option<usize>>, NoMemory> {
    let mut loop_at = ByAddress::new(alloc, None)?;
    for (k, noted) in notes.loops.iter().enumerate() {
        loop_at.set(noted.head, Some(k));
    }
    Ok(loop_at)
}

// A number of a list by its place; another one where it has none.
fn number_at(numbers: &[i128], place: Option<usize>, other: i128) -> i128 {
    match place {
        Some(k) => numbers.get(k).copied().unwrap_or(other),
        None => other,
    }
}

// About how often all instructions begin from which a loop is counted, by how often the heads of loops do.
fn counted_from(noted: &Loop, loop_at: &ByAddress<Option<usize>>, often: &[i128]) -> i128 {
    if noted.per.is_empty() {
        return 1;
    }
    let mut times: i128 = 0;
    for at in noted.per.iter() {
        times = times.saturating_add(number_at(often, loop_at.get(*at), 1));
    }
    times
}

// The same number for each loop.
fn for_each_loop(alloc: Global, notes: &Notes, number: i128) -> Result<Vec<i128>, NoMemory> {
    let mut numbers = Vec::new(alloc);
    for _ in notes.loops.iter() {
        numbers.push(number)?;
    }
    Ok(numbers)
}

// About how often the head of each loop begins in a pass.
fn often_of(
    alloc: Global,
    notes: &Notes,
    loop_at: &ByAddress<Option<usize>>,
) -> Result<Vec<i128>, NoMemory> {
    let mut often = for_each_loop(alloc, notes, 1)?;
    for _ in 0..DEEPEST {
        let mut next = Vec::new(alloc);
        for noted in notes.loops.iter() {
            let times = counted_from(noted, loop_at, often.as_slice());
            next.push(times.saturating_mul(i128::from(noted.most)))?;
        }
        often = next;
    }
    Ok(often)
}

impl<'a> Loops<'a> {
    /// The loops of notes, with no prices.
    pub(crate) fn new(alloc: Global, notes: &'a Notes) -> Result<Loops<'a>, NoMemory> {
        let loop_at = loops_at(alloc, notes)?;
        let often = often_of(alloc, notes, &loop_at)?;
        Ok(Loops {
            notes,
            loop_at,
            often,
            prices: for_each_loop(alloc, notes, 0)?,
            credits: ByAddress::new(alloc, 0)?,
        })
    }

    /// The prices, in the order of the notes.
    pub(crate) fn prices(&self) -> &[i128] {
        self.prices.as_slice()
    }

    /// The price of the loop whose head an address is; 0 where it is none.
    pub(crate) fn price_at(&self, at: u16) -> i128 {
        number_at(self.prices.as_slice(), self.loop_at.get(at), 0)
    }

    /// What an address spends for the loops that are counted from there.
    pub(crate) fn credit_at(&self, at: u16) -> i128 {
        self.credits.get(at)
    }

    fn loop_of(&self, head: u16) -> Option<&'a Loop> {
        let notes = self.notes;
        match self.loop_at.get(head) {
            Some(k) => notes.loops.get(k),
            None => None,
        }
    }

    // Whether an address is the head of a loop that is counted from nowhere in a group that is marked.
    fn may_be_first(&self, at: u16, inside: &Marks) -> bool {
        match self.loop_of(at) {
            Some(noted) => !noted.per.iter().any(|from| inside.has(*from)),
            None => false,
        }
    }

    /// The noted head in a group that is marked which begins least often, and is counted from nowhere in the group.
    pub(crate) fn head_of(&self, group: &[u16], inside: &Marks) -> Option<u16> {
        let mut best: Option<(i128, u16)> = None;
        for at in group {
            if self.may_be_first(*at, inside) {
                let times = number_at(self.often.as_slice(), self.loop_at.get(*at), 1);
                if best.is_none_or(|(least, head)| (times, *at) < (least, head)) {
                    best = Some((times, *at));
                }
            }
        }
        best.map(|(_, head)| head)
    }

    /// A higher price of the loop of a head, which is spent where the loop is counted from.
    pub(crate) fn raise(&mut self, head: u16, price: i128) {
        let more = price.saturating_sub(self.price_at(head));
        let Some(k) = self.loop_at.get(head) else {
            return;
        };
        if more <= 0 {
            return;
        }
        if let Some(old) = self.prices.get_mut(k) {
            *old = price;
        }
        let notes = self.notes;
        if let Some(noted) = notes.loops.get(k) {
            let spent = more.saturating_mul(i128::from(noted.most));
            for at in noted.per.iter() {
                let credit = self.credits.get(*at).saturating_add(spent);
                self.credits.set(*at, credit);
            }
        }
    }
}
