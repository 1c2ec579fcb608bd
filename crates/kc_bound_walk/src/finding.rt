// A walk by the ways that cost most, in which each loop takes as many turns as its note allows. A turn is walked once, and then
// repeated; a routine is walked once, and then taken again.
ghost use Rattle.std.specs.Prelude.{IfOk, IfSome};
ghost use Rattle.std.specs.List.{All};
ghost use Rattle.kc_bound_walk.specs.Parts.{IsPart};
ghost use Rattle.kc_bound_walk.specs.Walks.{IsWhole};

use crate::costs::Costs;
use crate::lines::Spent;
use crate::part::Part;
use crate::search::{Left, Search};
use crate::stack::{Act, act_on, made_by};
use crate::turns::Turns;
use kc_base::{Image, NoMemory};
use kc_bound::{Certificate, Notes, Way};
use std::alloc::Global;

/// How many steps a walk has at most, with each repeated one once.
const MOST_STEPS: u32 = 65_536;

// Why a part was opened.
#[derive(Drop)]
enum Level {
    // A turn of the loop with this head.
    Turn(u16),
    // A routine that was called, and the loops whose heads can be reached once it has returned.
    Called {
        routine: u16,
        behind: Option<usize>,
        outer: Vec<bool>,
    },
}

// A routine that is kept, and the way of its return.
#[derive(Clone, Copy, Drop)]
struct Kept {
    routine: u16,
    k: usize,
    way: Way,
}

// What a step has led to.
#[derive(Drop)]
enum Next {
    On,
    Over(Way),
    None,
}

#[derive(Drop)]
struct Walker<'a, 'c> {
    image: &'a Image,
    notes: &'a Notes,
    costs: &'c Costs,
    open: Vec<Part>,
    kept: Vec<Part>,
    // all that was done with these
    acts: Vec<Act>,
    left: Left,
    search: Search,
    levels: Vec<Level>,
    routines: Vec<Kept>,
    // the next ways, the last one first
    plan: Vec<Way>,
    ghost open_parts: { All (IsPart image.now notes.now) open.items },
    ghost kept_parts: { All (IsPart image.now notes.now) kept.items },
}

fn next_of(is_done: bool) -> Next {
    if is_done { Next::On } else { Next::None }
}

// Whether a routine takes no turns of loops beside those that it gives.
fn needs_none(turns: &[Option<Turns>]) -> bool {
    turns.iter().all(|t| t.is_some_and(|t| t.needed == 0))
}

// How many times more a turn of a loop can come, with one left.
fn more_turns(turns: &[Option<Turns>], left: &Left) -> u64 {
    let mut most: Option<u64> = None;
    for (k, t) in turns.iter().enumerate() {
        let Some(t) = *t else {
            return 0;
        };
        match t.left {
            None => {
                if let Some(times) = left.of(k).checked_div(t.needed) {
                    let fewer = times.saturating_sub(1);
                    most = Some(most.unwrap_or(fewer).min(fewer));
                }
            }
            Some(behind) => {
                if t.needed > behind {
                    return 0;
                }
            }
        }
    }
    most.unwrap_or(0)
}

// Takes the turns of a part that comes so many times.
fn take_turns(turns: &[Option<Turns>], times: u64, left: &mut Left) {
    for (k, t) in turns.iter().enumerate() {
        if let Some(t) = *t {
            let before = left.of(k);
            match t.left {
                Some(behind) => left.set(k, behind),
                None => left.set(k, before.saturating_sub(t.needed.saturating_mul(times))),
            }
        }
    }
}

impl<'a, 'c> Walker<'a, 'c> {
    // Does one act; false where that cannot be.
    fn act(&mut self, alloc: Global, act: Act) -> Result<bool, NoMemory> {
        self.acts.push(act)?;
        let (image, notes) = (self.image, self.notes);
        act_on(alloc, image, notes, &mut self.open, &mut self.kept, act)
    }

    // Closes parts that were opened for turns, down to so many levels.
    fn close_to(&mut self, alloc: Global, count: usize) -> Result<bool, NoMemory> {
        for _ in count..self.levels.len() {
            let _level = self.levels.pop();
            if !self.act(alloc, Act::Close(1))? {
                return Ok(false);
            }
        }
        Ok(true)
    }

    // Where the levels of the routine that is open begin.
    fn routine_level(&self) -> usize {
        for i in (0..self.levels.len()).rev() {
            if let Some(Level::Called { .. }) = self.levels.get(i) {
                return i + 1;
            }
        }
        0
    }

    // The level of a turn of a head in the routine that is open.
    fn turn_level(&self, at: u16) -> Option<usize> {
        for i in self.routine_level()..self.levels.len() {
            if let Some(Level::Turn(head)) = self.levels.get(i)
                && *head == at
            {
                return Some(i);
            }
        }
        None
    }

    // The last part is a whole turn: it is repeated.
    fn repeat_turn(&mut self, alloc: Global) -> Result<bool, NoMemory> {
        let _level = self.levels.pop();
        let Some(part) = self.open.last() else {
            return Ok(false);
        };
        let turns = part.turns.as_slice();
        let more = more_turns(turns, &self.left);
        if more > 0 {
            take_turns(turns, more, &mut self.left);
        }
        self.act(alloc, Act::Close(more.saturating_add(1)))
    }

    // A head is about to begin.
    fn come_to_head(&mut self, alloc: Global, at: u16, k: usize) -> Result<bool, NoMemory> {
        if let Some(level) = self.turn_level(at) {
            if !self.close_to(alloc, level.saturating_add(1))? || !self.repeat_turn(alloc)? {
                return Ok(false);
            }
            self.plan.clear();
        }
        if self.left.of(k) > 1 {
            self.levels.push(Level::Turn(at))?;
            return self.act(alloc, Act::Begin(at));
        }
        Ok(true)
    }

    // Plans the next ways from a spot.
    fn look_on(&mut self, alloc: Global, number: usize) -> Result<bool, NoMemory> {
        let outer = self.outer_of(alloc, None)?;
        let costs = self.costs;
        let (search, left) = (&mut self.search, &self.left);
        let mut plan = search.next_ways(alloc, costs, left, outer.as_slice(), number, false)?;
        if plan.is_empty() {
            plan = search.next_ways(alloc, costs, left, outer.as_slice(), number, true)?;
        }
        let is_found = !plan.is_empty();
        self.plan = plan;
        Ok(is_found)
    }

    // The pass is over by a way.
    fn finish(&mut self, alloc: Global, way: Way) -> Result<Next, NoMemory> {
        if !self.close_to(alloc, 0)? {
            return Ok(Next::None);
        }
        Ok(Next::Over(way))
    }

    // The routine returns: to where it was called, or out of the pass.
    fn go_back(&mut self, alloc: Global, way: Way) -> Result<Next, NoMemory> {
        let level = self.routine_level();
        if !self.close_to(alloc, level)? {
            return Ok(Next::None);
        }
        let Some(
            Level::Called {
                routine,
                behind,
                ..
            },
        ) = self.levels.pop()
        else {
            return self.finish(alloc, way);
        };
        let Some(part) = self.open.last() else {
            return Ok(Next::None);
        };
        if needs_none(part.turns.as_slice()) {
            let k = self.kept.len();
            self.routines.push(Kept { routine, k, way })?;
        }
        if !self.act(alloc, Act::Keep)? {
            return Ok(Next::None);
        }
        self.return_to(alloc, behind, way)
    }

    // A routine that is over returns.
    fn return_to(
        &mut self,
        alloc: Global,
        behind: Option<usize>,
        way: Way,
    ) -> Result<Next, NoMemory> {
        self.plan.clear();
        if behind.is_none() {
            return self.finish(alloc, way);
        }
        Ok(next_of(self.act(alloc, Act::Step(way))?))
    }

    // The loops whose heads are reached behind a call, in the routine that is open or in one that has called it.
    fn outer_of(&self, alloc: Global, behind: Option<usize>) -> Result<Vec<bool>, NoMemory> {
        let level = self.routine_level().saturating_sub(1);
        let mut outer = Vec::new(alloc);
        for k in 0..self.left.turns.len() {
            let is_before = match self.levels.get(level) {
                Some(Level::Called { outer, .. }) => outer.get(k).copied().unwrap_or(false),
                _ => false,
            };
            let is_behind = behind.is_some_and(|number| self.costs.reaches(number, k));
            outer.push(is_before || is_behind)?;
        }
        Ok(outer)
    }

    // A routine is called.
    fn call(&mut self, alloc: Global, way: Way, routine: u16, back: u16) -> Result<Next, NoMemory> {
        let behind = self.costs.number_of(back);
        self.plan.clear();
        if !self.act(alloc, Act::Step(way))? {
            return Ok(Next::None);
        }
        if let Some(kept) = self
            .routines
            .iter()
            .find(|kept| kept.routine == routine)
            .copied()
        {
            if let Some(part) = self.kept.get(kept.k) {
                take_turns(part.turns.as_slice(), 1, &mut self.left);
            }
            if !self.act(alloc, Act::Take(kept.k))? {
                return Ok(Next::None);
            }
            return self.return_to(alloc, behind, kept.way);
        }
        let outer = self.outer_of(alloc, behind)?;
        self.levels.push(Level::Called {
            routine,
            behind,
            outer,
        })?;
        Ok(next_of(self.act(alloc, Act::Begin(routine))?))
    }

    // The spot begins to which the last part has come.
    fn begin(&mut self, alloc: Global) -> Result<Option<usize>, NoMemory> {
        let Some(part) = self.open.last() else {
            return Ok(None);
        };
        let at = part.at;
        let Some(number) = self.costs.number_of(at) else {
            return Ok(None);
        };
        let Some(spot) = self.costs.spots.get(number) else {
            return Ok(None);
        };
        if let Some(k) = spot.heads.first()
            && !self.come_to_head(alloc, at, *k)?
        {
            return Ok(None);
        }
        if !spot.counted.is_empty() {
            self.plan.clear();
        }
        Ok(self.left.begin(self.costs, number).then_some(number))
    }

    // One step.
    fn step(&mut self, alloc: Global) -> Result<Next, NoMemory> {
        let Some(number) = self.begin(alloc)? else {
            return Ok(Next::None);
        };
        if self.plan.is_empty() && !self.look_on(alloc, number)? {
            return Ok(Next::None);
        }
        let Some(way) = self.plan.pop() else {
            return Ok(Next::None);
        };
        match way {
            Way::To { .. } => Ok(next_of(self.act(alloc, Act::Step(way))?)),
            Way::Call { target, back, .. } => self.call(alloc, way, target, back),
            Way::Back { .. } => self.go_back(alloc, way),
            Way::Out { .. } => self.finish(alloc, way),
        }
    }
}

fn left_at_first(alloc: Global, notes: &Notes, c: &Certificate) -> Result<Left, NoMemory> {
    let mut left = Left {
        turns: Vec::new(alloc),
        most: Vec::new(alloc),
        has_price: Vec::new(alloc),
    };
    for (k, l) in notes.loops.iter().enumerate() {
        left.turns.push(if l.per.is_empty() { l.most } else { 0 })?;
        left.most.push(l.most)?;
        left.has_price
            .push(c.prices.get(k).copied().unwrap_or(0) > 0)?;
    }
    Ok(left)
}

// Without an act.
fn walker_at<'a, 'c>(
    alloc: Global,
    image: &'a Image,
    notes: &'a Notes,
    costs: &'c Costs,
    c: &Certificate,
) -> Result<Walker<'a, 'c>, NoMemory> {
    Ok(Walker {
        image,
        notes,
        costs,
        open: Vec::new(alloc),
        kept: Vec::new(alloc),
        acts: Vec::new(alloc),
        left: left_at_first(alloc, notes, c)?,
        search: Search::new(alloc, costs)?,
        levels: Vec::new(alloc),
        routines: Vec::new(alloc),
        plan: Vec::new(alloc),
    })
}

/// What a walk spends that costs as much as one that is found; `None` where none is found.
pub fn find_walk(
    alloc: Global,
    image: &Image,
    notes: &Notes,
    from: u16,
    c: &Certificate,
) -> Result<Option<Vec<Spent>>, NoMemory>
    ensures { IfOk result (λ found. IfSome found (λ lines. IsWhole image.now notes.now from lines.items)) }
{
    let Some(costs) = Costs::new(alloc, image, notes, from, c)? else {
        return Ok(None);
    };
    let mut walker = walker_at(alloc, image, notes, &costs, c)?;
    if !walker.act(alloc, Act::Begin(from))? {
        return Ok(None);
    }
    for _ in 0..MOST_STEPS {
        match walker.step(alloc)? {
            Next::On => {}
            Next::Over(way) => {
                return made_by(alloc, image, notes, from, walker.acts.as_slice(), way);
            }
            Next::None => return Ok(None),
        }
    }
    Ok(None)
}
