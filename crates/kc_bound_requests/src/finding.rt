// A certificate is sought by going over the addresses that are reached, until nothing more is allowed. What it is worth, `checked` says.
ghost use Rattle.std.specs.Prelude.{◌≡◌, ◌-◌, ◌<◌, vec_len, IfOk, IfSome};

use crate::certificate::{EnabledAt, EnabledSet, RequestCertificate};
use crate::checking::{NO_SET, NOTHING, is_in, is_past, number_of};
use crate::enabled::EACH;
use crate::work::{may_leave, work_at};
use kc_base::{IMAGE_START, Image, NoMemory, ROM_END};
use kc_bound::{Notes, Way, ways};
use kc_exec_spec::Plan;
use std::alloc::Global;

/// How many addresses the ROM has.
const ADDRESSES: usize = 0x4000;

// What is allowed so far, and which addresses were reached.
#[derive(Drop)]
struct Allowed {
    places: Vec<EnabledAt>,
    ghost whole: { vec_len places ≡ 16384 },
}

#[derive(Drop)]
struct Reached {
    marks: Vec<bool>,
    ghost whole: { vec_len marks ≡ 16384 },
}

// An address that is reached, with the work there and the ways on.
#[derive(Drop)]
struct Step {
    at: u16,
    work: Option<Plan>,
    ways: Vec<Way>,
}

// The place of an address of the ROM.
pub(crate) fn place_of(at: u16) -> Option<usize>
    ensures { IfSome result (λ k. k < 16384) }
{
    if at < IMAGE_START || at >= ROM_END {
        return None;
    }
    Some(usize::from(at - IMAGE_START))
}

fn joined(a: EnabledSet, b: EnabledSet) -> EnabledSet {
    EnabledSet {
        bits: a.bits | b.bits,
    }
}

// All that work may leave where one of a set was before it.
fn after(work: Option<Plan>, before: EnabledSet) -> EnabledSet {
    let mut left = NO_SET;
    for old in EACH.iter() {
        if is_in(before, *old) {
            for new in EACH.iter() {
                if may_leave(work, *old, *new) {
                    let bits = 1 << number_of(*new);
                    left = joined(left, EnabledSet { bits });
                }
            }
        }
    }
    left
}

impl Allowed {
    fn new(alloc: Global) -> Result<Allowed, NoMemory> {
        let mut places = Vec::new(alloc);
        'fill: while places.len() < ADDRESSES {
            places.push(NOTHING)?;
        }
        Ok(Allowed { places })
    }

    fn at(&self, at: u16) -> EnabledAt {
        match place_of(at) {
            Some(k) => self.places[k],
            None => NOTHING,
        }
    }

    // Allows these before an address too; whether that is more.
    fn allow_before(&mut self, at: u16, set: EnabledSet) -> bool {
        let Some(k) = place_of(at) else {
            return false;
        };
        let EnabledAt { before, behind } = self.places[k];
        let all = joined(before, set);
        self.places[k] = EnabledAt {
            before: all,
            behind,
        };
        all.bits != before.bits
    }

    // Allows these behind the return of the routine at an address.
    fn allow_behind(&mut self, at: u16, set: EnabledSet) -> bool {
        let Some(k) = place_of(at) else {
            return false;
        };
        let EnabledAt { before, behind } = self.places[k];
        let all = joined(behind, set);
        self.places[k] = EnabledAt {
            before,
            behind: all,
        };
        all.bits != behind.bits
    }

    // What one way asks, where so much is left at its address.
    fn follow(&mut self, at: u16, left: EnabledSet, way: Way) -> bool {
        match way {
            Way::To { target, .. } => {
                let inside = self.at(target).behind;
                let on = self.allow_before(target, left);
                let behind = self.allow_behind(at, inside);
                on || behind
            }
            Way::Call { target, back, .. } => {
                let returned = self.at(target).behind;
                let inside = self.at(back).behind;
                let on = self.allow_before(target, left);
                let after = self.allow_before(back, returned);
                let behind = self.allow_behind(at, inside);
                on || after || behind
            }
            Way::Back { .. } => self.allow_behind(at, left),
            Way::Out { .. } => false,
        }
    }

    // What all ways ask. Nothing is asked of an address to which no pass comes.
    fn follow_all(&mut self, step: &Step) -> bool {
        let before = self.at(step.at).before;
        if before.bits == 0 {
            return false;
        }
        let left = after(step.work, before);
        let mut is_more = false;
        for way in step.ways.iter() {
            let more = self.follow(step.at, left, *way);
            is_more = is_more || more;
        }
        is_more
    }

    // Once from the first address to the last, as what is left is handed on, and once back, as what returns is.
    fn sweep(&mut self, steps: &[Step]) -> bool {
        let mut is_more = false;
        for step in steps.iter() {
            let more = self.follow_all(step);
            is_more = is_more || more;
        }
        let count = steps.len();
        for k in 0..count {
            let more = self.follow_all(&steps[count - 1 - k]);
            is_more = is_more || more;
        }
        is_more
    }
}

impl Reached {
    fn new(alloc: Global) -> Result<Reached, NoMemory> {
        let mut marks = Vec::new(alloc);
        'fill: while marks.len() < ADDRESSES {
            marks.push(false)?;
        }
        Ok(Reached { marks })
    }

    // Marks an address of the ROM; whether it had no mark.
    fn mark(&mut self, at: u16) -> bool {
        let Some(k) = place_of(at) else {
            return false;
        };
        let is_new = !self.marks[k];
        self.marks[k] = true;
        is_new
    }
}

// Where ways lead to is looked at later.
fn put_targets(todo: &mut Vec<u16>, ways: &[Way]) -> Result<(), NoMemory> {
    for way in ways.iter() {
        match *way {
            Way::To { target, .. } => todo.push(target)?,
            Way::Call { target, back, .. } => {
                todo.push(back)?;
                todo.push(target)?;
            }
            Way::Back { .. } | Way::Out { .. } => {}
        }
    }
    Ok(())
}

// The addresses that passes come to, each with its ways; those without ways are left out.
fn reach(alloc: Global, image: &Image, notes: &Notes, from: u16) -> Result<Vec<Step>, NoMemory> {
    let mut reached = Reached::new(alloc)?;
    let mut steps = Vec::new(alloc);
    let mut todo = vec![in alloc; from]?;
    for _ in 0..u64::MAX {
        let Some(at) = todo.pop() else {
            break;
        };
        if reached.mark(at) && !is_past(notes, from, at) {
            if let Some(ways) = ways(alloc, image, notes, at)? {
                put_targets(&mut todo, ways.as_slice())?;
                steps.push(Step {
                    at,
                    work: work_at(image, at),
                    ways,
                })?;
            }
        }
    }
    Ok(steps)
}

/// A certificate for the passes from an address that begin with one of a set. It is meant to be closed, and `checked` says whether it is.
pub fn find(
    alloc: Global,
    image: &Image,
    notes: &Notes,
    from: u16,
    first: EnabledSet,
) -> Result<RequestCertificate, NoMemory>
    ensures { IfOk result (λ c. vec_len c.places ≡ ROM_END - IMAGE_START) }
{
    let steps = reach(alloc, image, notes, from)?;
    let mut allowed = Allowed::new(alloc)?;
    allowed.allow_before(from, first);
    for _ in 0..u64::MAX {
        if !allowed.sweep(steps.as_slice()) {
            break;
        }
    }
    Ok(RequestCertificate {
        places: allowed.places,
    })
}
