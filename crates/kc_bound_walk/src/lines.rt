// What walks spend, by address and number of states.
ghost use Rattle.std.specs.Prelude.{◌≡◌, map, IfOk, IfSome, IsTrue};
ghost use Rattle.kc_bound_walk.specs.Walks as spec;
ghost use Rattle.kc_bound_walk.specs.Parts.{times_more};

use kc_base::NoMemory;
use std::alloc::Global;

/// So many state times are spent at an address, so many times.
#[derive(Clone, Copy, Drop)]
pub struct Spent {
    pub at: u16,
    pub states: u32,
    pub times: u64,
}

fn is_alike(s: Spent, t: Spent) -> bool
    ensures { result ≡ spec.is_alike s t }
{
    s.at == t.at && s.states == t.states
}

/// Adds to the line of an address and a number of states, which is put behind the others where there is none; false where it would be
/// too large.
pub(crate) fn add(lines: &mut Vec<Spent>, s: Spent) -> Result<bool, NoMemory>
    ensures { IfOk result (λ is_done. IsTrue is_done → lines.new.items ≡ spec.with_spent lines.old.items s) }
{
    for k in 0..lines.len() {
        let line = lines[k];
        if is_alike(line, s) {
            let Some(times) = line.times.checked_add(s.times) else {
                return Ok(false);
            };
            lines[k] = Spent {
                at: line.at,
                states: line.states,
                times,
            };
            return Ok(true);
        }
    }
    lines.push(s)?;
    Ok(true)
}

/// Adds each of some lines; false where one would be too large.
#[tactic(auto, unfolding(crate::specs::Walks::with_all))]
pub(crate) fn add_all(lines: &mut Vec<Spent>, more: &[Spent]) -> Result<bool, NoMemory>
    ensures { IfOk result (λ is_done. IsTrue is_done → lines.new.items ≡ spec.with_all lines.old.items more.now) }
{
    let mut left = more;
    while let [s, rest @ ..] = left {
        if !add(lines, *s)? {
            return Ok(false);
        }
        left = rest;
    }
    Ok(true)
}

/// The same lines so many times; `None` where one would be too large.
pub(crate) fn multiplied(
    alloc: Global,
    lines: &[Spent],
    times: u64,
) -> Result<Option<Vec<Spent>>, NoMemory>
    ensures { IfOk result (λ found. IfSome found (λ all. all.items ≡ map (times_more times) lines.now)) }
{
    let mut all = Vec::new(alloc);
    let mut left = lines;
    while let [s, rest @ ..] = left {
        let Some(more) = times.checked_mul(s.times) else {
            return Ok(None);
        };
        all.push(Spent {
            at: s.at,
            states: s.states,
            times: more,
        })?;
        left = rest;
    }
    Ok(Some(all))
}
