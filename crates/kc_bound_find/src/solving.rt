// The prices and the longest ways of all routines, as a certificate.
ghost use Rattle.std.specs.Prelude.{◌≡◌, ◌-◌, IfOk, vec_len};
ghost use Rattle.kc_bound_find.specs.Answers as spec;

use crate::by_address::ByAddress;
use crate::longest::Longest;
use crate::loops::Loops;
use crate::refusal::Why;
use crate::routines::{
    calls_of, early_heads, kept_behind, leaving, order_of, ranks_of, recursive_routines,
};
use crate::settling::Settling;
use crate::table::Table;
use kc_base::{IMAGE_START, NoMemory, ROM_END};
use kc_bound::{Certificate, Notes, Standing};
use std::alloc::Global;

/// A certificate; or why there is none, beside what is refused of instructions.
#[derive(Drop)]
pub(crate) enum Solved {
    Certificate(Certificate),
    Refused(Why, Vec<u16>),
}

// A number of a certificate; one that is too large is refused by the check.
fn limited(number: i128) -> u64 {
    u64::try_from(number.max(0)).unwrap_or(u64::MAX)
}

// The least that is found of any address, or 0.
fn least_of(table: &Table, longest: &Longest<'_>) -> i128 {
    let mut least: i128 = 0;
    for at in table.reached.iter() {
        least = least.min(longest.best_at(*at).unwrap_or(0));
    }
    least
}

// The addresses from which no way leads out.
fn endless_addresses(
    alloc: Global,
    table: &Table,
    longest: &Longest<'_>,
) -> Result<Vec<u16>, NoMemory> {
    let mut endless = Vec::new(alloc);
    for at in table.reached.iter() {
        if longest.best_at(*at).is_none() {
            endless.push(*at)?;
        }
    }
    Ok(endless)
}

// What is found of an address, above the least.
fn standing_at(
    longest: &Longest<'_>,
    ranks: &ByAddress<u16>,
    leaves: &ByAddress<bool>,
    least: i128,
    at: u16,
) -> Option<Standing> {
    let best = longest.best_at(at)?;
    Some(Standing {
        potential: limited(best.saturating_sub(least)),
        rank: ranks.get(at),
        leaves: leaves.get(at),
    })
}

// A standing for each address of the ROM of which something is found.
fn standings_of(
    alloc: Global,
    table: &Table,
    longest: &Longest<'_>,
    leaves: &ByAddress<bool>,
    least: i128,
) -> Result<Vec<Option<Standing>>, NoMemory>
    ensures { IfOk result (λ v. vec_len v ≡ ROM_END - IMAGE_START) }
{
    let ranks = ranks_of(alloc, table)?;
    let mut standings = Vec::new(alloc);
    for at in IMAGE_START..ROM_END {
        standings.push(standing_at(longest, &ranks, leaves, least, at))?;
    }
    Ok(standings)
}

// The price of each loop.
fn prices_of(alloc: Global, notes: &Notes, longest: &Longest<'_>) -> Result<Vec<u64>, NoMemory>
    ensures { IfOk result (λ v. vec_len v ≡ vec_len notes.now.loops) }
{
    let mut prices = Vec::new(alloc);
    for k in 0..notes.loops.len() {
        let found = longest.loops.prices().get(k).copied();
        prices.push(limited(found.unwrap_or(0)))?;
    }
    Ok(prices)
}

// What is found, above the floor that the least of it needs.
fn certificate_of(
    alloc: Global,
    table: &Table,
    notes: &Notes,
    longest: &Longest<'_>,
    leaves: &ByAddress<bool>,
) -> Result<Certificate, NoMemory>
    ensures { IfOk result (spec.HasShape notes.now) }
{
    let least = least_of(table, longest);
    Ok(Certificate {
        standings: standings_of(alloc, table, longest, leaves, least)?,
        prices: prices_of(alloc, notes, longest)?,
        floor: limited(least.saturating_neg()),
    })
}

// By an order of the routines in which none is recursive.
fn solve_in_order(
    alloc: Global,
    table: &Table,
    notes: &Notes,
    order: &[Vec<u16>],
    is_refused: bool,
) -> Result<Solved, NoMemory>
    ensures { IfOk result (spec.IsSolved is_refused notes.now) }
{
    let leaves = leaving(alloc, table)?;
    let kept = kept_behind(alloc, table, notes, &leaves)?;
    let longest = Longest::new(alloc, table, Loops::new(alloc, notes)?, kept)?;
    let mut settling = Settling::new(alloc, longest);
    settling.settle_all(alloc, order)?;
    let Settling { longest, open } = settling;
    if is_refused || !open.is_empty() {
        return Ok(Solved::Refused(Why::Unbounded, open));
    }
    let endless = endless_addresses(alloc, table, &longest)?;
    if !endless.is_empty() {
        return Ok(Solved::Refused(Why::Endless, endless));
    }
    let found = certificate_of(alloc, table, notes, &longest, &leaves)?;
    Ok(Solved::Certificate(found))
}

/// A certificate by the ways from all addresses that are reached. There is none where instructions are refused.
pub(crate) fn solve(
    alloc: Global,
    table: &Table,
    notes: &Notes,
    from: u16,
    is_refused: bool,
) -> Result<Solved, NoMemory>
    ensures { IfOk result (spec.IsSolved is_refused notes.now) }
{
    let early = early_heads(alloc, table, notes, from)?;
    if !early.is_empty() {
        return Ok(Solved::Refused(Why::Early, early));
    }
    let calls = calls_of(alloc, table, from)?;
    let order = order_of(alloc, &calls)?;
    let recursive = recursive_routines(alloc, &calls, order.as_slice())?;
    if !recursive.is_empty() {
        return Ok(Solved::Refused(Why::Recursive, recursive));
    }
    solve_in_order(alloc, table, notes, order.as_slice(), is_refused)
}
