ghost use Rattle.std.specs.Prelude.{◌≡◌, ◌<◌, ◌≤◌, ◌+◌, ◌++◌, ℕ, List, OnOk, IfOk, ◌^◌, length, slice_index, slice_set};
ghost use Rattle.kc_link_place.specs.Gaps.{Counts, Reports, Represents, begins_at, ends_at};
ghost use Rattle.kc_link_place.specs.Placing as placing;
ghost use Rattle.kc_link_place.specs.declared.pieces.Stand as the;

use crate::gaps::Gap;
use crate::pieces::Stand;
use kc_base::NoMemory;
use std::alloc::Global;

// So many numbers 0.
fn zeros(alloc: Global, count: usize) -> Result<Vec<usize>, NoMemory>
    ensures size { IfOk result (λ table. length table.items ≡ count) }
    ensures all { IfOk result (λ table. (a : ℕ) → slice_index table.items a ≡ 0) }
{
    Ok(vec![in alloc; 0usize; count]?)
}

// Counts one more at a place of a table, if it has the place.
fn raise(table: &mut Vec<usize>, place: usize)
    requires { slice_index table.old.items place + 1 < 2 ^ 64 }
    ensures { table.new.items ≡ slice_set table.old.items place (slice_index table.old.items place + 1) }
{
    if place < table.len() {
        table[place] += 1;
    }
}

// For each address, and for the one behind all, how many pieces begin there.
fn begins(alloc: Global, stands: &[Stand]) -> Result<Vec<usize>, NoMemory>
    ensures counts { IfOk result (λ table. Reports table.items (begins_at stands.now)) }
    ensures few { IfOk result (λ _. length stands.now < 2 ^ 64) }
{
    let mut table = zeros(alloc, 65_537)?;
    for stand in stands {
        raise(&mut table, stand.at as usize);
    }
    Ok(table)
}

// For each address, and for the one behind all, how many pieces end before it.
fn ends(alloc: Global, stands: &[Stand]) -> Result<Vec<usize>, NoMemory>
    ensures { IfOk result (λ table. Reports table.items (ends_at stands.now)) }
{
    let mut table = zeros(alloc, 65_537)?;
    for stand in stands {
        raise(&mut table, stand.at as usize + stand.piece.size as usize);
    }
    Ok(table)
}

/// How many pieces have each address.
pub(crate) fn cover(alloc: Global, stands: &[Stand]) -> Result<Vec<usize>, NoMemory>
    ensures { IfOk result (λ cover. Counts cover.items stands.now) }
{
    let begins = begins(alloc, stands)?;
    let ends = ends(alloc, stands)?;
    let mut cover = Vec::new(alloc);
    let mut standing = 0;
    for address in 0..65_536usize {
        standing = standing + begins[address] - ends[address];
        cover.push(standing)?;
    }
    Ok(cover)
}

/// The least address from 001AH on that two pieces have.
pub(crate) fn overlap(cover: &[usize]) -> Option<u16>
    requires { length cover.now ≡ 65536 }
    ensures { (stands : List the.Stand) → Counts cover.now stands → result ≡ placing.overlap stands }
{
    for address in 0x1A..65_536usize {
        if 2 <= cover[address] {
            return Some(address as u16);
        }
    }
    None
}

/// The addresses that no piece has.
pub(crate) fn gaps_between(alloc: Global, cover: &[usize]) -> Result<Vec<Gap>, NoMemory>
    requires { length cover.now ≡ 65536 }
    ensures { IfOk result (λ gaps. (stands : List the.Stand) → Counts cover.now stands → Represents gaps.items stands) }
{
    let mut gaps = Vec::new(alloc);
    let mut start = 0;
    for address in 0..65_536u32 {
        if 0 < cover[address as usize] {
            if start < address {
                gaps.push(Gap {
                    from: start,
                    end: address,
                })?;
            }
            start = address + 1;
        }
    }
    if start < 65_536 {
        gaps.push(Gap {
            from: start,
            end: 65_536,
        })?;
    }
    Ok(gaps)
}
