//! Which line of an expansion has the fault.

ghost use Rattle.std.specs.Prelude.{◌≡◌, ◌≤◌, ◌<◌, length, true, false, IfOk};
ghost use Rattle.std.specs.List.{list_all};
ghost use Rattle.std.specs.Option.{is_none};
ghost use Rattle.kc_asm_origin.specs.Origin as spec;
ghost use Rattle.kc_asm_origin.specs.First.{with_first};
ghost use Rattle.kc_asm_origin.specs.Reported.{Reports};

use crate::reporting::{reports, reports_with};
use kc_base::NoMemory;
use kc_lex::{Line, LineFault};
use std::alloc::Global;

// Of the lines of the fault's number, of which there are so many, the one that has it.
fn faulty_line(
    alloc: Global,
    text: &[Line],
    fault: LineFault,
    count: usize,
) -> Result<usize, NoMemory>
    requires few { length text.now ≤ 65535 }
    requires some { 0 < count }
    requires with { Reports (with_first fault.0 count text.now) fault true }
    requires without { Reports (with_first fault.0 0 text.now) fault false }
    ensures { IfOk result (λ k. spec.IsFaultyLine fault text.now count k) }
{
    let mut low = 0;
    let mut high = count;
    while low + 1 < high {
        let middle = low + (high - low) / 2;
        if reports_with(alloc, text, fault, middle)? {
            high = middle;
        } else {
            low = middle;
        }
    }
    Ok(low)
}

fn are_in_place(places: &[Option<u32>]) -> bool
    ensures { result ≡ list_all is_none places.now }
{
    places.iter().all(|place| place.is_none())
}

/// Where the line that has the fault was written, if elsewhere, by where the lines of its number were written.
pub(crate) fn origin_in(
    alloc: Global,
    text: &[Line],
    fault: LineFault,
    places: &[Option<u32>],
) -> Result<Option<u32>, NoMemory>
    requires few { length text.now ≤ 65535 }
    requires all { with_first fault.0 (length places.now) text.now ≡ text.now }
    ensures { IfOk result (λ found. spec.IsOriginIn fault text.now places.now found) }
{
    if are_in_place(places) {
        return Ok(None);
    }
    if !reports(alloc, text, fault)? {
        return Ok(None);
    }
    if reports_with(alloc, text, fault, 0)? {
        return Ok(None);
    }
    let k = faulty_line(alloc, text, fault, places.len())?;
    Ok(places.get(k).copied().flatten())
}
