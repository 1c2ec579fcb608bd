ghost use Rattle.std.specs.Prelude.{◌≡◌, ◌<◌, ◌≤◌, ◌+◌, ◌++◌, ℕ, List, OnOk, OnErr, length, take, drop, true};
ghost use Rattle.kc_link_place.specs.Ranges.{step_of};
ghost use Rattle.kc_link_place.specs.Stands.{least_free};
ghost use Rattle.kc_link_place.specs.Gaps.{Represents, first_fit, empty_fit, up};
ghost use Rattle.kc_link_place.specs.Gaps as gap;
ghost use Rattle.kc_link_place.specs.declared.pieces.Stand.{Stand};

use kc_base::NoMemory;
use kc_obj_module::SegKind;

/// Free addresses, from the first one up to the end, which is not among them.
#[derive(Clone, Copy)]
pub struct Gap {
    pub from: u32,
    pub end: u32,
}

// The least address from one on that suits the kind.
fn aligned(kind: SegKind, from: u32) -> u64
    ensures { result ≡ up kind from }
{
    let from = u64::from(from);
    match kind {
        SegKind::Reg => (from + 3) / 4 * 4,
        _ => (from + 1) / 2 * 2,
    }
}

// The first suitable address of a range in the first gap that has room there for so many bytes.
fn first_in(gaps: &[Gap], kind: SegKind, range: (u16, u16), count: u32) -> Option<u16>
    requires { 0 < count }
    ensures { result ≡ first_fit range.0 range.1 kind count gaps.now }
{
    let mut left = gaps;
    while let [gap, rest @ ..] = left {
        let at = aligned(kind, gap.from.max(range.0 as u32));
        if at + u64::from(count) <= u64::from(gap.end.min(range.1 as u32 + 1)) {
            return Some(at as u16);
        }
        left = rest;
    }
    None
}

// The first suitable address of a range.
fn first_of(kind: SegKind, range: (u16, u16)) -> Option<u16>
    ensures { result ≡ empty_fit kind range.0 range.1 }
{
    let at = aligned(kind, range.0 as u32);
    if at <= u64::from(range.1) {
        Some(at as u16)
    } else {
        None
    }
}

/// The least address of a range at which so many bytes of a kind are free, where the gaps are all that is free.
pub(crate) fn find(gaps: &[Gap], kind: SegKind, range: (u16, u16), count: u32) -> Option<u16>
    ensures { (taken : List Stand) → Represents gaps.now taken → result ≡ least_free taken (range.0, range.1) (step_of kind) count }
{
    if count == 0 {
        first_of(kind, range)
    } else {
        first_in(gaps, kind, range, count)
    }
}

/// Takes so many addresses from one on out of the gap that has them. A refusal leaves the gaps in no certain state.
pub(crate) fn cut(gaps: &mut Vec<Gap>, at: u16, count: u16) -> Result<(), NoMemory>
    ensures { OnOk result (gaps.new.items ≡ gap.cut gaps.old.items at count) }
{
    let from = at as u32;
    let end = from + count as u32;
    let mut i = 0;
    while i < gaps.len() {
        let gap = gaps[i];
        if gap.from <= from && end <= gap.end {
            gaps[i].end = from;
            gaps.insert(
                i + 1,
                Gap {
                    from: end,
                    end: gap.end,
                },
            )?;
            return Ok(());
        }
        i += 1;
    }
    Ok(())
}
