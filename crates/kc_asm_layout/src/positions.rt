//! How many pieces of text stand before the place of each statement.

ghost use Rattle.std.specs.Prelude.{◌≡◌, ◌+◌, ◌*◌, ◌≤◌, ◌<◌, ◌^◌, length, IfOk};
ghost use Rattle.kc_asm_emit.specs.Seen.{most};
ghost use Rattle.kc_asm_layout.specs.Bounds.{AreBounded, IsBounded};
ghost use Rattle.kc_asm_layout.specs.Text as spec;

use crate::size_record::{Body, SizeRecord};
use crate::text::{behind_gap, is_code, is_main, next_gap};
use kc_base::NoMemory;
use std::alloc::Global;

// The most bytes of a piece of text.
const MOST: u32 = 65535;

fn bytes_length(count: u32) -> u32
    requires { count ≤ most }
    ensures value { result ≡ length (spec.bytes_text count) }
    ensures bound { result ≤ 257 }
{
    count / MOST + 1
}

fn lead_length(gap: u8, size_record: &SizeRecord) -> u32
    ensures value { result ≡ length (spec.lead gap size_record.now) }
    ensures bound { result ≤ 257 }
{
    if !is_code(size_record.segment) {
        bytes_length(u32::from(gap))
    } else if size_record.alignment == 2 {
        1
    } else {
        0
    }
}

fn body_length(size_record: &SizeRecord) -> u32
    requires { IsBounded size_record.now }
    ensures value { result ≡ length (spec.body_text spec.nowhere size_record.now.segment size_record.now.body) }
    ensures bound { result ≤ 257 }
{
    match size_record.body {
        Body::Bytes(count) => bytes_length(count),
        Body::Upto(_) | Body::Even | Body::Branch { .. } => 1,
    }
}

fn own_length(gap: u8, size_record: &SizeRecord) -> u32
    requires { IsBounded size_record.now }
    ensures value { result ≡ length (spec.own_text spec.nowhere gap size_record.now) }
    ensures bound { result ≤ 514 }
{
    lead_length(gap, size_record) + body_length(size_record)
}

fn main_length(gap: u8, size_record: &SizeRecord) -> u32
    requires { IsBounded size_record.now }
    ensures value { result ≡ length (spec.main_text spec.nowhere gap size_record.now) }
    ensures bound { result ≤ 514 }
{
    if is_main(size_record.segment) {
        own_length(gap, size_record)
    } else {
        0
    }
}

fn absolute_length(gap: u8, size_record: &SizeRecord) -> u32
    requires { IsBounded size_record.now }
    ensures value { result ≡ length (spec.absolute_text spec.nowhere gap size_record.now) }
    ensures bound { result ≤ 515 }
{
    let own = if size_record.segment.is_absolute() {
        own_length(gap, size_record)
    } else {
        0
    };
    own + u32::from(size_record.opens.is_some())
}

// How many pieces of text the relocatable code has.
#[tactic(auto, unfolding(crate::specs::Text::text_by))]
fn whole_main_length(gaps: &[u8], size_records: &[SizeRecord]) -> u32
    requires { AreBounded size_records.now }
    ensures value { result ≡ length (spec.text_by (spec.main_text spec.nowhere) gaps.now size_records.now) }
    ensures bound { result ≤ 2 ^ 26 }
{
    let mut count = 0;
    let mut later = gaps;
    for size_record in size_records {
        count += main_length(next_gap(later), size_record);
        later = behind_gap(later);
    }
    count
}

fn position(main: u32, absolute: u32, gap: u8, size_record: &SizeRecord) -> u32
    requires main { main ≤ 2 ^ 30 }
    requires absolute { absolute ≤ 2 ^ 30 }
    ensures { result ≡ spec.position main absolute gap size_record.now }
{
    if is_main(size_record.segment) {
        main + lead_length(gap, size_record)
    } else if size_record.segment.is_absolute() {
        absolute + lead_length(gap, size_record)
    } else {
        0
    }
}

// For each statement, how many pieces of text stand before its place.
#[tactic(auto, unfolding(crate::specs::Text::positions_from))]
pub(crate) fn positions(
    alloc: Global,
    gaps: &[u8],
    size_records: &[SizeRecord],
) -> Result<Vec<u32>, NoMemory>
    requires { AreBounded size_records.now }
    ensures { IfOk result (λ v. v.items ≡ spec.positions gaps.now size_records.now) }
{
    let mut positions = Vec::new(alloc);
    let mut main = 0;
    let mut absolute = whole_main_length(gaps, size_records);
    let mut later = gaps;
    for size_record in size_records {
        let gap = next_gap(later);
        positions.push(position(main, absolute, gap, size_record))?;
        main += main_length(gap, size_record);
        absolute += absolute_length(gap, size_record);
        later = behind_gap(later);
    }
    Ok(positions)
}
