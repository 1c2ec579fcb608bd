//! Where statements stand, with one form for each.

ghost use Rattle.std.specs.Prelude.{◌≡◌, ℕ, ◌+◌, ◌-◌, ◌<◌, ◌≤◌, ◌^◌, length, drop, slice_index, slice_set, All, IfOk};
ghost use Rattle.kc_branch.specs.Forms.{head_form};
ghost use Rattle.kc_asm_emit.specs.Alignment as alignment;
ghost use Rattle.kc_asm_layout.specs.Bounds.{AreBounded, IsBounded};
ghost use Rattle.kc_asm_layout.specs.Places as spec;

use crate::location::Location;
use crate::size_record::{Body, SizeRecord};
use kc_asm_emit::gap;
use kc_base::NoMemory;
use kc_branch::{Form, branch_length};
use std::alloc::Global;

// The form of the next statement; behind the last one, the first form.
pub(crate) fn head_form(forms: &[Form]) -> Form
    ensures { result ≡ head_form forms.now }
{
    match forms {
        [] => Form::First,
        [form, ..] => *form,
    }
}

// How many bytes of filling lead to the next place that is divisible.
#[tactic(auto, using(crate::proofs::Gaps::gap_again, crate::proofs::Gaps::gap_of_none))]
fn gap_at(place: u64, align: u32) -> u32
    ensures value { result ≡ alignment.gap place align }
    ensures less { result ≤ align - 1 }
{
    if align == 0 {
        0
    } else {
        gap((place % u64::from(align)) as u32, align)
    }
}

// The place behind a statement.
fn passed(form: Form, place: u64, body: &Body) -> u64
    requires { place < 2 ^ 62 }
    ensures value { result ≡ spec.passed form place body.now }
    ensures bound { result < place + 2 ^ 32 }
{
    match *body {
        Body::Bytes(count) => place + u64::from(count),
        Body::Upto(to) => u64::from(to),
        Body::Even => place + place % 2,
        Body::Branch { kind, .. } => place + u64::from(branch_length(kind, form)),
    }
}

// Where a piece ends so far.
fn end_at(ends: &[u64], piece: usize) -> u64
    ensures { result ≡ slice_index ends.now piece }
{
    ends.get(piece).copied().unwrap_or(0)
}

// The address of a piece, where it is absolute.
fn address_in(addresses: &[Option<u16>], piece: usize) -> Option<u16>
    ensures { result ≡ spec.address_in addresses.now piece }
{
    addresses.get(piece).copied().unwrap_or(None)
}

// The addresses of all pieces, by their numbers.
#[tactic(auto, unfolding(crate::specs::Places::opened))]
fn addresses(alloc: Global, size_records: &[SizeRecord]) -> Result<Vec<Option<u16>>, NoMemory>
    ensures { IfOk result (λ v. v.items ≡ spec.addresses size_records.now) }
{
    let mut addresses = Vec::new(alloc);
    addresses.push(None)?;
    addresses.push(None)?;
    addresses.push(None)?;
    for size_record in size_records {
        if size_record.opens.is_some() {
            addresses.push(size_record.opens)?;
        }
    }
    Ok(addresses)
}

// Where a statement stands.
fn location_of(
    addresses: &[Option<u16>],
    form: Form,
    ends: &[u64],
    size_record: &SizeRecord,
) -> Location
    requires ends { (k : ℕ) → slice_index ends.now k < 2 ^ 61 }
    requires bounded { IsBounded size_record.now }
    ensures value { result ≡ spec.location_of addresses.now form ends.now size_record.now }
    ensures bound { result.after < slice_index ends.now size_record.now.segment.piece + 2 ^ 33 + 65536 }
    ensures near { spec.IsNear result }
{
    let piece = size_record.segment.piece;
    let before = end_at(ends, piece);
    let place = before + u64::from(gap_at(before, size_record.alignment));
    Location {
        before,
        place,
        after: passed(form, place, &size_record.body),
        address: address_in(addresses, piece),
        form,
        body: size_record.body,
    }
}

// Behind a statement: its piece ends there, and the piece that it opens begins.
fn pass(mut ends: Vec<u64>, after: u64, size_record: &SizeRecord) -> Result<Vec<u64>, NoMemory>
    ensures value { IfOk result (λ v. v.items ≡ spec.begun size_record.now.opens (slice_set ends.items size_record.now.segment.piece after)) }
    ensures bound { (most : ℕ) → 65536 ≤ most → after ≤ most → ((k : ℕ) → slice_index ends.items k ≤ most) → IfOk result (λ v. (k : ℕ) → slice_index v.items k ≤ most) }
{
    let piece = size_record.segment.piece;
    if piece < ends.len() {
        ends[piece] = after;
    }
    if let Some(address) = size_record.opens {
        ends.push(u64::from(address))?;
    }
    Ok(ends)
}

// The locations of all statements, with one form for each.
#[tactic(auto, unfolding(crate::specs::Places::locations_from))]
pub(crate) fn locations(
    alloc: Global,
    size_records: &[SizeRecord],
    forms: &[Form],
) -> Result<Vec<Location>, NoMemory>
    requires { AreBounded size_records.now }
    ensures value { IfOk result (λ v. v.items ≡ spec.locations forms.now size_records.now) }
    ensures each { IfOk result (λ v. length v.items ≡ length size_records.now) }
    ensures near { IfOk result (λ v. All spec.IsNear v.items) }
{
    let addresses = addresses(alloc, size_records)?;
    let mut ends = Vec::from_array(alloc, [0, 0, 0])?;
    let mut locations = Vec::new(alloc);
    let mut later = forms;
    for size_record in size_records {
        let location = location_of(&addresses, head_form(later), &ends, size_record);
        locations.push(location)?;
        ends = pass(ends, location.after, size_record)?;
        later = rest_of(later);
    }
    Ok(locations)
}

// The forms behind the next one.
pub(crate) fn rest_of(forms: &[Form]) -> &[Form]
    ensures { result.now ≡ drop 1 forms.now }
{
    match forms {
        [] => forms,
        [_, rest @ ..] => rest,
    }
}
