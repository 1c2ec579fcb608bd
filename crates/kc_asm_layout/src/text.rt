//! The text in which the forms of generic branches are chosen.

ghost use Rattle.std.specs.Prelude.{◌≡◌, ◌++◌, ◌∷◌, [], Some, drop, slice_index, IfOk};
ghost use Rattle.kc_asm_layout.specs.declared.size_record.Body.TheVariants.{Branch};
ghost use Rattle.kc_asm_layout.specs.Numbered as numbered;
ghost use Rattle.kc_asm_layout.specs.Text as spec;

use crate::size_record::{Anchor, Body, SizeRecord};
use kc_asm_symbols::Segment;
use kc_base::NoMemory;
use kc_branch::{BranchKind, Form, Piece, branch_length};
use kc_obj_module::SegKind;
use std::alloc::Global;

// The most bytes of a piece of text.
const MOST: u32 = 65535;

pub(crate) fn is_code(segment: Segment) -> bool
    ensures { result ≡ numbered.is_code segment }
{
    match segment.kind {
        SegKind::Code => true,
        SegKind::Reg | SegKind::Ram | SegKind::Stack => false,
    }
}

// The relocatable code.
pub(crate) fn is_main(segment: Segment) -> bool
    ensures { result ≡ spec.is_main segment }
{
    segment.piece == 1
}

// ---- targets

fn is_same_base(one: Segment, other: Segment) -> bool
    ensures { result ≡ spec.is_same_base one other }
{
    (one.is_absolute() && other.is_absolute()) || one.piece == other.piece
}

fn segment_at(size_records: &[SizeRecord], number: u16) -> Segment
    ensures { result ≡ spec.segment_at size_records.now number }
{
    match size_records.get(usize::from(number)) {
        None => Segment::first(),
        Some(size_record) => size_record.segment,
    }
}

// How many pieces of text stand before the place of a statement.
fn position_at(positions: &[u32], number: u16) -> u32
    ensures { result ≡ slice_index positions.now number }
{
    positions.get(usize::from(number)).copied().unwrap_or(0)
}

// What the target of a branch is in the text, by the segment of the branch.
fn target_in(
    positions: &[u32],
    size_records: &[SizeRecord],
    segment: Segment,
    anchor: Anchor,
) -> Option<(u32, i16)>
    ensures { result ≡ spec.target_in positions.now size_records.now segment anchor }
{
    match anchor {
        Anchor::Statement { number, distance } => {
            if is_same_base(segment, segment_at(size_records, number)) {
                Some((position_at(positions, number), distance))
            } else {
                None
            }
        }
        Anchor::External | Anchor::Nothing => None,
    }
}

// ---- one statement

// So many bytes.
fn push_bytes(text: &mut Vec<Piece>, count: u32) -> Result<(), NoMemory>
    ensures { IfOk result (λ _. text.new.items ≡ text.old.items ++ spec.bytes_text count) }
{
    for _part in 0..count / MOST {
        text.push(Piece::Bytes(65535))?;
    }
    text.push(Piece::Bytes((count % MOST) as u16))?;
    Ok(())
}

// What leads to the place of a statement.
fn push_lead(text: &mut Vec<Piece>, gap: u8, size_record: &SizeRecord) -> Result<(), NoMemory>
    ensures { IfOk result (λ _. text.new.items ≡ text.old.items ++ spec.lead gap size_record.now) }
{
    if !is_code(size_record.segment) {
        return push_bytes(text, u32::from(gap));
    }
    if size_record.alignment == 2 {
        text.push(Piece::Even)?;
    }
    Ok(())
}

// A branch, which outside code keeps its first form.
fn branch_text(
    positions: &[u32],
    size_records: &[SizeRecord],
    segment: Segment,
    kind: BranchKind,
    anchor: Anchor,
) -> Piece
    ensures { result ∷ [] ≡ spec.body_text (spec.target_in positions.now size_records.now) segment (Branch kind anchor) }
{
    if is_code(segment) {
        Piece::Branch {
            kind,
            target: target_in(positions, size_records, segment, anchor),
        }
    } else {
        Piece::Bytes(branch_length(kind, Form::First))
    }
}

fn push_body(
    text: &mut Vec<Piece>,
    positions: &[u32],
    size_records: &[SizeRecord],
    size_record: &SizeRecord,
) -> Result<(), NoMemory>
    ensures { IfOk result (λ _. text.new.items ≡ text.old.items ++ spec.body_text (spec.target_in positions.now size_records.now) size_record.now.segment size_record.now.body) }
{
    match size_record.body {
        Body::Bytes(count) => push_bytes(text, count),
        Body::Upto(to) => {
            text.push(Piece::At(to))?;
            Ok(())
        }
        Body::Even => {
            text.push(Piece::Even)?;
            Ok(())
        }
        Body::Branch { kind, anchor } => {
            text.push(branch_text(positions, size_records, size_record.segment, kind, anchor))?;
            Ok(())
        }
    }
}

fn push_own(
    text: &mut Vec<Piece>,
    positions: &[u32],
    size_records: &[SizeRecord],
    gap: u8,
    size_record: &SizeRecord,
) -> Result<(), NoMemory>
    ensures { IfOk result (λ _. text.new.items ≡ text.old.items ++ spec.own_text (spec.target_in positions.now size_records.now) gap size_record.now) }
{
    push_lead(text, gap, size_record)?;
    push_body(text, positions, size_records, size_record)
}

fn push_main(
    text: &mut Vec<Piece>,
    positions: &[u32],
    size_records: &[SizeRecord],
    gap: u8,
    size_record: &SizeRecord,
) -> Result<(), NoMemory>
    ensures { IfOk result (λ _. text.new.items ≡ text.old.items ++ spec.main_text (spec.target_in positions.now size_records.now) gap size_record.now) }
{
    if is_main(size_record.segment) {
        push_own(text, positions, size_records, gap, size_record)?;
    }
    Ok(())
}

fn push_absolute(
    text: &mut Vec<Piece>,
    positions: &[u32],
    size_records: &[SizeRecord],
    gap: u8,
    size_record: &SizeRecord,
) -> Result<(), NoMemory>
    ensures { IfOk result (λ _. text.new.items ≡ text.old.items ++ spec.absolute_text (spec.target_in positions.now size_records.now) gap size_record.now) }
{
    if size_record.segment.is_absolute() {
        push_own(text, positions, size_records, gap, size_record)?;
    }
    if let Some(address) = size_record.opens {
        text.push(Piece::At(address))?;
    }
    Ok(())
}

// ---- all statements, with the gap before each

pub(crate) fn next_gap(gaps: &[u8]) -> u8
    ensures { result ≡ spec.next_gap gaps.now }
{
    match gaps {
        [] => 0,
        [gap, ..] => *gap,
    }
}

pub(crate) fn behind_gap(gaps: &[u8]) -> &[u8]
    ensures { result.now ≡ drop 1 gaps.now }
{
    match gaps {
        [] => gaps,
        [_, rest @ ..] => rest,
    }
}

#[tactic(auto, unfolding(crate::specs::Text::text_by))]
fn push_all_main(
    text: &mut Vec<Piece>,
    positions: &[u32],
    gaps: &[u8],
    size_records: &[SizeRecord],
) -> Result<(), NoMemory>
    ensures { IfOk result (λ _. text.new.items ≡ text.old.items ++ spec.text_by (spec.main_text (spec.target_in positions.now size_records.now)) gaps.now size_records.now) }
{
    let mut later = gaps;
    for size_record in size_records {
        push_main(text, positions, size_records, next_gap(later), size_record)?;
        later = behind_gap(later);
    }
    Ok(())
}

#[tactic(auto, unfolding(crate::specs::Text::text_by))]
fn push_all_absolute(
    text: &mut Vec<Piece>,
    positions: &[u32],
    gaps: &[u8],
    size_records: &[SizeRecord],
) -> Result<(), NoMemory>
    ensures { IfOk result (λ _. text.new.items ≡ text.old.items ++ spec.text_by (spec.absolute_text (spec.target_in positions.now size_records.now)) gaps.now size_records.now) }
{
    let mut later = gaps;
    for size_record in size_records {
        push_absolute(text, positions, size_records, next_gap(later), size_record)?;
        later = behind_gap(later);
    }
    Ok(())
}

// The relocatable code, and then the absolute pieces.
pub(crate) fn text(
    alloc: Global,
    positions: &[u32],
    gaps: &[u8],
    size_records: &[SizeRecord],
) -> Result<Vec<Piece>, NoMemory>
    ensures { IfOk result (λ v. v.items ≡ spec.whole_text (spec.target_in positions.now size_records.now) gaps.now size_records.now) }
{
    let mut text = Vec::new(alloc);
    push_all_main(&mut text, positions, gaps, size_records)?;
    push_all_absolute(&mut text, positions, gaps, size_records)?;
    Ok(text)
}
