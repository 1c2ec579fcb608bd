//! Places past the end of memory or of a region, ORG backwards, and the regions of absolute pieces.

ghost use Rattle.std.specs.Prelude.{◌≡◌, ◌++◌, [], ◌∷◌, unwrap_or, slice_get, OnOk};
ghost use Rattle.std.specs.Option.{option_map};
ghost use Rattle.kc_expr.specs.Tree.{tree_of};
ghost use Rattle.kc_source_statement.specs.Trees.{action_tree};
ghost use Rattle.kc_obj_module.specs.Pieces.{in_region};
ghost use Rattle.kc_asm_emit.specs.Faults.{least};
ghost use Rattle.kc_asm_check.specs.Codes as spec;

use crate::codes::when;
use kc_asm_emit::fixed_of;
use kc_asm_layout::Location;
use kc_asm_symbols::Segment;
use kc_base::{NoMemory, Text};
use kc_expr::{Expr, Scope};
use kc_lex::SourceCode;
use kc_lex::fault::lesser_number;
use kc_obj_module::SegKind;
use kc_obj_module::pieces::fits_region;
use kc_source_statement::Action;

fn goes_on(action: &Action) -> bool
    ensures { result ≡ spec.goes_on (action_tree action.now) }
{
    match action {
        Action::Define(_, _)
        | Action::Reserve(_, _)
        | Action::Org(_)
        | Action::Even
        | Action::Operation { .. } => true,
        _ => false,
    }
}

fn most_of(segment: Segment) -> u64
    ensures { result ≡ spec.most_of segment }
{
    if segment.is_absolute() { 65536 } else { 65535 }
}

// Whether a piece of a kind lies in a region with all its bytes.
#[tactic(auto, using(crate::proofs::RegionLemmas::too_long))]
fn lies_in_region(kind: SegKind, address: u16, count: u64) -> bool
    ensures { result ≡ in_region kind address count }
{
    match u16::try_from(count) {
        Ok(count) => fits_region(kind, address, count),
        Err(_) => false,
    }
}

fn leaves(kind: SegKind, region: Option<u16>, end: u64) -> bool
    ensures { result ≡ spec.leaves kind region end }
{
    match region {
        None => false,
        Some(address) => !lies_in_region(kind, address, end.saturating_sub(u64::from(address))),
    }
}

fn region_of(regions: &[Option<u16>], piece: usize) -> Option<u16>
    ensures { result ≡ unwrap_or (slice_get regions.now piece) None }
{
    match regions.get(piece) {
        Some(region) => *region,
        None => None,
    }
}

// 17 past the end of memory, 22 past the end of the region.
#[tactic(auto, using(kc_asm_emit::proofs::FaultLemmas::least_append))]
fn end_fault(regions: &[Option<u16>], segment: Segment, location: &Location) -> Option<u8>
    ensures { result ≡ least (spec.end_faults regions.now segment location.now) }
{
    let region = region_of(regions, segment.piece);
    lesser_number(
        when(
            most_of(segment) < location.after,
            SourceCode::PastTheEnd.number(),
        ),
        when(
            location.before < location.after && leaves(segment.kind, region, location.after),
            SourceCode::OutsideRegion.number(),
        ),
    )
}

fn is_below(to: Option<u16>, place: u64) -> bool
    ensures { result ≡ spec.is_below to place }
{
    match to {
        None => false,
        Some(to) => u64::from(to) < place,
    }
}

// 17 for ORG backwards.
fn back_fault<S: Scope>(action: &Action, place: u64, scope: &S) -> Option<u8>
    ensures { result ≡ least (spec.back_faults (S.answers scope.now) (action_tree action.now) place) }
{
    match action {
        Action::Org(to) => when(
            is_below(fixed_of(to, scope), place),
            SourceCode::PastTheEnd.number(),
        ),
        _ => when(false, SourceCode::PastTheEnd.number()),
    }
}

// An absolute piece that a statement opens: its kind, and its address if that has a value.
type Opening = Option<(SegKind, Option<u16>)>;

fn opening_of<S: Scope>(kind: SegKind, at: &Option<Expr>, scope: &S) -> Opening
    ensures { result ≡ spec.opening_of kind (S.answers scope.now) (option_map tree_of at.now) }
{
    match at {
        None => None,
        Some(address) => Some((kind, fixed_of(address, scope))),
    }
}

fn opening<S: Scope>(action: &Action, scope: &S) -> Opening
    ensures { result ≡ spec.opening (S.answers scope.now) (action_tree action.now) }
{
    match action {
        Action::Cseg(at) => opening_of(SegKind::Code, at, scope),
        Action::Dseg(at) => opening_of(SegKind::Ram, at, scope),
        Action::Rseg(at) => opening_of(SegKind::Reg, at, scope),
        _ => None,
    }
}

fn is_outside(kind: SegKind, address: Option<u16>) -> bool
    ensures { result ≡ spec.is_outside kind address }
{
    match address {
        None => false,
        Some(address) => !fits_region(kind, address, 0),
    }
}

// 22 for an address outside the regions of its kind.
fn opening_fault(opening: Opening) -> Option<u8>
    ensures { result ≡ least (spec.opening_faults opening) }
{
    match opening {
        None => when(false, SourceCode::OutsideRegion.number()),
        Some((kind, address)) => when(
            is_outside(kind, address),
            SourceCode::OutsideRegion.number(),
        ),
    }
}

fn region_at(kind: SegKind, address: Option<u16>) -> Option<u16>
    ensures { result ≡ spec.region_at kind address }
{
    if is_outside(kind, address) {
        None
    } else {
        address
    }
}

/// The regions behind a statement.
pub(crate) fn push_region<S: Scope>(
    regions: &mut Vec<Option<u16>>,
    action: &Action,
    scope: &S,
) -> Result<(), NoMemory>
    ensures { OnOk result (regions.new.items ≡ spec.regions_after (S.answers scope.now) regions.old.items (action_tree action.now)) }
{
    match opening(action, scope) {
        None => Ok(()),
        Some((kind, address)) => {
            regions.push(region_at(kind, address))?;
            Ok(())
        }
    }
}

fn label_fault(label: &Option<Text>, place: u64) -> Option<u8>
    ensures { result ≡ least (spec.label_faults label.now place) }
{
    when(
        label.is_some() && place > 65535,
        SourceCode::PastTheEnd.number(),
    )
}

fn goes_on_fault(
    regions: &[Option<u16>],
    action: &Action,
    segment: Segment,
    location: &Location,
) -> Option<u8>
    ensures { result ≡ least (spec.goes_on_faults regions.now (action_tree action.now) segment location.now) }
{
    if goes_on(action) {
        end_fault(regions, segment, location)
    } else {
        when(false, SourceCode::PastTheEnd.number())
    }
}

// 17 and 22 for places.
#[tactic(auto, using(kc_asm_emit::proofs::FaultLemmas::least_append))]
pub(crate) fn place_fault<S: Scope>(
    regions: &[Option<u16>],
    label: &Option<Text>,
    action: &Action,
    segment: Segment,
    location: &Location,
    scope: &S,
) -> Option<u8>
    ensures { result ≡ least (spec.place_faults regions.now (S.answers scope.now) label.now (action_tree action.now) segment location.now) }
{
    lesser_number(
        label_fault(label, location.place),
        lesser_number(
            goes_on_fault(regions, action, segment, location),
            lesser_number(
                back_fault(action, location.before, scope),
                opening_fault(opening(action, scope)),
            ),
        ),
    )
}
