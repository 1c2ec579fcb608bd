//! Where the statements of a source stand.

ghost use Rattle.std.specs.Prelude.{◌≡◌, ◌≤◌, ◌++◌, drop, length, slice_index, All, IfOk, OnOk};
ghost use Rattle.kc_asm_symbols.specs.Externals.{externals};
ghost use Rattle.kc_asm_symbols.specs.Located.{located_by};
ghost use Rattle.kc_asm_layout.specs.StatementSizes.{at_zero};
ghost use Rattle.kc_asm_layout.specs.Bounds.{IsBounded};
ghost use Rattle.kc_asm_list.specs.Spots as spec;

use crate::spot::Spot;
use kc_asm_layout::{Location, SizeRecord, layout, statement_sizes};
use kc_asm_symbols::{Names, externals};
use kc_base::NoMemory;
use kc_lex::Line;
use kc_lex::kinds::has_label;
use kc_source_statement::Stmt;
use std::alloc::Global;

// Where a statement stands.
fn spot_of(line: &Line, depth: usize, size_record: &SizeRecord, location: &Location) -> Spot
    requires { IsBounded size_record.now }
    ensures { result ≡ spec.spot_of line.now depth size_record.now location.now }
{
    Spot {
        line: line.number,
        depth,
        labelled: has_label(line.tokens.as_slice()),
        kind: size_record.segment.kind,
        piece: size_record.segment.piece as u32,
        at: location.address,
        before: location.before,
        place: location.place,
        after: location.after,
    }
}

fn first_depth(depths: &[usize]) -> usize
    ensures { result ≡ slice_index depths.now 0 }
{
    depths.first().copied().unwrap_or(0)
}

// Puts the statement that a line of the expansion is, with the first of the depths, of the size records and of the locations.
fn put_first(
    spots: &mut Vec<Spot>,
    line: &Line,
    depths: &[usize],
    size_records: &[SizeRecord],
    locations: &[Location],
) -> Result<(), NoMemory>
    requires { All IsBounded size_records.now }
    ensures { OnOk result (spots.new.items ≡ spots.old.items ++ spec.first_spot line.now depths.now size_records.now locations.now) }
{
    match size_records {
        [] => Ok(()),
        [size_record, ..] => match locations {
            [] => Ok(()),
            [location, ..] => {
                spots.push(spot_of(line, first_depth(depths), size_record, location))?;
                Ok(())
            }
        },
    }
}

fn behind<T>(items: &[T]) -> &[T]
    ensures { result.now ≡ drop 1 items.now }
{
    match items {
        [] => items,
        [_, rest @ ..] => rest,
    }
}

// The statements of an expansion, with their depths, their size records and their locations.
#[tactic(auto, unfolding(crate::specs::Spots::spots_from))]
fn spots_from(
    alloc: Global,
    text: &[Line],
    depths: &[usize],
    size_records: &[SizeRecord],
    locations: &[Location],
) -> Result<Vec<Spot>, NoMemory>
    requires { All IsBounded size_records.now }
    ensures { IfOk result (λ v. v.items ≡ spec.spots_from text.now depths.now size_records.now locations.now) }
{
    let mut spots = Vec::new(alloc);
    let mut left = text;
    let mut deep = depths;
    let mut ahead = size_records;
    let mut standing = locations;
    while let [line, rest @ ..] = left {
        if !line.tokens.as_slice().is_empty() {
            put_first(&mut spots, line, deep, ahead, standing)?;
            ahead = behind(ahead);
            standing = behind(standing);
        }
        deep = behind(deep);
        left = rest;
    }
    Ok(spots)
}

/// Where the statements of a source stand, of which these are the expansion with the depths of its lines, and the statements.
pub(crate) fn spots_of(
    alloc: Global,
    text: &[Line],
    depths: &[usize],
    stmts: &[Stmt],
) -> Result<Vec<Spot>, NoMemory>
    requires few { length stmts.now ≤ 65536 }
    requires few_externals { length (externals (located_by at_zero stmts.now)) ≤ 65536 }
    ensures { IfOk result (λ v. v.items ≡ spec.spots_of text.now depths.now stmts.now) }
{
    let taken = externals(alloc, stmts)?;
    let names = Names::new(alloc, stmts, &taken)?;
    let outlined = statement_sizes(alloc, stmts, &names)?;
    let locations = layout(alloc, &outlined)?;
    spots_from(alloc, text, depths, outlined.size_records(), &locations)
}
