//! The rows of statements.

ghost use Rattle.std.specs.Prelude.{◌≡◌, ◌++◌, ◌+◌, ◌-◌, ◌<◌, ◌^◌, OnOk};
ghost use Rattle.kc_asm_list.specs.RelocatableBytes.{reported};
ghost use Rattle.kc_asm_list.specs.Rows as spec;

use crate::bytes::{put_bytes, put_filling};
use crate::fields::{put_blanks, put_number, put_prefix};
use crate::relocatable_bytes::reported;
use crate::spot::Spot;
use kc_base::NoMemory;
use kc_obj_module::Module;
use std::alloc::Global;

/// The column at which the text of a line begins.
const TEXT_COLUMN: usize = 42;

fn is_reported(spot: &Spot) -> bool
    ensures { result ≡ spec.is_reported spot.now }
{
    spot.labelled || spot.before < spot.after
}

// Puts a row, and the text of a line beside it.
fn put_beside(text: &mut Vec<u8>, row: &[u8], words: &[u8]) -> Result<(), NoMemory>
    ensures { OnOk result (text.new.items ≡ text.old.items ++ spec.beside row.now words.now) }
{
    text.extend_from_slice(row)?;
    if words.is_empty() {
        return Ok(());
    }
    put_blanks(text, TEXT_COLUMN.saturating_sub(row.len()))?;
    text.extend_from_slice(words)?;
    Ok(())
}

/// Puts the row of a line without a statement behind a text.
pub(crate) fn put_bare(
    alloc: Global,
    text: &mut Vec<u8>,
    line: u32,
    words: &[u8],
) -> Result<(), NoMemory>
    ensures { OnOk result (text.new.items ≡ text.old.items ++ spec.bare_text line words.now) }
{
    let mut row = Vec::new(alloc);
    put_number(&mut row, line)?;
    put_beside(text, &row, words)?;
    text.push(b'\n')?;
    Ok(())
}

// Puts the rows of the bytes of a statement behind its first eight.
#[tactic(auto, using(crate::proofs::Steps::no_more))]
fn put_rest(text: &mut Vec<u8>, object: &Module, spot: &Spot, count: u64) -> Result<(), NoMemory>
    requires { spot.now.place + count < 2 ^ 64 }
    ensures { OnOk result (text.new.items ≡ text.old.items ++ spec.bytes_text object.now spot.now 8 (spot.now.place + 8) (count - 8)) }
{
    if count > 8 {
        put_bytes(text, object, spot, 8, spot.place + 8, count - 8)
    } else {
        Ok(())
    }
}

// Puts the rows of a line's own statement, with the text of the line.
fn put_rows(
    alloc: Global,
    text: &mut Vec<u8>,
    object: &Module,
    words: &[u8],
    spot: &Spot,
) -> Result<(), NoMemory>
    ensures { OnOk result (text.new.items ≡ text.old.items ++ spec.own_rows object.now spot.now words.now (reported object.now spot.now spot.now.place spot.now.after)) }
{
    let count = reported(object, spot, spot.place, spot.after);
    let first = count.min(8);
    let mut row = Vec::new(alloc);
    put_prefix(&mut row, spot, spot.place)?;
    put_bytes(&mut row, object, spot, 0, spot.place, first)?;
    put_beside(text, &row, words)?;
    put_rest(text, object, spot, count)?;
    text.push(b'\n')?;
    Ok(())
}

/// Puts the rows of a line's own statement behind a text, with the text of the line.
pub(crate) fn put_own(
    alloc: Global,
    text: &mut Vec<u8>,
    object: &Module,
    words: &[u8],
    spot: &Spot,
) -> Result<(), NoMemory>
    ensures { OnOk result (text.new.items ≡ text.old.items ++ spec.own_text object.now words.now spot.now) }
{
    if is_reported(spot) {
        put_filling(text, object, spot)?;
        put_rows(alloc, text, object, words, spot)
    } else {
        put_bare(alloc, text, spot.line, words)
    }
}

// Puts the rows of a statement that an expansion makes.
fn put_made(text: &mut Vec<u8>, object: &Module, spot: &Spot) -> Result<(), NoMemory>
    ensures { OnOk result (text.new.items ≡ text.old.items ++ spec.made_text object.now spot.now) }
{
    if !is_reported(spot) {
        return Ok(());
    }
    let count = reported(object, spot, spot.place, spot.after);
    put_filling(text, object, spot)?;
    put_prefix(text, spot, spot.place)?;
    put_bytes(text, object, spot, 0, spot.place, count)?;
    text.push(b'\n')?;
    Ok(())
}

/// Puts the rows of statements that an expansion makes behind a text.
pub(crate) fn put_all_made(
    text: &mut Vec<u8>,
    object: &Module,
    spots: &[Spot],
) -> Result<(), NoMemory>
    ensures { OnOk result (text.new.items ≡ text.old.items ++ spec.all_made object.now spots.now) }
{
    for spot in spots {
        put_made(text, object, spot)?;
    }
    Ok(())
}
