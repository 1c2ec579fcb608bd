//! The bytes of a statement, eight in a row.

ghost use Rattle.std.specs.Prelude.{◌≡◌, ◌++◌, ◌+◌, ◌<◌, ◌^◌, OnOk};
ghost use Rattle.kc_asm_list.specs.Rows as spec;

use crate::fields::put_prefix;
use crate::relocatable_bytes::{put_relocatable, reported};
use crate::spot::Spot;
use kc_base::NoMemory;
use kc_obj_module::Module;

/// The most bytes in a row.
const IN_A_ROW: u8 = 8;

// Begins a row at a place, where the one before is full.
fn put_turn(text: &mut Vec<u8>, spot: &Spot, column: u8, place: u64) -> Result<(), NoMemory>
    ensures { OnOk result (text.new.items ≡ text.old.items ++ spec.turn spot.now column place) }
{
    if column == IN_A_ROW {
        text.push(b'\n')?;
        put_prefix(text, spot, place)
    } else {
        Ok(())
    }
}

fn column_after(column: u8) -> u8
    requires { column < 9 }
    ensures value { result ≡ spec.column_after column }
    ensures within { result < 9 }
{
    if column == IN_A_ROW { 1 } else { column + 1 }
}

/// Puts so many bytes from a place on behind a text, where so many stand in the row already.
#[tactic(auto, using(crate::proofs::Steps::one_more, crate::proofs::Steps::no_more))]
pub(crate) fn put_bytes(
    text: &mut Vec<u8>,
    object: &Module,
    spot: &Spot,
    columns: u8,
    place: u64,
    count: u64,
) -> Result<(), NoMemory>
    requires columns { columns < 9 }
    requires within { place + count < 2 ^ 64 }
    ensures { OnOk result (text.new.items ≡ text.old.items ++ spec.bytes_text object.now spot.now columns place count) }
{
    let mut column = columns;
    let mut at = place;
    let mut left = count;
    while left > 0 {
        put_turn(text, spot, column, at)?;
        put_relocatable(text, object, spot, at)?;
        column = column_after(column);
        at += 1;
        left -= 1;
    }
    Ok(())
}

/// Puts the rows of the bytes that lead on to the place of a statement behind a text.
pub(crate) fn put_filling(text: &mut Vec<u8>, object: &Module, spot: &Spot) -> Result<(), NoMemory>
    ensures { OnOk result (text.new.items ≡ text.old.items ++ spec.filling_text object.now spot.now) }
{
    let count = reported(object, spot, spot.before, spot.place);
    if count == 0 {
        return Ok(());
    }
    put_prefix(text, spot, spot.before)?;
    put_bytes(text, object, spot, 0, spot.before, count)?;
    text.push(b'\n')?;
    Ok(())
}
