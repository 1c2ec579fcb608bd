//! The prefix of a row.

ghost use Rattle.std.specs.Prelude.{◌≡◌, ◌++◌, replicate, OnOk};
ghost use Rattle.kc_base.specs.Digits.{hex};
ghost use Rattle.kc_asm_list.specs.Rows as spec;

use crate::spot::Spot;
use itoa::Buffer;
use kc_base::{NoMemory, put_address};
use kc_obj_module::SegKind;

/// Puts blanks behind a text.
pub(crate) fn put_blanks(text: &mut Vec<u8>, count: usize) -> Result<(), NoMemory>
    ensures { OnOk result (text.new.items ≡ text.old.items ++ replicate count 32) }
{
    for _blank in 0..count {
        text.push(b' ')?;
    }
    Ok(())
}

/// Puts a number at the right of seven columns behind a text.
pub(crate) fn put_number(text: &mut Vec<u8>, number: u32) -> Result<(), NoMemory>
    ensures { OnOk result (text.new.items ≡ text.old.items ++ spec.number_text number) }
{
    let mut buffer = Buffer::new();
    let digits = buffer.format(number).as_bytes();
    put_blanks(text, 7_usize.saturating_sub(digits.len()))?;
    text.extend_from_slice(digits)?;
    Ok(())
}

fn letter(kind: SegKind) -> u8
    ensures { result ≡ spec.letter kind }
{
    match kind {
        SegKind::Reg => b'R',
        SegKind::Code => b'C',
        SegKind::Ram => b'D',
        SegKind::Stack => b'S',
    }
}

fn tick(at: Option<u16>) -> u8
    ensures { result ≡ spec.tick at }
{
    match at {
        None => b'\'',
        Some(_) => b' ',
    }
}

// Puts the four lowest hexadecimal digits of a place behind a text.
#[tactic(auto, using(crate::proofs::Places::lowest_four))]
fn put_place(text: &mut Vec<u8>, place: u64) -> Result<(), NoMemory>
    ensures { OnOk result (text.new.items ≡ text.old.items ++ hex 4 place) }
{
    put_address(text, (place % 65_536) as u16)
}

// Puts how deep a statement stands behind a text.
fn put_depth(text: &mut Vec<u8>, depth: usize) -> Result<(), NoMemory>
    ensures { OnOk result (text.new.items ≡ text.old.items ++ spec.depth_text depth) }
{
    if depth == 0 {
        text.extend_from_slice(b"  ")?;
        return Ok(());
    }
    text.push(b'+')?;
    kc_base::put_number(text, depth as u128)
}

/// Puts the prefix of a row behind a text: the line and the depth of a statement, the kind of its piece, and a place.
pub(crate) fn put_prefix(text: &mut Vec<u8>, spot: &Spot, place: u64) -> Result<(), NoMemory>
    ensures { OnOk result (text.new.items ≡ text.old.items ++ spec.prefix spot.now place) }
{
    put_number(text, spot.line)?;
    text.push(b' ')?;
    put_depth(text, spot.depth)?;
    text.extend_from_slice(&[b' ', letter(spot.kind), tick(spot.at)])?;
    put_place(text, place)
}
