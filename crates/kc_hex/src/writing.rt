ghost use Rattle.std.specs.Prelude.{◌≡◌, ◌≤◌, ◌<◌, ◌+◌, ◌++◌, ◌==◌, length, IfOk, OnOk};
ghost use Rattle.std.specs.List.{list_all};
ghost use Rattle.kc_hex.specs.Law.{IsImage};
ghost use Rattle.kc_hex.specs.Records.{image_of};
ghost use Rattle.kc_hex.specs.Spelling.{checksum, data_bytes, record_text, row_text, spelling};

use crate::reading::sum_of;
use kc_base::{IMAGE_LEN, IMAGE_START, Image, NoMemory, after, prefix};
use std::alloc::Global;

/// How many bytes of the image a record has.
const ROW: usize = 16;

/// How many rows an image has.
const ROWS: usize = IMAGE_LEN / ROW;

/// The value of a byte that nothing was written to.
const BLANK: u8 = 0xFF;

fn check_of(bytes: &[u8]) -> u8
    requires { length bytes.now ≤ 260 }
    ensures { result ≡ checksum bytes.now }
{
    ((256 - sum_of(bytes) % 256) % 256) as u8
}

// The bytes of a record without its checksum.
fn record_bytes(alloc: Global, address: usize, body: &[u8]) -> Result<Vec<u8>, NoMemory>
    requires address { address < 65536 }
    requires length { length body.now ≤ 16 }
    ensures { IfOk result (λ v. v.items ≡ data_bytes address body.now) }
{
    let mut bytes = Vec::new(alloc);
    bytes.push(body.len() as u8)?;
    bytes.push((address / 256) as u8)?;
    bytes.push((address % 256) as u8)?;
    bytes.push(0)?;
    bytes.extend_from_slice(body)?;
    Ok(bytes)
}

fn put_record(alloc: Global, out: &mut Vec<u8>, mut bytes: Vec<u8>) -> Result<(), NoMemory>
    requires { length bytes.items ≤ 20 }
    ensures { OnOk result (out.new.items ≡ out.old.items ++ record_text bytes.items) }
{
    let check = check_of(bytes.as_slice());
    bytes.push(check)?;
    let Ok(digits) = hex::encode_upper(alloc, bytes.as_slice()) else {
        return Err(NoMemory);
    };
    out.push(b':')?;
    out.extend_from_slice(digits.as_bytes())?;
    out.push(b'\n')?;
    Ok(())
}

fn is_blank(row: &[u8]) -> bool
    ensures { result ≡ list_all (λ b. b == 0xFF) row.now }
{
    row.iter().all(|b| *b == BLANK)
}

#[tactic(auto, unfolding(crate::specs::Spelling::row_text))]
fn put_row(alloc: Global, out: &mut Vec<u8>, address: usize, row: &[u8]) -> Result<(), NoMemory>
    requires address { address < 65536 }
    requires length { length row.now ≤ 16 }
    ensures { OnOk result (out.new.items ≡ out.old.items ++ row_text address row.now) }
{
    if is_blank(row) {
        Ok(())
    } else {
        let bytes = record_bytes(alloc, address, row)?;
        put_record(alloc, out, bytes)
    }
}

// The bytes of an image, lent.
fn bytes_of(image: &Image) -> &[u8]
    ensures value { result.now ≡ image.now }
    ensures is_image { IsImage result.now }
{
    let bytes = image.as_slice();
    bytes
}

/// The records of an image: rows of 16 bytes at rising addresses, but for those of FFH only, and the end record, in
/// upper-case digits, each with a line feed (Intel hexadecimal object file format).
pub fn write(alloc: Global, image: &Image) -> Result<Vec<u8>, NoMemory>
    ensures spelled { IfOk result (λ v. v.items ≡ spelling image.now) }
    ensures read_again { IfOk result (λ v. image_of v.items ≡ Ok image.now) }
{
    let bytes = bytes_of(image);
    let mut out = Vec::new(alloc);
    for i in 0..ROWS {
        let row = prefix(after(bytes, ROW * i), ROW);
        put_row(alloc, &mut out, IMAGE_START as usize + ROW * i, row)?;
    }
    out.extend_from_slice(b":00000001FF\n")?;
    Ok(out)
}
