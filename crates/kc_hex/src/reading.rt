ghost use Rattle.std.specs.Prelude.{◌≡◌, ◌≤◌, ◌<◌, ◌+◌, length, sum, None, Ok, Err, IfOk, IfSome, MatchResult};
ghost use Rattle.kc_base.specs.Limits.{file_limit};
ghost use Rattle.std.specs.Option.{option_map};
ghost use Rattle.kc_hex.specs.Records.{data_of, address_of, record_of, is_known, is_inside, fault_of, after_record, after_line, image_of, IsRead};

use crate::fault::{HexCode, HexFault};
use hex::FromHexError;
use kc_base::{IMAGE_START, Image, NoMemory, after, first_line, prefix};
use std::alloc::Global;

// The bytes of a record, if the line has the form of one.
#[tactic(auto, unfolding(crate::specs::Records::record_of))]
fn record_bytes(alloc: Global, line: &[u8]) -> Result<Option<Vec<u8>>, NoMemory>
    ensures value { IfOk result (λ o. option_map (λ v. v.items) o ≡ record_of line.now) }
    ensures long { IfOk result (λ o. IfSome o (λ v. (5 ≤ length v.items) × (length v.items ≤ 260))) }
{
    match line {
        [b':', digits @ ..] => match hex::decode(alloc, digits) {
            Ok(bytes) => {
                if bytes.len() >= 5 && bytes.len() == bytes[0] as usize + 5 {
                    Ok(Some(bytes))
                } else {
                    Ok(None)
                }
            }
            Err(FromHexError::OutOfMemory) => Err(NoMemory),
            Err(_) => Ok(None),
        },
        _ => Ok(None),
    }
}

pub(crate) fn sum_of(bytes: &[u8]) -> u64
    requires { length bytes.now ≤ 260 }
    ensures { result ≡ sum bytes.now }
{
    bytes.iter().map(|b| u64::from(*b)).sum()
}

fn body_of(bytes: &[u8]) -> &[u8]
    requires { 5 ≤ length bytes.now }
    ensures { result.now ≡ data_of bytes.now }
{
    let len = bytes.len() - 5;
    prefix(after(bytes, 4), len)
}

fn address(bytes: &[u8]) -> usize
    requires { 5 ≤ length bytes.now }
    ensures { result ≡ address_of bytes.now }
{
    256 * bytes[1] as usize + bytes[2] as usize
}

fn knows(kind: u8, body: &[u8]) -> bool
    ensures { result ≡ is_known kind body.now }
{
    match kind {
        0 | 3 | 5 => true,
        1 => body.is_empty(),
        2 | 4 => body.len() == 2 && body[0] == 0 && body[1] == 0,
        _ => false,
    }
}

fn fits(address: usize, len: usize) -> bool
    requires { len ≤ 65536 }
    ensures { result ≡ is_inside address len }
{
    IMAGE_START as usize <= address && address <= 65536 && address + len <= 65536
}

#[tactic(auto, unfolding(crate::specs::Records::fault_of))]
fn fault(ended: bool, bytes: &[u8]) -> Option<HexCode>
    requires short { 5 ≤ length bytes.now }
    requires long { length bytes.now ≤ 260 }
    ensures { result ≡ fault_of ended bytes.now }
{
    let body = body_of(bytes);
    if sum_of(bytes) % 256 != 0 {
        Some(HexCode::Checksum)
    } else if !knows(bytes[3], body) {
        Some(HexCode::Type)
    } else if bytes[3] == 0 && !fits(address(bytes), body.len()) {
        Some(HexCode::Address)
    } else if ended {
        Some(HexCode::Behind)
    } else {
        None
    }
}

// Does what a record without fault says, and reports whether the end was read.
#[tactic(auto, unfolding(crate::specs::Records::fault_of))]
fn apply(image: &mut Image, ended: bool, bytes: &[u8]) -> bool
    requires short { 5 ≤ length bytes.now }
    requires sound { fault_of ended bytes.now ≡ None }
    ensures { (image.new, result) ≡ after_record (image.old, ended) bytes.now }
{
    if bytes[3] == 0 {
        image.put(address(bytes) - IMAGE_START as usize, body_of(bytes));
        ended
    } else {
        ended || bytes[3] == 1
    }
}

// The effect of a line, or the code of its fault, after which the image is given up.
#[tactic(auto, unfolding(crate::specs::Records::after_line))]
fn take_line(
    alloc: Global,
    image: &mut Image,
    ended: bool,
    line: &[u8],
) -> Result<Result<bool, HexCode>, NoMemory>
    ensures { IfOk result (λ r. MatchResult r (λ now. after_line (image.old, ended) line.now ≡ Ok (image.new, now)) (λ code. after_line (image.old, ended) line.now ≡ Err code)) }
{
    if line.is_empty() {
        return Ok(Ok(ended));
    }
    match record_bytes(alloc, line)? {
        None => Ok(Err(HexCode::Form)),
        Some(bytes) => match fault(ended, bytes.as_slice()) {
            Some(code) => Ok(Err(code)),
            None => {
                let now = apply(image, ended, bytes.as_slice());
                Ok(Ok(now))
            }
        },
    }
}

/// The image that a text of records stands for, FFH where no record says otherwise, or the first line that is wrong,
/// counted from 1, with the number of the least code of its faults, as `HexCode` has them; that there is no end record is
/// reported at the line after the last (Intel hexadecimal object file format).
pub fn read(alloc: Global, bytes: &[u8]) -> Result<Image, HexFault>
    requires { length bytes.now ≤ file_limit }
    ensures { IsRead result (image_of bytes.now) }
{
    let mut image = Image::blank(alloc)?;
    let mut rest = bytes;
    let mut number = 1;
    let mut ended = false;
    while !rest.is_empty() {
        let (len, used) = first_line(rest);
        match take_line(alloc, &mut image, ended, prefix(rest, len)) {
            Ok(Ok(now)) => ended = now,
            Ok(Err(code)) => {
                let reported = code.number();
                return Err(HexFault::At {
                    line: number,
                    code: reported,
                });
            }
            Err(NoMemory) => return Err(HexFault::NoMemory),
        }
        rest = after(rest, used);
        number += 1;
    }
    if ended {
        Ok(image)
    } else {
        let code = HexCode::NoEnd.number();
        Err(HexFault::At { line: number, code })
    }
}
