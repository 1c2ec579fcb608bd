// A library read: its first bytes, the lengths of its members, and then member by member.
ghost use Rattle.std.specs.Prelude.{◌≡◌, ◌≤◌, ◌++◌, ◌∷◌, [], List, None, OnOk, length, drop, slice_get};
ghost use Rattle.kc_base.specs.Limits.{file_limit};
ghost use Rattle.kc_obj_module.specs.Object.{Object};
ghost use Rattle.kc_lib.specs.Givers.{Knows};
ghost use Rattle.kc_lib.specs.Reading as reads;
ghost use Rattle.kc_lib.specs.Reading.{byte_fault, lengths_fault, member_size, object_in, member_of, members, read_answer};
ghost use Rattle.kc_lib.specs.Answers.{IsChecked, IsMemberRead, AreRead};

use crate::faults::{LibCode, LibFault};
use crate::givers::Givers;
use kc_base::{NoMemory, after, prefix};
use kc_obj::{ObjFault, decode};
use kc_obj_fields::fields::long;
use kc_obj_module::Module;
use std::alloc::Global;

/// The bytes before the first member.
const HEAD: usize = 4;

/// The bytes of the length before each member's object.
const LENGTH: usize = 4;

// Whether a byte can stand at a place of the head.
fn heads(at: usize, byte: u8) -> bool
    ensures { result ≡ reads.heads at byte }
{
    match at {
        0 => byte == 0x4B,
        1 => byte == 0x4C,
        2 => byte == 0x01,
        _ => 1 <= byte && byte <= 64,
    }
}

fn check_byte(bytes: &[u8], at: usize) -> Result<(), LibFault>
    requires { at ≤ 3 }
    ensures { IsChecked (byte_fault at (slice_get bytes.now at)) result }
{
    let code = match bytes.get(at) {
        None => LibCode::End,
        Some(byte) => {
            if heads(at, *byte) {
                return Ok(());
            }
            LibCode::Head
        }
    };
    Err(LibFault::At {
        at: at as u32,
        code,
    })
}

fn check_head(bytes: &[u8]) -> Result<(), LibFault>
    ensures { IsChecked (reads.head_fault bytes.now) result }
{
    check_byte(bytes, 0)?;
    check_byte(bytes, 1)?;
    check_byte(bytes, 2)?;
    check_byte(bytes, 3)
}

// How many bytes the member has that begins here.
fn member_size(rest: &[u8]) -> usize
    ensures { result ≡ reads.member_size rest.now }
{
    LENGTH + long(rest, 0) as usize
}

// Whether so many members are all that stands behind the head.
fn check_lengths(count: u8, bytes: &[u8]) -> Result<(), LibFault>
    requires head { 4 ≤ length bytes.now }
    requires short { length bytes.now ≤ file_limit }
    ensures { IsChecked (lengths_fault (length bytes.now) count (drop 4 bytes.now)) result }
{
    let mut left = after(bytes, HEAD);
    for _member in 0..count {
        let size = member_size(left);
        if left.len() < size {
            return Err(LibFault::At {
                at: bytes.len() as u32,
                code: LibCode::End,
            });
        }
        left = after(left, size);
    }
    if left.is_empty() {
        Ok(())
    } else {
        Err(LibFault::At {
            at: (bytes.len() - left.len()) as u32,
            code: LibCode::Behind,
        })
    }
}

// The module of an object, which gives no name that a member before it gives. Its length field stands at a place.
fn read_member(alloc: Global, at: usize, givers: &Givers, object: &[u8]) -> Result<Module, LibFault>
    requires at { at ≤ file_limit }
    requires short { length object.now ≤ file_limit }
    ensures { (before : List Object) → Knows givers.now.numbers.entries before → IsMemberRead result (member_of at before object.now) }
{
    match decode(alloc, object) {
        Ok(module) => {
            if givers.second(module.publics()).is_some() {
                return Err(LibFault::At {
                    at: at as u32,
                    code: LibCode::SecondName,
                });
            }
            Ok(module)
        }
        Err(ObjFault::At { at: place, .. }) => Err(LibFault::At {
            at: at as u32 + 4 + place,
            code: LibCode::NoObject,
        }),
        Err(ObjFault::NoMemory) => Err(LibFault::NoMemory),
    }
}

// Keeps the next member and its public names.
fn keep(
    alloc: Global,
    givers: &mut Givers,
    members: &mut Vec<Module>,
    member: Module,
) -> Result<(), NoMemory>
    ensures items { OnOk result (members.new.items ≡ members.old.items ++ member ∷ []) }
    ensures names { OnOk result (Knows givers.old.numbers.entries members.old.items → Knows givers.new.numbers.entries members.new.items) }
{
    givers.add(alloc, members.len(), &member)?;
    members.push(member)?;
    Ok(())
}

// The modules of so many members, which fill the bytes behind the head.
fn read_members(alloc: Global, count: u8, bytes: &[u8]) -> Result<Vec<Module>, LibFault>
    requires head { 4 ≤ length bytes.now }
    requires short { length bytes.now ≤ file_limit }
    requires whole { lengths_fault (length bytes.now) count (drop 4 bytes.now) ≡ None }
    ensures { AreRead result (reads.members (length bytes.now) count [] (drop 4 bytes.now)) }
{
    let mut givers = Givers::new(alloc);
    let mut members = Vec::new(alloc);
    let mut left = after(bytes, HEAD);
    for _member in 0..count {
        let size = member_size(left);
        let object = after(prefix(left, size), LENGTH);
        let member = read_member(alloc, bytes.len() - left.len(), &givers, object)?;
        keep(alloc, &mut givers, &mut members, member)?;
        left = after(left, size);
    }
    Ok(members)
}

/// The members of a library, or its first fault.
pub(crate) fn read_library(alloc: Global, bytes: &[u8]) -> Result<Vec<Module>, LibFault>
    requires { length bytes.now ≤ file_limit }
    ensures { AreRead result (read_answer bytes.now) }
{
    check_head(bytes)?;
    let count = bytes[3];
    check_lengths(count, bytes)?;
    read_members(alloc, count, bytes)
}
