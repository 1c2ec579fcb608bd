ghost use Rattle.std.specs.Prelude.{◌≡◌, ◌+◌, ◌-◌, ◌≤◌, ◌++◌, length, take, drop, replicate, slice_index, slice_set, IfOk};

use crate::NoMemory;
use crate::limits::IMAGE_START;
use std::alloc::Global;
use std::marker::Model;

/// How many bytes an image has.
pub const IMAGE_LEN: usize = 57_344;

/// The bytes from 2000H to FFFFH.
#[derive(Drop)]
pub struct Image {
    bytes: Vec<u8>,
}

impl Model for Image {
    ghost use Rattle.std.specs.Prelude.{◌≡◌, List, ℕ, length};

    ghost Value = { List ℕ };

    ghost view = { λ i. i.bytes.items };

    ghost invariant = { λ i. length i.bytes.items ≡ 57344 };
}

impl Image {
    /// An image of FFH.
    pub fn blank(alloc: Global) -> Result<Image, NoMemory>
        ensures { IfOk result (λ i. i ≡ replicate 57344 255) }
    {
        Ok(Image {
            bytes: filled(alloc, IMAGE_LEN)?,
        })
    }

    /// All bytes, in order.
    pub fn as_slice(&self) -> &[u8]
        ensures value { result.now ≡ self.now }
        ensures len { length self.now ≡ 57344 }
    {
        self.bytes.as_slice()
    }

    /// The byte at an address.
    pub fn byte(&self, addr: u16) -> u8
        requires { IMAGE_START ≤ addr }
        ensures { result ≡ slice_index self.now (addr - IMAGE_START) }
    {
        self.bytes[(addr - IMAGE_START) as usize]
    }

    /// Sets the byte at an address.
    pub fn set(&mut self, addr: u16, value: u8)
        requires { IMAGE_START ≤ addr }
        ensures { self.new ≡ slice_set self.old (addr - IMAGE_START) value }
    {
        self.bytes[(addr - IMAGE_START) as usize] = value;
    }

    /// Puts bytes at a place, counted from the start of the image.
    pub fn put(&mut self, at: usize, bytes: &[u8])
        requires { at + length bytes.now ≤ 57344 }
        ensures { self.new ≡ take at self.old ++ bytes.now ++ drop (at + length bytes.now) self.old }
    {
        put_at(self.bytes.as_mut_slice(), at, bytes);
    }
}

fn put_at(all: &mut [u8], at: usize, bytes: &[u8])
    requires { at + length bytes.now ≤ length all.old }
    ensures { all.new ≡ take at all.old ++ bytes.now ++ drop (at + length bytes.now) all.old }
{
    all[at..at + bytes.len()].copy_from_slice(bytes);
}

fn filled(alloc: Global, len: usize) -> Result<Vec<u8>, NoMemory>
    ensures { IfOk result (λ v. v.items ≡ replicate len 255) }
{
    Ok(vec![in alloc; 255u8; len]?)
}
