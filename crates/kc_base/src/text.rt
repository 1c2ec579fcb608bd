ghost use Rattle.std.specs.Prelude.{◌≡◌, List, ℕ, [], ◌∷◌, ◌++◌, map, IfOk, OnOk, OnErr};
ghost use Rattle.std.specs.Char.{to_ascii_uppercase};

use crate::NoMemory;
use smallvec::SmallVec;
use std::alloc::Global;
use std::marker::Model;

/// Some bytes: a name, or the characters of a string. Up to 16 of them need no allocation.
#[derive(Drop)]
pub struct Text {
    bytes: SmallVec<u8, 16>,
}

impl Model for Text {
    ghost Value = { List ℕ };

    ghost view = { λ t. t.bytes.items };
}

impl Text {
    /// The text that has no bytes.
    pub fn new(alloc: Global) -> Text
        ensures { result ≡ [] }
    {
        Text {
            bytes: SmallVec::new(alloc),
        }
    }

    /// The text that is the list of these bytes.
    pub fn of(alloc: Global, bytes: &[u8]) -> Result<Text, NoMemory>
        ensures { IfOk result (λ t. t ≡ bytes.now) }
    {
        Ok(Text {
            bytes: SmallVec::from_slice(alloc, bytes)?,
        })
    }

    /// The text of these bytes with each letter in upper case.
    pub fn in_upper(alloc: Global, bytes: &[u8]) -> Result<Text, NoMemory>
        ensures { IfOk result (λ t. t ≡ map to_ascii_uppercase bytes.now) }
    {
        let mut upper = SmallVec::from_slice(alloc, bytes)?;
        upper.make_ascii_uppercase();
        Ok(Text { bytes: upper })
    }

    /// The text of a buffer, which it keeps where the bytes are many.
    pub fn from_vec(bytes: Vec<u8>) -> Text
        ensures { result ≡ bytes.items }
    {
        Text {
            bytes: SmallVec::from_vec(bytes),
        }
    }

    /// Appends a byte. A refusal changes nothing.
    pub fn push(&mut self, byte: u8) -> Result<(), NoMemory>
        ensures ok { OnOk result (self.new ≡ self.old ++ byte ∷ []) }
        ensures err { OnErr result (self.new ≡ self.old) }
    {
        self.bytes.push(byte)?;
        Ok(())
    }

    /// The bytes, lent.
    pub fn as_slice(&self) -> &[u8]
        ensures { result.now ≡ self.now }
    {
        self.bytes.as_slice()
    }

    /// A buffer of the bytes.
    pub fn into_vec(self) -> Result<Vec<u8>, NoMemory>
        ensures { IfOk result (λ v. v.items ≡ self) }
    {
        Ok(self.bytes.into_vec()?)
    }
}
