// A source in memory, of which chosen reads fail.
ghost use Rattle.std.specs.Prelude.{◌≡◌, ◌≤◌, ◌<◌, ◌+◌, ◌++◌, ◌↔◌, [], Ok, Some, false, drop, take, length, min, IfOk, OnOk, OnErr, IsErr, IsTrue, vec_len};
ghost use Rattle.kc_base.specs.Causes.{Rose};
ghost use Rattle.kc_base.specs.Memory.{faults_in, next_call, is_to_fail};

use crate::{Failed, Source};
use kc_base::count_call;

/// Copies a prefix of a text to the beginning of the room, at most so many bytes of it, and says how many.
pub fn copy_prefix(room: &mut [u8], text: &[u8], most: usize) -> usize
    ensures count { result ≡ min most (min (length room.old) (length text.now)) }
    ensures bytes { take result room.new ≡ take result text.now }
{
    let count = most.min(room.len().min(text.len()));
    room[..count].copy_from_slice(&text[..count]);
    count
}

/// Bytes in memory, given in order, at most so many at a time. The reads whose numbers are listed fail, counted from 1.
#[derive(Drop)]
pub struct MemSource {
    bytes: Vec<u8>,
    at: usize,
    piece: usize,
    failing: Vec<u64>,
    reads: u64,
    ghost within: { at ≤ vec_len bytes },
    ghost some: { 0 < piece },
}

impl MemSource {
    /// A source of these bytes, of which no read was made. It gives at most `piece` of them at a time.
    pub fn new(bytes: Vec<u8>, piece: usize, failing: Vec<u64>) -> MemSource
        requires { 0 < piece }
        ensures bytes { result.bytes ≡ bytes }
        ensures at { result.at ≡ 0 }
        ensures piece { result.piece ≡ piece }
        ensures failing { result.failing ≡ failing }
        ensures no_read { result.reads ≡ 0 }
    {
        MemSource {
            bytes,
            at: 0,
            piece,
            failing,
            reads: 0,
        }
    }
}

impl Source for MemSource {
    ghost to_come = { λ s. Some (drop s.at s.bytes.items) };

    ghost faults = { λ s. faults_in s.reads s.failing.items };

    fn read(&mut self, room: &mut [u8]) -> Result<usize, Failed>
        requires { 0 < length room.old }
        ensures within { IfOk result (λ count. count ≤ length room.new) }
        ensures count { IfOk result (λ count. count ≡ min self.old.piece (min (length room.old) (length (drop self.old.at self.old.bytes.items)))) }
        ensures given { IfOk result (λ count. drop self.old.at self.old.bytes.items ≡ take count room.new ++ drop self.new.at self.new.bytes.items) }
        ensures end { result ≡ Ok 0 → drop self.new.at self.new.bytes.items ≡ [] }
        ensures refused { OnErr result (drop self.new.at self.new.bytes.items ≡ drop self.old.at self.old.bytes.items) }
        ensures failed { OnErr result (Rose (faults_in self.old.reads self.old.failing.items) (faults_in self.new.reads self.new.failing.items)) }
        ensures calm { OnOk result (faults_in self.new.reads self.new.failing.items ≡ faults_in self.old.reads self.old.failing.items) }
        ensures later { faults_in self.old.reads self.old.failing.items ≤ faults_in self.new.reads self.new.failing.items }
        ensures fails { IsTrue (is_to_fail self.old.reads self.old.failing.items) ↔ IsErr result }
        ensures same { (self.new.bytes ≡ self.old.bytes) × (self.new.piece ≡ self.old.piece) × (self.new.failing ≡ self.old.failing) × (self.new.reads ≡ next_call self.old.reads) }
    {
        if count_call(&mut self.reads, &self.failing) {
            return Err(Failed);
        }
        let count = copy_prefix(room, &self.bytes[self.at..], self.piece);
        self.at += count;
        Ok(count)
    }
}
