ghost use Rattle.std.specs.Prelude.{◌≡◌, ◌≤◌, [], length, IfOk, IfErr, None, fold};
ghost use Rattle.kc_base.specs.Limits.{file_limit};
ghost use Rattle.kc_convert.specs.Parts.{samples_in, IsWhole};
ghost use Rattle.kc_convert.specs.Samples.{value_at, AreOfFile};
ghost use Rattle.kc_convert.specs.Reading.{first_bad, items_of, with_item, IsRefusal, IsRead};

use crate::fault::AnalogFault;
use crate::index::Index;
use crate::lines::item;
use crate::sample::Sample;
use kc_base::{NoMemory, StateTime, after, first_line, prefix};
use std::alloc::Global;
use std::marker::Model;

/// The values of the eight analogue inputs over time. One is found by binary search among those of its channel.
#[derive(Drop)]
pub struct Analog {
    index: Index,
}

impl Model for Analog {
    ghost use Rattle.std.specs.Prelude.{List};
    ghost use Rattle.kc_convert.specs.declared.sample.Sample.{Sample};
    ghost use Rattle.kc_convert.specs.Parts.{samples_in, IsWhole};

    ghost Value = { List Sample };

    ghost view = { λ a. samples_in a.index };

    ghost invariant = { λ a. IsWhole a.index };
}

// The values of the lines of a file, or its first line that is at fault.
fn index_of(alloc: Global, bytes: &[u8]) -> Result<Index, AnalogFault>
    requires { length bytes.now ≤ file_limit }
    ensures none { IfOk result (λ index. first_bad 0 [] (items_of bytes.now) ≡ None) }
    ensures samples { IfOk result (λ index. samples_in index ≡ fold with_item [] (items_of bytes.now)) }
    ensures whole { IfOk result IsWhole }
    ensures refused { IfErr result (λ fault. IsRefusal bytes.now fault) }
{
    let mut index = Index::new(alloc);
    let mut rest = bytes;
    let mut lines = 0u32;
    while !rest.is_empty() {
        let (len, used) = first_line(rest);
        lines += 1;
        match index.take(alloc, item(prefix(rest, len))) {
            Err(NoMemory) => return Err(AnalogFault::NoMemory),
            Ok(false) => return Err(AnalogFault::BadLine(lines)),
            Ok(true) => {}
        }
        rest = after(rest, used);
    }
    Ok(index)
}

// An index with the same values.
fn index_copied(alloc: Global, index: &Index) -> Result<Index, NoMemory>
    requires { IsWhole index.now }
    ensures samples { IfOk result (λ copy. samples_in copy ≡ samples_in index.now) }
    ensures whole { IfOk result IsWhole }
{
    let mut copy = Index::new(alloc);
    for sample in index.samples.as_slice() {
        copy.push(alloc, *sample)?;
    }
    Ok(copy)
}

impl Analog {
    /// No value: each channel is 0.
    pub fn none(alloc: Global) -> Analog
        ensures { result ≡ [] }
    {
        Analog {
            index: Index::new(alloc),
        }
    }

    /// What an analogue file says, of 1,048,576 bytes at most. A fault is that of its first line that has one.
    pub fn read(alloc: Global, bytes: &[u8]) -> Result<Analog, AnalogFault>
        requires { length bytes.now ≤ file_limit }
        ensures { IsRead bytes.now result }
    {
        match index_of(alloc, bytes) {
            Ok(index) => Ok(Analog { index }),
            Err(fault) => Err(fault),
        }
    }

    /// An equal one.
    pub fn copy(&self, alloc: Global) -> Result<Analog, NoMemory>
        ensures { IfOk result (λ copy. copy ≡ self.now) }
    {
        match index_copied(alloc, &self.index) {
            Ok(index) => Ok(Analog { index }),
            Err(fault) => Err(fault),
        }
    }

    /// The values, in the order of their times.
    pub fn samples(&self) -> &[Sample]
        ensures samples { result.now ≡ self.now }
        ensures values { AreOfFile result.now }
    {
        self.index.samples.as_slice()
    }

    /// The value of a channel in a state: the last one with time at most `at`, or 0.
    pub fn value(&self, channel: u8, at: StateTime) -> u16
        ensures value { result ≡ value_at self.now channel at }
        ensures small { result ≤ 1023 }
    {
        self.index.value_at(channel, at)
    }
}
