// The values of an analogue file with what finds one among them, as they are read.
ghost use Rattle.std.specs.Prelude.{◌≡◌, true, false, ◌≤◌, ℕ, ◌++◌, ◌∷◌, [], if◌then◌else◌, ◌==◌, IfOk, OnOk, vec_len, length, Ok};
ghost use Rattle.std.specs.List.Sorted.{IsNonDecreasingBy};
ghost use Rattle.kc_convert.specs.Samples.{value_at as value_of, last_value, up_to, IsValue};
ghost use Rattle.kc_convert.specs.Reading.{is_bad as is_at_fault, with_item, is_falling as falls, is_twice as comes_twice};
ghost use Rattle.kc_convert.specs.Index.{IsIndexed, list_of};

use crate::sample::{Item, Sample};
use kc_base::{NoMemory, StateTime};
use std::alloc::Global;

/// The most values of a file.
const SAMPLE_LIMIT: usize = 65_536;

/// The values in their order, and those of each channel.
#[derive(Drop)]
pub(crate) struct Index {
    pub samples: Vec<Sample>,
    pub by_channel: Vec<Vec<Sample>>,
}

/// The value that the values of a channel leave it at in a state.
fn value_in(own: &[Sample], at: StateTime) -> u16
    requires { IsNonDecreasingBy (λ s. s.at) own.now }
    ensures { result ≡ last_value (up_to at own.now) 0 }
{
    let count = own.partition_point(|s| s.at <= at);
    if count == 0 { 0 } else { own[count - 1].value }
}

/// The values of a channel.
fn own_samples(by_channel: &[Vec<Sample>], channel: u8) -> &[Sample]
    ensures { result.now ≡ list_of by_channel.now channel }
{
    match by_channel.get(channel as usize) {
        Some(own) => own.as_slice(),
        None => &[],
    }
}

// Makes lists for the channels below a number.
fn grow(by_channel: &mut Vec<Vec<Sample>>, alloc: Global, len: usize) -> Result<(), NoMemory>
    ensures lists { OnOk result ((channel : ℕ) → list_of by_channel.new.items channel ≡ list_of by_channel.old.items channel) }
    ensures long { OnOk result (len ≤ vec_len by_channel.new) }
{
    while by_channel.len() < len {
        by_channel.push(Vec::new(alloc))?;
    }
    Ok(())
}

// Adds a value to the list of its channel.
fn add_to(by_channel: &mut Vec<Vec<Sample>>, alloc: Global, sample: Sample) -> Result<(), NoMemory>
    ensures { OnOk result ((channel : ℕ) → list_of by_channel.new.items channel
        ≡ (if sample.channel == channel then list_of by_channel.old.items channel ++ sample ∷ [] else list_of by_channel.old.items channel)) }
{
    let channel = sample.channel as usize;
    grow(by_channel, alloc, channel + 1)?;
    by_channel[channel].push(sample)?;
    Ok(())
}

impl Index {
    ghost use Rattle.kc_convert.specs.Parts.{samples_in, IsWhole};

    /// Nothing.
    pub(crate) fn new(alloc: Global) -> Index
        ensures samples { samples_in result ≡ [] }
        ensures whole { IsWhole result }
    {
        Index {
            samples: Vec::new(alloc),
            by_channel: Vec::new(alloc),
        }
    }

    /// The value of a channel in a state.
    pub(crate) fn value_at(&self, channel: u8, at: StateTime) -> u16
        requires { IsWhole self.now }
        ensures { result ≡ value_of (samples_in self.now) channel at }
    {
        let own = own_samples(self.by_channel.as_slice(), channel);
        value_in(own, at)
    }

    fn is_falling(&self, at: StateTime) -> bool
        ensures { result ≡ falls (samples_in self.now) at }
    {
        match self.samples.as_slice().last() {
            Some(s) => at < s.at,
            None => false,
        }
    }

    // Whether a value that does not fall comes again for a channel in the same state.
    fn is_twice(&self, sample: Sample) -> bool
        requires whole { IsWhole self.now }
        requires later { falls (samples_in self.now) sample.at ≡ false }
        ensures { result ≡ comes_twice (samples_in self.now) sample }
    {
        match own_samples(self.by_channel.as_slice(), sample.channel).last() {
            Some(s) => s.at == sample.at,
            None => false,
        }
    }

    /// Adds a value that does not fall.
    pub(crate) fn push(&mut self, alloc: Global, sample: Sample) -> Result<(), NoMemory>
        requires whole { IsWhole self.old }
        requires later { falls (samples_in self.old) sample.at ≡ false }
        requires value { IsValue sample }
        ensures samples { OnOk result (samples_in self.new ≡ samples_in self.old ++ sample ∷ []) }
        ensures whole { OnOk result (IsWhole self.new) }
    {
        add_to(&mut self.by_channel, alloc, sample)?;
        self.samples.push(sample)?;
        Ok(())
    }

    /// Takes what a line is; false where it is at fault.
    pub(crate) fn take(&mut self, alloc: Global, item: Item) -> Result<bool, NoMemory>
        requires whole { IsWhole self.old }
        requires value { (s : Sample) → item ≡ Sampled s → IsValue s }
        ensures taken { IfOk result (λ taken. taken ≡ not (is_at_fault (samples_in self.old) item)) }
        ensures samples { result ≡ Ok true → samples_in self.new ≡ with_item (samples_in self.old) item }
        ensures whole { result ≡ Ok true → IsWhole self.new }
    {
        match item {
            Item::Blank => Ok(true),
            Item::Wrong => Ok(false),
            Item::Sampled(sample) => self.take_sample(alloc, sample),
        }
    }

    fn take_sample(&mut self, alloc: Global, sample: Sample) -> Result<bool, NoMemory>
        requires whole { IsWhole self.old }
        requires value { IsValue sample }
        ensures taken { IfOk result (λ taken. taken ≡ not (is_at_fault (samples_in self.old) (Item.Sampled sample))) }
        ensures samples { result ≡ Ok true → samples_in self.new ≡ with_item (samples_in self.old) (Item.Sampled sample) }
        ensures whole { result ≡ Ok true → IsWhole self.new }
    {
        if self.is_falling(sample.at) || self.is_twice(sample) {
            return Ok(false);
        }
        if self.samples.len() >= SAMPLE_LIMIT {
            return Ok(false);
        }
        self.push(alloc, sample)?;
        Ok(true)
    }
}

ghost use Rattle.std.specs.Prelude.{not};
ghost use Rattle.kc_convert.specs.declared.sample.Item.TheVariants.{Sampled};
