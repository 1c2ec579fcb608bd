// How many states go to each spot.
ghost use Rattle.std.specs.Prelude.{◌≡◌, ◌+◌, ◌^◌, ◌<◌, List, [], ◌++◌, length, replicate, sum, slice_index, slice_set, IfOk};
ghost use Rattle.kc_profile.specs.declared.spot.Spot as spots;
ghost use Rattle.kc_profile.specs.Tally.{IsTallyOf, both, number_of, sums, total};

use crate::Spot;
use kc_base::NoMemory;
use std::alloc::Global;
use std::marker::Model;

/// How many addresses there are.
const ADDRESSES: usize = 0x10000;

/// How many states of a run went to each spot.
#[derive(Drop)]
pub struct Profile {
    pub(crate) at: Vec<u64>,
    pub(crate) entries: [u64; 256],
    pub(crate) server: [u64; 256],
    pub(crate) idle: u64,
}

impl Model for Profile {
    ghost use Rattle.kc_profile.specs.Tally.{Tally, IsWhole, total};
    ghost use Rattle.std.specs.Prelude.{◌^◌, ◌<◌};

    ghost Value = { Tally };

    ghost view = { λ p. record { at = p.at.items; entries = p.entries; server = p.server; idle = p.idle } };

    ghost invariant = { λ p. IsWhole (record { at = p.at.items; entries = p.entries; server = p.server; idle = p.idle }) × (total (record { at = p.at.items; entries = p.entries; server = p.server; idle = p.idle }) < 2 ^ 64) };
}

// Adds to one of some numbers.
fn raise(numbers: &mut [u64], index: usize, states: u64)
    requires inside { index < length numbers.old }
    requires fits { sum numbers.old + states < 2 ^ 64 }
    ensures { numbers.new ≡ slice_set numbers.old index (slice_index numbers.old index + states) }
{
    numbers[index] += states;
}

// Adds numbers to others, each to its own.
#[tactic(auto, using(crate::proofs::Added::added_sums))]
fn raise_all(numbers: &mut [u64], more: &[u64])
    requires same { length numbers.old ≡ length more.now }
    requires fits { sum numbers.old + sum more.now < 2 ^ 64 }
    ensures { numbers.new ≡ sums numbers.old more.now }
{
    for i in 0..numbers.len() {
        numbers[i] += more[i];
    }
}

fn no_numbers() -> [u64; 256]
    ensures { result ≡ replicate 256 0 }
{
    [0; 256]
}

impl Profile {
    /// The profile of no states.
    pub fn new(alloc: Global) -> Result<Profile, NoMemory>
        ensures { IfOk result (λ profile. IsTallyOf [] profile) }
    {
        Ok(Profile {
            at: vec![in alloc; 0u64; ADDRESSES]?,
            entries: no_numbers(),
            server: no_numbers(),
            idle: 0,
        })
    }

    /// How many states went to a spot.
    pub fn states(&self, spot: Spot) -> u64
        ensures { result ≡ number_of self.now spot }
    {
        match spot {
            Spot::At(addr) => self.at[usize::from(addr)],
            Spot::Entry(number) => self.entries[usize::from(number)],
            Spot::Server(number) => self.server[usize::from(number)],
            Spot::Idle => self.idle,
        }
    }

    /// Adds the states of another run.
    pub fn add_all(&mut self, other: &Profile)
        requires { total self.old + total other.now < 2 ^ 64 }
        ensures total { total self.new ≡ total self.old + total other.now }
        ensures tally { (before others : List spots.Spot) → IsTallyOf before self.old → IsTallyOf others other.now → IsTallyOf (before ++ others) self.new }
    {
        self.add_numbers(other);
    }

    // Adds the numbers of another profile.
    fn add_numbers(&mut self, other: &Profile)
        requires { total self.old + total other.now < 2 ^ 64 }
        ensures numbers { self.new ≡ both self.old other.now }
        ensures total { total self.new ≡ total self.old + total other.now }
    {
        raise_all(&mut self.at, &other.at);
        raise_all(&mut self.entries, &other.entries);
        raise_all(&mut self.server, &other.server);
        self.idle += other.idle;
    }

    /// So many states more went to a spot.
    pub(crate) fn add(&mut self, spot: Spot, states: u64)
        requires { total self.old + states < 2 ^ 64 }
        ensures total { total self.new ≡ total self.old + states }
        ensures tally { (before : List spots.Spot) → IsTallyOf before self.old → IsTallyOf (before ++ replicate states spot) self.new }
    {
        match spot {
            Spot::At(addr) => raise(&mut self.at, usize::from(addr), states),
            Spot::Entry(number) => raise(&mut self.entries, usize::from(number), states),
            Spot::Server(number) => raise(&mut self.server, usize::from(number), states),
            Spot::Idle => self.idle += states,
        }
    }
}
