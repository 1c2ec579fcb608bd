// The statistics of a run: of its requests, of its stack, and of the instructions that it has done.
ghost use Rattle.std.specs.Prelude.{◌≡◌, ◌+◌, ◌-◌, ◌<◌, ◌≤◌, ◌^◌, ◌∷◌, [], ℕ, List, IfOk, length, slice_index, slice_set, All};
ghost use Rattle.kc_profile.specs.declared.sight.Sight as sights;
ghost use Rattle.kc_profile.specs.Statistics.{AreAllFew, HaveSeen, AreStatisticsOf, IsWhole, waits_at};
ghost use Rattle.kc_profile.specs.Statistics as spec;
ghost use Rattle.kc_profile.specs.Tally.{sums};
ghost use Rattle.kc_profile.specs.Waits.{see, AreConsecutive, AreFewWaits};

use crate::sight::{Sight, Way};
use crate::spread::Moment;
use crate::waits::Waits;
use kc_base::NoMemory;
use std::alloc::Global;
use std::marker::Model;

/// How many addresses there are.
const ADDRESSES: usize = 0x10000;

/// The least value to which a run moves the stack pointer, and when it came first.
#[derive(Clone, Copy)]
pub struct Depth {
    pub word: u16,
    pub when: Moment,
}

/// The statistics of a run: of its requests, of its stack, and of the instructions that it has done.
#[derive(Drop)]
pub struct Statistics {
    /// The number of the present life, from 1.
    pub(crate) life: u16,
    pub(crate) waits: [Waits; 16],
    pub(crate) deepest: Option<Depth>,
    /// At each address, how often an instruction was done, how often a conditional jump was taken, and how often not.
    pub(crate) hits: Vec<u64>,
    pub(crate) taken: Vec<u64>,
    pub(crate) passed: Vec<u64>,
}

impl Model for Statistics {
    ghost use Rattle.kc_profile.specs.Statistics.{Statistics, IsWhole};

    ghost Value = { Statistics };

    ghost view = { λ t. record { life = t.life; waits = t.waits; deepest = t.deepest; hits = t.hits.items; taken = t.taken.items; passed = t.passed.items } };

    ghost invariant = { λ t. IsWhole (record { life = t.life; waits = t.waits; deepest = t.deepest; hits = t.hits.items; taken = t.taken.items; passed = t.passed.items }) };
}

// Counts once more.
fn count(numbers: &mut [u64], addr: u16)
    requires long { length numbers.old ≡ 65536 }
    requires few { slice_index numbers.old addr < 2 ^ 64 - 1 }
    ensures { numbers.new ≡ slice_set numbers.old addr (slice_index numbers.old addr + 1) }
{
    numbers[usize::from(addr)] += 1;
}

// Adds numbers to others, each to its own.
#[tactic(auto, using(crate::proofs::Added::added_sums))]
fn add_all(numbers: &mut [u64], more: &[u64])
    requires same { length numbers.old ≡ length more.now }
    requires few { All (λ n. n ≤ 2 ^ 63 - 1) numbers.old }
    requires more { All (λ n. n ≤ 2 ^ 63 - 1) more.now }
    ensures { numbers.new ≡ sums numbers.old more.now }
{
    for i in 0..numbers.len() {
        numbers[i] += more[i];
    }
}

// Takes what a state shows of each request.
#[tactic(auto, using(crate::proofs::Added::have_seen, crate::proofs::Added::seen_next, crate::proofs::Added::seen_none))]
fn see_all(waits: &mut [Waits], life: u16, sight: &Sight)
    requires many { length waits.old ≡ 16 }
    requires few { All (AreFewWaits (2 ^ 64 - 2)) waits.old }
    ensures { HaveSeen life sight.now waits.old waits.new }
{
    for n in 0..16u8 {
        waits[usize::from(n)].see(n, life, sight);
    }
}

// Adds what a later life reports of each request.
#[tactic(auto, using(crate::proofs::Added::added_waits))]
fn add_waits(waits: &mut [Waits], later: &[Waits])
    requires same { length waits.old ≡ length later.now }
    requires few { All (AreFewWaits (2 ^ 63 - 1)) waits.old }
    requires later { All (AreFewWaits (2 ^ 63 - 1)) later.now }
    ensures { waits.new ≡ spec.all_added waits.old later.now }
{
    for n in 0..waits.len() {
        waits[n].add(&later[n]);
    }
}

// The deeper of two depths, the first of those that are equal.
fn deeper(first: Option<Depth>, second: Depth) -> Depth
    ensures { result ≡ spec.deeper first second }
{
    match first {
        Some(first) if first.word <= second.word => first,
        _ => second,
    }
}

impl Statistics {
    /// Of a life with this number of which no state has passed.
    pub fn new(alloc: Global, life: u16) -> Result<Statistics, NoMemory>
        ensures statistics { IfOk result (λ statistics. AreStatisticsOf life [] statistics) }
        ensures life { IfOk result (λ statistics. statistics.life ≡ life) }
        ensures few { IfOk result (λ statistics. AreAllFew 0 statistics) }
    {
        Ok(Statistics {
            life,
            waits: [Waits::none(); 16],
            deepest: None,
            hits: vec![in alloc; 0u64; ADDRESSES]?,
            taken: vec![in alloc; 0u64; ADDRESSES]?,
            passed: vec![in alloc; 0u64; ADDRESSES]?,
        })
    }

    // Takes what a state shows of the instructions.
    fn see_instructions(&mut self, sight: &Sight)
        requires few { AreAllFew (2 ^ 64 - 2) self.old }
        ensures statistics { self.new ≡ spec.with_instructions sight.now self.old }
        ensures inside { sight.now.pc < 65536 }
    {
        let pc = sight.pc;
        if sight.hits() {
            count(&mut self.hits, pc);
        }
        match sight.way() {
            Some(Way::Taken) => count(&mut self.taken, pc),
            Some(Way::Passed) => count(&mut self.passed, pc),
            None => {}
        }
    }

    // Takes what a state shows of the stack.
    fn see_stack(&mut self, sight: &Sight)
        ensures statistics { self.new ≡ spec.with_stack sight.now self.old }
    {
        if sight.moves_stack() {
            let depth = Depth {
                word: sight.next_stack,
                when: Moment {
                    life: self.life,
                    at: sight.at,
                },
            };
            self.deepest = Some(deeper(self.deepest, depth));
        }
    }

    // Takes what a state shows of each request.
    fn see_requests(&mut self, sight: &Sight)
        requires few { All (AreFewWaits (2 ^ 64 - 2)) self.old.waits }
        ensures seen { HaveSeen self.old.life sight.now self.old.waits self.new.waits }
        ensures rest { self.new ≡ spec.with_waits self.new.waits self.old }
        ensures whole { IsWhole self.old }
    {
        see_all(&mut self.waits, self.life, sight);
    }

    /// Takes the next state of the present life.
    pub(crate) fn see(&mut self, sight: &Sight)
        requires few { AreAllFew (2 ^ 64 - 2) self.old }
        ensures life { self.new.life ≡ self.old.life }
        ensures waits { (n : ℕ) → n < 16 → waits_at self.new n ≡ see n self.old.life sight.now (waits_at self.old n) }
        ensures statistics { (sights : List sights.Sight) → AreConsecutive sight.now sights → AreStatisticsOf self.old.life sights self.old → AreStatisticsOf self.old.life (sight.now ∷ sights) self.new }
        ensures few { (n : ℕ) → AreAllFew n self.old → AreAllFew (n + 1) self.new }
    {
        self.see_instructions(sight);
        self.see_stack(sight);
        self.see_requests(sight);
    }

    /// Adds those of a later life.
    pub fn add(&mut self, later: &Statistics)
        requires few { AreAllFew (2 ^ 63 - 1) self.old }
        requires later { AreAllFew (2 ^ 63 - 1) later.now }
        ensures statistics { self.new ≡ spec.with_life self.old later.now }
        ensures few { (n m : ℕ) → AreAllFew n self.old → AreAllFew m later.now → AreAllFew (n + m) self.new }
    {
        self.add_life(later);
    }

    // Adds those of a later life.
    fn add_life(&mut self, later: &Statistics)
        requires few { AreAllFew (2 ^ 63 - 1) self.old }
        requires later { AreAllFew (2 ^ 63 - 1) later.now }
        ensures statistics { self.new ≡ spec.with_life self.old later.now }
        ensures whole { IsWhole self.old }
        ensures other { IsWhole later.now }
    {
        add_waits(&mut self.waits, &later.waits);
        if let Some(depth) = later.deepest {
            self.deepest = Some(deeper(self.deepest, depth));
        }
        add_all(&mut self.hits, &later.hits);
        add_all(&mut self.taken, &later.taken);
        add_all(&mut self.passed, &later.passed);
    }

    /// How often an instruction was done at an address.
    pub fn hits(&self, addr: u16) -> u64
        ensures { result ≡ slice_index self.now.hits addr }
    {
        self.hits[usize::from(addr)]
    }

    /// How often the conditional jump at an address was taken, and how often not.
    pub fn ways(&self, addr: u16) -> (u64, u64)
        ensures taken { result.0 ≡ slice_index self.now.taken addr }
        ensures passed { result.1 ≡ slice_index self.now.passed addr }
    {
        (
            self.taken[usize::from(addr)],
            self.passed[usize::from(addr)],
        )
    }
}
