ghost use Rattle.std.specs.Prelude.{◌≡◌, ◌<◌, bit_or, IfSome};
ghost use Rattle.kc_base.specs.Limits.{transfer_count};
ghost use Rattle.kc_base.specs.Bits.{bit};
ghost use Rattle.kc_intc.specs.Choosing.{wants_cycle, wants_entry, greatest, choice_of, IsBelowNmi};
ghost use Rattle.kc_intc.specs.Sets.{without, with_request};
ghost use Rattle.kc_intc.specs.Changes.{entered_of, ended_of};

use kc_base::{IntSet, TRANSFER_COUNT};

/// The four sets of interrupt requests; bit n of each is the request of vector n, 0 to 15.
///
/// `pending` is INT_PEND (low byte) and INT_PEND1, `mask` INT_MASK and INT_MASK1, `select` PTSSEL, `service` PTSSRV
/// (80C196KC User's Manual, "Interrupts" and "Peripheral Transaction Server").
#[derive(Clone, Copy, Default, PartialEq, Eq)]
pub struct Requests {
    pub pending: u16,
    pub mask: u16,
    pub select: u16,
    pub service: u16,
}

/// The request of NMI, which is not masked.
const NMI: u16 = 0x8000;

/// What is served before the program goes on.
#[derive(Clone, Copy, PartialEq, Eq)]
pub enum Choice {
    /// NMI is entered.
    Nmi,
    /// A cycle of the peripheral transaction server for this request.
    Transfer(u8),
    /// This request is entered.
    Enter(u8),
    /// Nothing: the program goes on.
    Go,
}

fn is_in(set: u16, n: u8) -> bool
    requires { n < 16 }
    ensures { result ≡ bit set n }
{
    (set >> n) % 2 == 1
}

fn without(n: u8, set: u16) -> u16
    requires { n < 16 }
    ensures { result ≡ without n set }
{
    set & !(1 << n)
}

fn with_request(n: u8, set: u16) -> u16
    requires { n < 16 }
    ensures { result ≡ with_request n set }
{
    set | 1 << n
}

// The highest request of a set, NMI not among them.
#[tactic(auto, using(crate::proofs::Greatest::greatest_more, crate::proofs::Greatest::none_of_zero, crate::proofs::Greatest::of_low_byte), unfolding(crate::specs::Choosing::greatest))]
fn highest(set: u16) -> Option<u8>
    ensures value { result ≡ greatest (bit set) transfer_count }
    ensures below { IfSome result (λ n. n < transfer_count) }
{
    if set == 0 {
        return None;
    }
    let mut n = if set < 256 { 8 } else { TRANSFER_COUNT };
    while n > 0 {
        n -= 1;
        if is_in(set, n) {
            return Some(n);
        }
    }
    None
}

impl Requests {
    /// Adds these requests to the pending ones.
    pub fn raise(&mut self, set: IntSet)
        ensures { self.new ≡ record self.old { pending = bit_or self.old.pending set.0 } }
    {
        self.pending |= set.0;
    }

    /// What is served next, where `pse` is the bit PSE of the PSW and `enabled` its bit I.
    #[tactic(auto, using(crate::proofs::Greatest::nothing_masked_in))]
    pub fn choose(&self, pse: bool, enabled: bool) -> Choice
        ensures value { result ≡ choice_of pse enabled self.now }
        ensures below { IsBelowNmi result }
    {
        if (self.pending | self.service) & (self.mask | NMI) == 0 {
            return Choice::Go;
        }
        if is_in(self.pending, 15) {
            return Choice::Nmi;
        }
        if pse && let Some(n) = self.cycle() {
            return Choice::Transfer(n);
        }
        if enabled && let Some(n) = self.entry() {
            return Choice::Enter(n);
        }
        Choice::Go
    }

    /// Takes a request away that a cycle of the transfer server begins with.
    pub fn taken(&mut self, n: u8)
        requires { n < 16 }
        ensures { self.new ≡ record self.old { pending = without n self.old.pending } }
    {
        let left = without(n, self.pending);
        self.pending = left;
    }

    /// Takes a request away that is entered: its service bit, or where that is clear its pending bit.
    pub fn entered(&mut self, n: u8)
        requires { n < 16 }
        ensures { self.new ≡ entered_of n self.old }
    {
        if is_in(self.service, n) {
            self.service = without(n, self.service);
        } else {
            self.pending = without(n, self.pending);
        }
    }

    /// Hands a request whose last cycle has ended from the transfer server to its interrupt.
    pub fn ended(&mut self, n: u8)
        requires { n < 16 }
        ensures { self.new ≡ ended_of n self.old }
    {
        self.select = without(n, self.select);
        self.service = with_request(n, self.service);
    }

    // The request that the transfer server serves next.
    #[tactic(auto, using(crate::proofs::Sets::cycles))]
    fn cycle(&self) -> Option<u8>
        ensures value { result ≡ greatest (wants_cycle self.now) transfer_count }
        ensures below { IfSome result (λ n. n < transfer_count) }
    {
        highest(self.pending & self.mask & self.select)
    }

    // The request that is entered next.
    #[tactic(auto, using(crate::proofs::Sets::entries))]
    fn entry(&self) -> Option<u8>
        ensures value { result ≡ greatest (wants_entry self.now) transfer_count }
        ensures below { IfSome result (λ n. n < transfer_count) }
    {
        highest(self.mask & (self.service | self.pending & !self.select))
    }
}
