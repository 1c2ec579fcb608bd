ghost use Rattle.std.specs.Prelude.{◌≡◌, ◌<◌, ◌^◌, ◌++◌, map, IfOk, OnOk};
ghost use Rattle.std.specs.List.Sorted.{IsNonDecreasingBy};
ghost use Rattle.kc_bound_find.specs.Refusals as spec;

use kc_base::NoMemory;
use std::alloc::Global;

/// Why there is no certificate.
#[derive(Clone, Copy, Drop)]
pub enum Why {
    /// A block move without a note of its words.
    Block,
    /// A computed jump without a note of its targets.
    Computed,
    /// A loop whose head can begin before each of the instructions from which it is counted.
    Early,
    /// From here no way leads out.
    Endless,
    /// An instruction that does not stand wholly in the ROM.
    Outside,
    /// A routine that can be called while it is open.
    Recursive,
    /// A loop that no note bounds.
    Unbounded,
}

/// An address, and why it is refused.
#[derive(Clone, Copy, Drop)]
pub struct Refusal {
    pub at: u16,
    pub why: Why,
}

// The place of a reason by the alphabet.
fn number_of(why: Why) -> u32
    ensures value { result ≡ spec.number_of why }
    ensures bound { result < 8 }
{
    match why {
        Why::Block => 0,
        Why::Computed => 1,
        Why::Early => 2,
        Why::Endless => 3,
        Why::Outside => 4,
        Why::Recursive => 5,
        Why::Unbounded => 6,
    }
}

// By the address, and for the same address by the reason.
fn order_of(refusal: &Refusal) -> u32
    ensures value { result ≡ spec.order_of refusal.now }
    ensures bound { result < 2 ^ 20 }
{
    8 * u32::from(refusal.at) + number_of(refusal.why)
}

/// Adds some addresses, refused for one reason.
pub(crate) fn refuse_all(
    addresses: &[u16],
    why: Why,
    refused: &mut Vec<Refusal>,
) -> Result<(), NoMemory>
    ensures { OnOk result (refused.new.items ≡ refused.old.items ++ map (spec.refusal_for why) addresses.now) }
{
    for at in addresses {
        refused.push(Refusal { at: *at, why })?;
    }
    Ok(())
}

// Of refusals by rising address each once.
fn each_once(alloc: Global, refused: &[Refusal]) -> Result<Vec<Refusal>, NoMemory>
    requires { IsNonDecreasingBy spec.order_of refused.now }
    ensures { IfOk result (λ found. spec.StandRising refused.now found.items) }
{
    let mut found = Vec::new(alloc);
    let mut next: u32 = 0;
    for refusal in refused {
        let order = order_of(refusal);
        if next <= order {
            found.push(*refusal)?;
            next = order + 1;
        }
    }
    Ok(found)
}

/// Refusals by rising address, each once.
pub(crate) fn rising(alloc: Global, refused: Vec<Refusal>) -> Result<Vec<Refusal>, NoMemory>
    ensures { IfOk result (λ found. spec.StandRising refused.items found.items) }
{
    let mut sorted = refused;
    sorted.sort_unstable_by_key(|refusal| order_of(refusal));
    each_once(alloc, sorted.as_slice())
}
