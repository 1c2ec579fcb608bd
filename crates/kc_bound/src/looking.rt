// What stands at an address, what notes say of it, and how many states an instruction takes at most.
ghost use Rattle.std.specs.Prelude.{◌≡◌, ◌≤◌, ◌<◌, ◌==◌, IsTrue, find};
ghost use Rattle.std.specs.Option.{option_map, option_copied};
ghost use Rattle.kc_isa.specs.Formed.{is_formed};
ghost use Rattle.kc_code.specs.Listing.{IsFormedWhole};
ghost use Rattle.kc_exec_spec.specs.Jumping.{next_pc, jump_pc};
ghost use Rattle.kc_bound.specs.Notes as notes_say;
ghost use Rattle.kc_bound.specs.Ways as spec;

use crate::notes::{Goes, Notes};
use kc_base::{IMAGE_START, Image, REGISTER_FILE_END, ROM_END};
use kc_code::{Decoded, decode};
use kc_exec::distance_of;
use kc_exec_spec::{Computation, Plan};
use kc_isa::{Insn, Operand, Place, length, states};

/// What stands at an address of an image, with all its bytes in the ROM.
#[tactic(auto, unfolding(crate::specs::Ways::found_at))]
pub fn found_at(image: &Image, at: u16) -> Decoded
    ensures value { result ≡ spec.found_at image.now at }
    ensures formed { IsFormedWhole result }
{
    if at < IMAGE_START {
        return Decoded::Short;
    }
    let bytes = image.as_slice().split_at((at - IMAGE_START) as usize).1;
    let count = 7u16.min(ROM_END.saturating_sub(at));
    decode(bytes.split_at(usize::from(count)).0)
}

// A word of the image.
pub(crate) fn word_at(image: &Image, at: u16) -> u16
    requires { (IMAGE_START ≤ at) × (at < 65535) }
    ensures { result ≡ spec.image_word image.now at }
{
    u16::from(image.byte(at)) + 256 * u16::from(image.byte(at + 1))
}

pub(crate) fn is_among(addresses: &[u16], at: u16) -> bool
    ensures { result ≡ notes_say.is_among addresses.now at }
{
    addresses.iter().any(|a| *a == at)
}

/// Whether notes end a pass where an address would begin.
pub fn is_end(notes: &Notes, at: u16) -> bool
    ensures { result ≡ notes_say.is_end notes.now at }
{
    is_among(notes.ends.as_slice(), at)
}

// The most words of the block move at an address.
pub(crate) fn words_at(notes: &Notes, at: u16) -> Option<u16>
    ensures { result ≡ notes_say.words_at notes.now at }
{
    notes
        .words
        .iter()
        .find(|moved| moved.block == at)
        .map(|moved| moved.most)
}

// The note of the computed jump at an address.
pub(crate) fn goes_at(goes: &[Goes], at: u16) -> Option<&Goes>
    ensures { option_copied result ≡ find (λ g. g.jump == at) goes.now }
{
    goes.iter().find(|goes| goes.jump == at)
}

fn may_be_outside(operand: Operand) -> bool
    ensures { result ≡ spec.may_be_outside operand }
{
    match operand {
        Operand::Indirect(r) | Operand::Increment(r) => r != 0,
        Operand::Short { base, offset } => {
            base != 0 || i16::from(offset).cast_unsigned() >= REGISTER_FILE_END
        }
        Operand::Long { base, offset } => base != 0 || offset >= REGISTER_FILE_END,
        _ => false,
    }
}

fn most_shifts(plan: Plan, operand: Operand) -> u8
    ensures value { result ≡ spec.most_shifts plan operand }
    ensures bound { result ≤ 31 }
{
    if let Plan::Compute(Computation::Normalize) = plan {
        return 31;
    }
    match operand {
        Operand::Count(n) => { if n < 0x10 { n } else { 31 } }
        _ => 0,
    }
}

// The most states of an instruction of a kind of work, where its jump is taken or not.
pub(crate) fn most_states(plan: Plan, insn: &Insn, taken: bool) -> u32
    requires { IsTrue (is_formed insn.now) }
    ensures value { result ≡ spec.most_states plan insn.now taken }
    ensures bound { result < 256 }
{
    let place = Place {
        operand_memory: may_be_outside(insn.operand),
        stack_memory: true,
        shifts: most_shifts(plan, insn.operand),
        taken,
    };
    u32::from(states(insn, place).max(2))
}

// The address behind an instruction.
pub(crate) fn next_of(insn: &Insn, at: u16) -> u16
    requires { IsTrue (is_formed insn.now) }
    ensures { result ≡ next_pc insn.now at }
{
    at.wrapping_add(u16::from(length(insn)))
}

// The address to which an instruction jumps.
pub(crate) fn jump_of(insn: &Insn, at: u16) -> u16
    requires { IsTrue (is_formed insn.now) }
    ensures { result ≡ jump_pc insn.now at }
{
    next_of(insn, at).wrapping_add(distance_of(insn.operand))
}
