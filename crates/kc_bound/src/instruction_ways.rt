ghost use Rattle.std.specs.Prelude.{◌≡◌, ◌+◌, ◌*◌, ◌∷◌, [], ◌<◌, map, IfOk, IsTrue, Some};
ghost use Rattle.std.specs.Option.{option_map};
ghost use Rattle.kc_isa.specs.Formed.{is_formed};
ghost use Rattle.kc_bound.specs.Notes.{targets_at};
ghost use Rattle.kc_bound.specs.Ways as spec;

use crate::looking::{found_at, goes_at, is_end, jump_of, most_states, next_of, word_at, words_at};
use crate::notes::Notes;
use crate::way::Way;
use kc_base::{Image, NoMemory};
use kc_code::Decoded;
use kc_exec::make_plan;
use kc_exec_spec::{Plan, Route};
use kc_isa::{Insn, mnemonic_of};
use std::alloc::Global;

/// The most states of a word of a block move, and of the trap of an opcode that no instruction has.
const WORD_STATES: u32 = 14;

const TRAP_STATES: u32 = 14;

/// Where the words stand that TRAP and an opcode without an instruction go on at.
const TRAP_VECTOR: u16 = 0x2010;

const OPCODE_VECTOR: u16 = 0x2012;

// The way, or out of the pass where it leads to an end.
fn unless_end(notes: &Notes, way: Way) -> Way
    ensures { result ≡ spec.unless_end notes.now way }
{
    match way {
        Way::To { states, target } | Way::Call { states, target, .. } if is_end(notes, target) => {
            Way::Out { states }
        }
        _ => way,
    }
}

fn one(alloc: Global, notes: &Notes, way: Way) -> Result<Option<Vec<Way>>, NoMemory>
    ensures { IfOk result (λ w. option_map (λ v. v.items) w ≡ Some (spec.unless_end notes.now way ∷ [])) }
{
    let way = unless_end(notes, way);
    Ok(Some(vec![in alloc; way]?))
}

fn two(alloc: Global, notes: &Notes, first: Way, second: Way) -> Result<Option<Vec<Way>>, NoMemory>
    ensures { IfOk result (λ w. option_map (λ v. v.items) w ≡ Some (spec.unless_end notes.now first ∷ spec.unless_end notes.now second ∷ [])) }
{
    let first = unless_end(notes, first);
    let second = unless_end(notes, second);
    Ok(Some(vec![in alloc; first, second]?))
}

fn each_of(alloc: Global, notes: &Notes, states: u32, targets: &[u16]) -> Result<Vec<Way>, NoMemory>
    ensures { IfOk result (λ v. v.items ≡ map (spec.unless_end notes.now) (spec.ways_to states targets.now)) }
{
    let ways = targets
        .iter()
        .map(|target| Way::To {
            states,
            target: *target,
        })
        .map(|way| unless_end(notes, way))
        .collect(alloc)?;
    Ok(ways)
}

// To each target that the note of a computed jump has.
fn each(alloc: Global, notes: &Notes, states: u32, at: u16) -> Result<Option<Vec<Way>>, NoMemory>
    ensures { IfOk result (λ w. option_map (λ v. v.items) w ≡ option_map (map (spec.unless_end notes.now)) (option_map (spec.ways_to states) (targets_at notes.now at))) }
{
    match goes_at(notes.goes.as_slice(), at) {
        Some(goes) => Ok(Some(each_of(alloc, notes, states, goes.targets.as_slice())?)),
        None => Ok(None),
    }
}

// Behind a block move that moves at most so many words, if that is noted.
fn moved(
    alloc: Global,
    notes: &Notes,
    states: u32,
    words: Option<u16>,
    next: u16,
) -> Result<Option<Vec<Way>>, NoMemory>
    requires { states < 256 }
    ensures { IfOk result (λ w. option_map (λ v. v.items) w ≡ option_map (map (spec.unless_end notes.now)) (option_map (λ most. Way.To (states + WORD_STATES * most) next ∷ []) words)) }
{
    let Some(most) = words else {
        return Ok(None);
    };
    let way = Way::To {
        states: states + WORD_STATES * u32::from(most),
        target: next,
    };
    one(alloc, notes, way)
}

// By the kind of work of an instruction.
fn ways_by(
    alloc: Global,
    image: &Image,
    notes: &Notes,
    plan: Plan,
    insn: &Insn,
    at: u16,
) -> Result<Option<Vec<Way>>, NoMemory>
    requires { IsTrue (is_formed insn.now) }
    ensures { IfOk result (λ w. option_map (λ v. v.items) w ≡ option_map (map (spec.unless_end notes.now)) (spec.ways_planned image.now notes.now plan insn.now at)) }
{
    let states = most_states(plan, insn, false);
    let next = next_of(insn, at);
    let jump = jump_of(insn, at);
    let on = Way::To {
        states,
        target: next,
    };
    let jumps = Way::To {
        states,
        target: jump,
    };
    match plan {
        Plan::Jump(route) => match route {
            Route::Always => one(alloc, notes, jumps),
            Route::Call => one(
                alloc,
                notes,
                Way::Call {
                    states,
                    target: jump,
                    back: next,
                },
            ),
            Route::Return => one(alloc, notes, Way::Back { states }),
            Route::When(_, _) => two(
                alloc,
                notes,
                on,
                Way::To {
                    states: most_states(plan, insn, true),
                    target: jump,
                },
            ),
            Route::Bit(_) | Route::CountDown(_) => two(alloc, notes, on, jumps),
            Route::Table | Route::Register => each(alloc, notes, states, at),
        },
        Plan::BlockMove(_) => moved(alloc, notes, states, words_at(notes, at), next),
        Plan::Trap => one(
            alloc,
            notes,
            Way::Call {
                states,
                target: word_at(image, TRAP_VECTOR),
                back: next,
            },
        ),
        Plan::Idle | Plan::Reset => one(alloc, notes, Way::Out { states }),
        Plan::Compute(_) | Plan::Move(_) | Plan::Save(_) | Plan::Set(_) => one(alloc, notes, on),
    }
}

/// The ways on from an address of an image, each with the most states that it takes. `None` where nothing can be said of them: no
/// instruction stands there wholly in the ROM, or the note of a computed jump or of a block move is missing.
#[tactic(auto, unfolding(crate::specs::Ways::ways_at))]
pub fn ways(
    alloc: Global,
    image: &Image,
    notes: &Notes,
    at: u16,
) -> Result<Option<Vec<Way>>, NoMemory>
    ensures { IfOk result (λ w. option_map (λ v. v.items) w ≡ spec.ways_at image.now notes.now at) }
{
    match found_at(image, at) {
        Decoded::Insn(insn, _) => match mnemonic_of(insn.opcode, insn.signed) {
            Some(mnemonic) => ways_by(alloc, image, notes, make_plan(mnemonic), &insn, at),
            None => Ok(None),
        },
        Decoded::Unimplemented => one(
            alloc,
            notes,
            Way::Call {
                states: TRAP_STATES,
                target: word_at(image, OPCODE_VECTOR),
                back: at.wrapping_add(1),
            },
        ),
        Decoded::Undefined => one(alloc, notes, Way::Out { states: 2 }),
        Decoded::Short => Ok(None),
    }
}
