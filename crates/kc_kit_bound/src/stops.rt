// Where a pass may end without a return.
ghost use Rattle.std.specs.Prelude.{◌≡◌, ◌≤◌, is_some};
ghost use Rattle.kc_bound.specs.Certified.{standing_at};
ghost use Rattle.kc_kit_bound.specs.Stops as spec;

use kc_base::{IMAGE_START, Image, ROM_END};
use kc_bound::{Certificate, Notes, found_at, is_end};
use kc_code::Decoded;
use kc_exec::make_plan;
use kc_exec_spec::Plan;
use kc_isa::mnemonic_of;

fn is_stop(plan: Plan) -> bool
    ensures { result ≡ spec.is_stop plan }
{
    matches!(plan, Plan::Idle | Plan::Reset)
}

fn is_stop_found(found: &Decoded) -> bool
    ensures { result ≡ spec.is_stop_found found.now }
{
    match found {
        Decoded::Insn(insn, _) => match mnemonic_of(insn.opcode, insn.signed) {
            Some(mnemonic) => is_stop(make_plan(mnemonic)),
            None => false,
        },
        Decoded::Undefined => true,
        _ => false,
    }
}

fn is_over_at(notes: &Notes, from: u16, at: u16) -> bool
    ensures { result ≡ spec.is_over_at notes.now from at }
{
    is_end(notes, at) && at != from
}

fn has_standing(c: &Certificate, at: u16) -> bool
    requires { IMAGE_START ≤ at }
    ensures { result ≡ is_some (standing_at c.now at) }
{
    match c.standings.get((at - IMAGE_START) as usize) {
        Some(standing) => standing.is_some(),
        None => false,
    }
}

fn may_stop(image: &Image, notes: &Notes, from: u16, c: &Certificate, at: u16) -> bool
    requires { IMAGE_START ≤ at }
    ensures { result ≡ spec.may_stop image.now notes.now from c.now at }
{
    has_standing(c, at) && !is_over_at(notes, from, at) && is_stop_found(&found_at(image, at))
}

/// The least address where a pass may end by IDLPD, RST or an undefined opcode, by a certificate for it.
pub(crate) fn first_stop(image: &Image, notes: &Notes, from: u16, c: &Certificate) -> Option<u16>
    ensures { result ≡ spec.first_stop image.now notes.now from c.now }
{
    for at in IMAGE_START..ROM_END {
        if may_stop(image, notes, from, c, at) {
            return Some(at);
        }
    }
    None
}
