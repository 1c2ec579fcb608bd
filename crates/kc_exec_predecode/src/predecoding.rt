// What is known of an instruction once.
ghost use Rattle.std.specs.Prelude.{◌≡◌, ◌≤◌, ◌<◌, IfSome, IfNone, IsTrue, None};
ghost use Rattle.kc_isa.specs.Formed.{is_formed};
ghost use Rattle.kc_isa.specs.Names.{mnemonic_at};
ghost use Rattle.kc_exec_predecode.specs.Predecoding.{is_pointing, is_counting, known_count, is_normalize, is_conditional, is_free, is_free_setting, cost_among, cost_of, place_when, test_of, predecoded_of, IsPredecoded};

use crate::cost::Cost;
use crate::predecoded::Predecoded;
use kc_exec::{is_popping, is_pushing, make_plan};
use kc_exec_spec::{Computation, Plan, Route, Setting, Test};
use kc_isa::{Insn, Mnemonic, Operand, Place, length, mnemonic_of, states};

fn is_pointing(operand: Operand) -> bool
    ensures { result ≡ is_pointing operand }
{
    match operand {
        Operand::Indirect(_)
        | Operand::Increment(_)
        | Operand::Short { .. }
        | Operand::Long { .. } => true,
        Operand::Absent
        | Operand::Reg(_)
        | Operand::Imm(_)
        | Operand::Count(_)
        | Operand::Disp(_) => false,
    }
}

fn is_counting(operand: Operand) -> bool
    ensures { result ≡ is_counting operand }
{
    match operand {
        Operand::Count(n) => !(n < 0x10),
        _ => false,
    }
}

fn known_count(operand: Operand) -> u8
    ensures value { result ≡ known_count operand }
    ensures bound { result ≤ 31 }
{
    match operand {
        Operand::Count(n) if n < 0x10 => n,
        _ => 0,
    }
}

fn is_normalize(plan: Plan) -> bool
    ensures { result ≡ is_normalize plan }
{
    matches!(plan, Plan::Compute(Computation::Normalize))
}

fn is_conditional(plan: Plan) -> bool
    ensures { result ≡ is_conditional plan }
{
    matches!(plan, Plan::Jump(Route::When(_, _)))
}

fn is_free_setting(bit: Setting) -> bool
    ensures { result ≡ is_free_setting bit }
{
    match bit {
        Setting::Interrupts(_) | Setting::Transfers(_) => false,
        Setting::Carry(_) | Setting::NoOverflowTrap | Setting::Nothing => true,
    }
}

fn is_free(plan: Plan) -> bool
    ensures { result ≡ is_free plan }
{
    match plan {
        Plan::Compute(_) | Plan::Move(_) | Plan::Jump(_) | Plan::Save(_) => true,
        Plan::Set(bit) => is_free_setting(bit),
        Plan::BlockMove(_) | Plan::Trap | Plan::Idle | Plan::Reset => false,
    }
}

fn cost_among(points: bool, pushes: bool, pops: bool, when: bool) -> Cost
    ensures { result ≡ cost_among points pushes pops when }
{
    match (points, pushes, pops, when) {
        (false, false, false, false) => Cost::Fixed,
        (true, false, false, false) => Cost::Points,
        (false, true, false, false) => Cost::Pushes,
        (false, false, true, false) => Cost::Pops,
        (false, false, false, true) => Cost::When,
        _ => Cost::Placed,
    }
}

fn cost_of(plan: Plan, operand: Operand) -> Cost
    ensures { result ≡ cost_of plan operand }
{
    if is_normalize(plan) || is_counting(operand) {
        Cost::Placed
    } else {
        cost_among(
            is_pointing(operand),
            is_pushing(plan),
            is_popping(plan),
            is_conditional(plan),
        )
    }
}

fn place_when(cost: Cost, shifts: u8, holds: bool) -> Place
    requires { shifts ≤ 31 }
    ensures value { result ≡ place_when cost shifts holds }
    ensures bound { result.shifts ≤ 31 }
{
    let mut place = Place {
        operand_memory: false,
        stack_memory: false,
        shifts,
        taken: false,
    };
    match cost {
        Cost::Points => place.operand_memory = holds,
        Cost::Pushes | Cost::Pops => place.stack_memory = holds,
        Cost::When => place.taken = holds,
        Cost::Fixed | Cost::Placed => {}
    }
    place
}

fn test_of(plan: Plan) -> (Test, bool)
    ensures { result ≡ test_of plan }
{
    match plan {
        Plan::Jump(Route::When(test, wanted)) => (test, wanted),
        _ => (Test::Sticky, false),
    }
}

#[tactic(auto, unfolding(crate::specs::Predecoding::predecoded_of))]
fn made_predecoded(insn: &Insn, mnemonic: Mnemonic) -> Predecoded
    requires { IsTrue (is_formed insn.now) }
    ensures value { result ≡ predecoded_of mnemonic insn.now }
    ensures some { 0 < result.base }
    ensures other { 0 < result.other }
{
    let plan = make_plan(mnemonic);
    let cost = cost_of(plan, insn.operand);
    let shifts = known_count(insn.operand);
    let (test, wanted) = test_of(plan);
    Predecoded {
        insn: *insn,
        mnemonic,
        free: is_free(plan),
        length: length(insn),
        cost,
        test,
        wanted,
        base: states(insn, place_when(cost, shifts, false)),
        other: states(insn, place_when(cost, shifts, true)),
    }
}

/// A well-formed instruction with what is known of it; `None` where its opcode has no row.
pub fn predecode(insn: &Insn) -> Option<Predecoded>
    requires { IsTrue (is_formed insn.now) }
    ensures predecoded { IfSome result IsPredecoded }
    ensures insn { IfSome result (λ r. r.insn ≡ insn.now) }
    ensures none { IfNone result (mnemonic_at insn.now.opcode insn.now.signed ≡ None) }
{
    let mnemonic = mnemonic_of(insn.opcode, insn.signed)?;
    Some(made_predecoded(insn, mnemonic))
}
