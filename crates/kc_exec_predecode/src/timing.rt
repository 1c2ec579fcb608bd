// How many states a predecoded instruction takes.
ghost use Rattle.std.specs.Prelude.{◌≡◌, ◌<◌, ◌≤◌, IfErr, IfOk, IsTrue, true, false, if◌then◌else◌};
ghost use Rattle.std.specs.Bool.{OnTrue};
ghost use Rattle.kc_base.specs.declared.types.Kind.TheVariants.{NoRegister as NotThere};
ghost use Rattle.kc_exec_predecode.specs.declared.cost.Cost.TheVariants.{Fixed};
ghost use Rattle.kc_exec_spec.specs.Window.{is_wsr};
ghost use Rattle.kc_exec_spec.specs.Plans.{plan_of};
ghost use Rattle.kc_exec_predecode.specs.Predecoding.{is_free, is_blank, is_simple, holds_at, known_at, time_at, predecoded_of, IsPredecoded};

use crate::cost::Cost;
use crate::predecoded::Predecoded;
use kc_base::{Kind, REGISTER_FILE_END};
use kc_bus::Bus;
use kc_exec::{is_met, is_operand_outside, place, stack_pointer};
use kc_exec_spec::Cpu;
use kc_isa::states;

/// Whether the program goes on after the instruction: any activity may follow, or an instruction has to.
#[inline(always)]
pub fn is_followed_freely(predecoded: &Predecoded) -> bool
    ensures value { result ≡ predecoded.now.free }
    ensures known { OnTrue result (is_blank predecoded.now ≡ false) }
    ensures free { IsPredecoded predecoded.now → result ≡ is_free (plan_of predecoded.now.mnemonic) }
{
    predecoded.free
}

/// The states of a place that has to be asked whole.
#[inline(never)]
fn placed_time<B: Bus>(predecoded: &Predecoded, cpu: Cpu, bus: &B) -> Result<u8, Kind>
    requires { IsPredecoded predecoded.now }
    ensures value { result ≡ time_at predecoded.now.insn cpu (B.meaning.masks (B.held bus.now)) (B.byte (B.held bus.now)) }
    ensures only { IfErr result (λ k. k ≡ NotThere) }
    ensures some { IfOk result (λ n. 0 < n) }
{
    let place = place(&predecoded.insn, &cpu, bus)?;
    Ok(states(&predecoded.insn, place))
}

/// Whether what the states depend on holds.
#[inline(always)]
fn is_held<B: Bus>(predecoded: &Predecoded, psw: u8, wsr: u8, bus: &B) -> Result<bool, Kind>
    requires predecoded { IsPredecoded predecoded.now }
    requires window { IsTrue (is_wsr wsr) }
    ensures value { result ≡ holds_at predecoded.now.cost (plan_of predecoded.now.mnemonic) predecoded.now.insn.operand psw wsr (B.byte (B.held bus.now)) }
    ensures only { IfErr result (λ k. k ≡ NotThere) }
{
    match predecoded.cost {
        Cost::Points if wsr == 0 => Ok(is_operand_outside(bus, false, 0, predecoded.insn.operand)?),
        Cost::Points => Ok(is_operand_outside(bus, false, wsr, predecoded.insn.operand)?),
        Cost::Pushes => Ok(stack_pointer(bus).wrapping_sub(2) >= REGISTER_FILE_END),
        Cost::Pops => Ok(stack_pointer(bus) >= REGISTER_FILE_END),
        Cost::When => Ok(is_met(predecoded.test, predecoded.wanted, psw)),
        Cost::Fixed | Cost::Placed => Ok(false),
    }
}

// Whether the states depend on one condition, or on none.
#[inline(always)]
fn is_simple(cost: Cost) -> bool
    ensures { result ≡ is_simple cost }
{
    match cost {
        Cost::Fixed | Cost::Points | Cost::Pushes | Cost::Pops | Cost::When => true,
        Cost::Placed => false,
    }
}

// The states where the condition holds, or does not hold.
#[inline(always)]
fn known_time(predecoded: &Predecoded, holds: bool) -> u8
    requires { IsPredecoded predecoded.now }
    ensures value { result ≡ (if holds then predecoded.now.other else predecoded.now.base) }
    ensures some { 0 < result }
{
    if holds {
        predecoded.other
    } else {
        predecoded.base
    }
}

// The states by one condition.
#[inline(always)]
fn simple_time<B: Bus>(predecoded: &Predecoded, psw: u8, wsr: u8, bus: &B) -> Result<u8, Kind>
    requires predecoded { IsPredecoded predecoded.now }
    requires window { IsTrue (is_wsr wsr) }
    ensures value { result ≡ known_at predecoded.now (holds_at predecoded.now.cost (plan_of predecoded.now.mnemonic) predecoded.now.insn.operand psw wsr (B.byte (B.held bus.now))) }
    ensures only { IfErr result (λ k. k ≡ NotThere) }
    ensures some { IfOk result (λ n. 0 < n) }
{
    let holds = is_held(predecoded, psw, wsr, bus)?;
    Ok(known_time(predecoded, holds))
}

// Whether the states depend on nothing but the instruction.
#[inline(always)]
fn is_fixed(cost: Cost) -> bool
    ensures { IsTrue result → cost ≡ Fixed }
{
    matches!(cost, Cost::Fixed)
}

/// Whether the states depend on one condition at most.
#[inline(always)]
pub fn is_known(predecoded: &Predecoded) -> bool
    ensures { result ≡ is_simple predecoded.now.cost }
{
    is_simple(predecoded.cost)
}

/// The states that depend on one condition at most, from the registers and the memory that stand at its start. Refused as
/// `place` refuses it.
#[inline(always)]
#[tactic(auto, using(crate::proofs::Fixed::fixed_known))]
pub fn known_time_of<B: Bus>(predecoded: &Predecoded, cpu: Cpu, bus: &B) -> Result<u8, Kind>
    requires predecoded { IsPredecoded predecoded.now }
    requires known { is_simple predecoded.now.cost ≡ true }
    ensures value { result ≡ time_at predecoded.now.insn cpu (B.meaning.masks (B.held bus.now)) (B.byte (B.held bus.now)) }
    ensures only { IfErr result (λ k. k ≡ NotThere) }
    ensures some { IfOk result (λ n. 0 < n) }
{
    if is_fixed(predecoded.cost) {
        Ok(known_time(predecoded, false))
    } else {
        simple_time(predecoded, cpu.psw_high, bus.masks().wsr, bus)
    }
}

/// The states of a predecoded instruction, from the registers and the memory that stand at its start. Refused as `place`
/// refuses it.
#[inline(always)]
pub fn time_of<B: Bus>(predecoded: &Predecoded, cpu: Cpu, bus: &B) -> Result<u8, Kind>
    requires { IsPredecoded predecoded.now }
    ensures value { result ≡ time_at predecoded.now.insn cpu (B.meaning.masks (B.held bus.now)) (B.byte (B.held bus.now)) }
    ensures only { IfErr result (λ k. k ≡ NotThere) }
    ensures some { IfOk result (λ n. 0 < n) }
{
    if is_known(predecoded) {
        known_time_of(predecoded, cpu, bus)
    } else {
        Ok(placed_time(predecoded, cpu, bus)?)
    }
}
