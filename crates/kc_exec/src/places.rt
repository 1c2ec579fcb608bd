ghost use Rattle.std.specs.Prelude.{◌≡◌, ◌+◌, ◌*◌, ◌%◌, ◌≤◌, ◌<◌, ◌^◌, IfOk, IfErr, IsTrue, false};
ghost use Rattle.kc_base.specs.declared.types.Kind.TheVariants.{NoRegister as NotThere};
ghost use Rattle.kc_isa.specs.Formed.{is_formed};
ghost use Rattle.kc_exec_spec.specs.Window.{is_wsr};
ghost use Rattle.kc_alu.specs.Shifts.{normal_shifts};
ghost use Rattle.kc_exec_spec.specs.Places.{word_seen, long_seen, or_register, is_outside_at, operand_outside, is_push, is_pop, is_pop_target, stack_outside, count_seen, normal_seen, shifts_seen, jump_taken, planned_place, place_of};

use crate::jumping::is_met;
use crate::plan::make_plan;
use kc_alu::{Flags, normalize};
use kc_base::{Kind, REGISTER_FILE_END};
use kc_bus::{Bus, window};
use kc_exec_spec::{Computation, Cpu, Movement, Plan, Route, Saving};
use kc_isa::{Insn, Operand, Place, mnemonic_of};

#[inline(always)]
fn glance_word<B: Bus>(bus: &B, addr: u16) -> u16
    requires low { 24 ≤ addr }
    requires high { addr < 1024 }
    ensures { result ≡ word_seen (B.byte (B.held bus.now)) addr }
{
    u16::from(bus.glance(addr)) + 256 * u16::from(bus.glance(addr + 1))
}

fn glance_long<B: Bus>(bus: &B, addr: u16) -> u32
    requires low { 24 ≤ addr }
    requires high { addr < 512 }
    ensures { result ≡ long_seen (B.byte (B.held bus.now)) addr }
{
    u32::from(glance_word(bus, addr)) + 0x1_0000 * u32::from(glance_word(bus, addr + 2))
}

/// The stack pointer.
#[inline(always)]
pub fn stack_pointer<B: Bus>(bus: &B) -> u16
    ensures { result ≡ word_seen (B.byte (B.held bus.now)) 24 }
{
    glance_word(bus, 0x18)
}

// The word in a pointer or base register.
#[inline(always)]
fn pointer_at<B: Bus>(bus: &B, addr: u16) -> Result<u16, Kind>
    requires { addr < 512 }
    ensures value { result ≡ or_register addr (word_seen (B.byte (B.held bus.now)) addr) }
    ensures only { IfErr result (λ k. k ≡ NotThere) }
{
    match addr {
        0 | 1 => Ok(0),
        2..0x18 => Err(Kind::NoRegister),
        _ => Ok(glance_word(bus, addr)),
    }
}

// The byte in a count register.
fn count_at<B: Bus>(bus: &B, addr: u16) -> Result<u8, Kind>
    requires { addr < 512 }
    ensures value { result ≡ or_register addr (B.byte (B.held bus.now) addr) }
    ensures only { IfErr result (λ k. k ≡ NotThere) }
{
    match addr {
        0 | 1 => Ok(0),
        2..0x18 => Err(Kind::NoRegister),
        _ => Ok(bus.glance(addr)),
    }
}

#[inline(always)]
#[tactic(auto, unfolding(kc_exec_spec::specs::Places::is_outside_at))]
fn is_pointed_outside<B: Bus>(
    bus: &B,
    pops: bool,
    wsr: u8,
    register: u8,
    offset: u16,
) -> Result<bool, Kind>
    requires { IsTrue (is_wsr wsr) }
    ensures value { result ≡ is_outside_at pops wsr (B.byte (B.held bus.now)) register offset }
    ensures only { IfErr result (λ k. k ≡ NotThere) }
{
    let addr = window(wsr, register)?;
    let pointer = pointer_at(bus, addr)?;
    let popped = if pops && addr == 0x18 { 2 } else { 0 };
    Ok(pointer.wrapping_add(offset).wrapping_add(popped) >= REGISTER_FILE_END)
}

/// Whether the address of S is outside the register file; POP counts with SP as it will be.
#[inline(always)]
#[tactic(auto, unfolding(kc_exec_spec::specs::Places::operand_outside))]
pub fn is_operand_outside<B: Bus>(
    bus: &B,
    pops: bool,
    wsr: u8,
    operand: Operand,
) -> Result<bool, Kind>
    requires { IsTrue (is_wsr wsr) }
    ensures value { result ≡ operand_outside pops wsr (B.byte (B.held bus.now)) operand }
    ensures only { IfErr result (λ k. k ≡ NotThere) }
{
    match operand {
        Operand::Indirect(r) | Operand::Increment(r) => is_pointed_outside(bus, pops, wsr, r, 0),
        Operand::Short { base, offset } => {
            is_pointed_outside(bus, pops, wsr, base, i16::from(offset).cast_unsigned())
        }
        Operand::Long { base, offset } => is_pointed_outside(bus, pops, wsr, base, offset),
        Operand::Absent
        | Operand::Reg(_)
        | Operand::Imm(_)
        | Operand::Count(_)
        | Operand::Disp(_) => Ok(false),
    }
}

/// Whether the plan puts bytes on the stack.
pub fn is_pushing(plan: Plan) -> bool
    ensures { result ≡ is_push plan }
{
    matches!(
        plan,
        Plan::Move(Movement::Push)
            | Plan::Jump(Route::Call)
            | Plan::Save(Saving::PushStatus | Saving::PushAll)
            | Plan::Trap
    )
}

/// Whether the plan takes bytes from the stack.
pub fn is_popping(plan: Plan) -> bool
    ensures { result ≡ is_pop plan }
{
    matches!(
        plan,
        Plan::Move(Movement::Pop)
            | Plan::Jump(Route::Return)
            | Plan::Save(Saving::PopStatus | Saving::PopAll)
    )
}

fn is_stack_outside(plan: Plan, sp: u16) -> bool
    ensures { result ≡ stack_outside plan sp }
{
    (is_pushing(plan) && sp.wrapping_sub(2) >= REGISTER_FILE_END)
        || (is_popping(plan) && sp >= REGISTER_FILE_END)
}

#[tactic(auto, unfolding(kc_exec_spec::specs::Places::count_seen))]
fn shift_count<B: Bus>(bus: &B, wsr: u8, operand: Operand) -> Result<u8, Kind>
    requires { IsTrue (is_wsr wsr) }
    ensures value { result ≡ count_seen wsr (B.byte (B.held bus.now)) operand }
    ensures only { IfErr result (λ k. k ≡ NotThere) }
    ensures bound { IfOk result (λ n. n ≤ 31) }
{
    match operand {
        Operand::Count(n) if n < 0x10 => Ok(n),
        Operand::Count(n) => {
            let addr = window(wsr, n)?;
            let count = count_at(bus, addr)?;
            Ok(count % 32)
        }
        _ => Ok(0),
    }
}

fn shifts_of(n: u32) -> u8
    ensures value { result ≡ normal_shifts n }
    ensures bound { result ≤ 31 }
{
    let none = Flags {
        z: false,
        n: false,
        v: false,
        vt: false,
        c: false,
        st: false,
    };
    normalize(n, none).1
}

#[tactic(auto, unfolding(kc_exec_spec::specs::Places::normal_seen))]
fn normal_count<B: Bus>(bus: &B, wsr: u8, register: u8) -> Result<u8, Kind>
    requires { IsTrue (is_wsr wsr) }
    ensures value { result ≡ normal_seen wsr (B.byte (B.held bus.now)) register }
    ensures only { IfErr result (λ k. k ≡ NotThere) }
    ensures bound { IfOk result (λ n. n ≤ 31) }
{
    let addr = window(wsr, register)?;
    if addr < 0x18 {
        Err(Kind::NoRegister)
    } else if addr % 4 == 0 {
        Ok(shifts_of(glance_long(bus, addr)))
    } else {
        Ok(0)
    }
}

fn shifts_to_make<B: Bus>(bus: &B, plan: Plan, insn: &Insn, wsr: u8) -> Result<u8, Kind>
    requires { IsTrue (is_wsr wsr) }
    ensures value { result ≡ shifts_seen plan insn.now wsr (B.byte (B.held bus.now)) }
    ensures only { IfErr result (λ k. k ≡ NotThere) }
    ensures bound { IfOk result (λ n. n ≤ 31) }
{
    match plan {
        Plan::Compute(Computation::Normalize) => normal_count(bus, wsr, insn.regs[1]),
        _ => shift_count(bus, wsr, insn.operand),
    }
}

fn will_jump(plan: Plan, psw: u8) -> bool
    ensures { result ≡ jump_taken plan psw }
{
    match plan {
        Plan::Jump(Route::When(test, wanted)) => is_met(test, wanted, psw),
        _ => false,
    }
}

fn is_pop_instruction(plan: Plan) -> bool
    ensures { result ≡ is_pop_target plan }
{
    matches!(plan, Plan::Move(Movement::Pop))
}

#[tactic(auto, unfolding(kc_exec_spec::specs::Places::planned_place))]
fn place_by<B: Bus>(bus: &B, plan: Plan, insn: &Insn, psw: u8, wsr: u8) -> Result<Place, Kind>
    requires { IsTrue (is_wsr wsr) }
    ensures value { result ≡ planned_place plan insn.now psw wsr (B.byte (B.held bus.now)) }
    ensures only { IfErr result (λ k. k ≡ NotThere) }
    ensures shifts { IfOk result (λ p. p.shifts ≤ 31) }
{
    let operand_memory = is_operand_outside(bus, is_pop_instruction(plan), wsr, insn.operand)?;
    let shifts = shifts_to_make(bus, plan, insn, wsr)?;
    Ok(Place {
        operand_memory,
        stack_memory: is_stack_outside(plan, stack_pointer(bus)),
        shifts,
        taken: will_jump(plan, psw),
    })
}

/// What the count of the states of the instruction at `cpu.pc` depends on: whether S and the stack are outside the
/// register file, how many shifts will be made, and whether a jump is taken. It has no effect. Refused as `NoRegister`
/// where a pointer, base or count register that is needed stands at 0002H to 0017H, or NORML's long register below
/// 0018H, each in the window that stands.
#[tactic(auto, unfolding(kc_exec_spec::specs::Places::place_of))]
pub fn place<B: Bus>(insn: &Insn, cpu: &Cpu, bus: &B) -> Result<Place, Kind>
    requires { IsTrue (is_formed insn.now) }
    ensures value { result ≡ place_of insn.now cpu.now (B.meaning.masks (B.held bus.now)) (B.byte (B.held bus.now)) }
    ensures only { IfErr result (λ k. k ≡ NotThere) }
    ensures shifts { IfOk result (λ p. p.shifts ≤ 31) }
{
    let Some(mnemonic) = mnemonic_of(insn.opcode, insn.signed) else {
        return Ok(Place {
            operand_memory: false,
            stack_memory: false,
            shifts: 0,
            taken: false,
        });
    };
    let wsr = bus.masks().wsr;
    place_by(bus, make_plan(mnemonic), insn, cpu.psw_high, wsr)
}
