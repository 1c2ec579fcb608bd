// What instructions do over a bus, with the address after them at hand: those that lead elsewhere.
ghost use Rattle.std.specs.Prelude.{◌≡◌, ◌%◌};
ghost use Rattle.kc_exec_spec.specs.declared.plan.Plan.TheVariants.{Jump as Goes};
ghost use Rattle.kc_exec_spec.specs.declared.plan.Route.TheVariants as goes;
ghost use Rattle.kc_exec_spec.specs.Effect.{run};
ghost use Rattle.kc_exec_spec.specs.Effects.{planned};
ghost use Rattle.kc_exec_spec.specs.Jumping.{next_pc, branch_pc};
ghost use Rattle.kc_bus.specs.Counting.{KeepsCount};
ghost use Rattle.kc_exec_predecode.specs.Predecoding.{GoesOn};

use crate::here::Here;
use kc_base::Kind;
use kc_bus::Bus;
use kc_exec::{distance_of, is_bit_jump, is_counted, is_met, psw_behind, read_table};
use kc_exec_operands::{pop_word, push_word, read_register};
use kc_exec_spec::{Cpu, Route, Test};
use kc_isa::Insn;

#[inline(always)]
fn branched(here: Here, taken: bool, insn: &Insn, cpu: &Cpu) -> u16
    requires { here.next ≡ next_pc insn.now cpu.now.pc }
    ensures { result ≡ branch_pc taken insn.now cpu.now.pc }
{
    if taken {
        here.next.wrapping_add(distance_of(insn.operand))
    } else {
        here.next
    }
}

#[inline(always)]
#[tactic(auto, using(kc_exec_spec::proofs::Running::run_bind), unfolding(kc_exec_spec::specs::Effects::planned, kc_exec_spec::specs::Jumping::goes))]
pub(crate) fn go<B: Bus>(bus: &mut B, insn: &Insn, here: Here, cpu: &mut Cpu) -> Result<bool, Kind>
    requires { here.next ≡ next_pc insn.now cpu.old.pc }
    ensures effect { GoesOn result cpu.old cpu.new (B.held bus.new) (run B.meaning (planned (Goes goes.Always) insn.now here.wsr cpu.old) (B.held bus.old)) }
    ensures count { KeepsCount B.spent B.held B.allowed B.lent bus.old bus.new }
{
    cpu.pc = branched(here, true, insn, cpu);
    Ok(false)
}

#[inline(always)]
#[tactic(auto, using(kc_exec_spec::proofs::Running::run_bind), unfolding(kc_exec_spec::specs::Effects::planned, kc_exec_spec::specs::Jumping::goes))]
pub(crate) fn call<B: Bus>(
    bus: &mut B,
    insn: &Insn,
    here: Here,
    cpu: &mut Cpu,
) -> Result<bool, Kind>
    requires { here.next ≡ next_pc insn.now cpu.old.pc }
    ensures effect { GoesOn result cpu.old cpu.new (B.held bus.new) (run B.meaning (planned (Goes goes.Call) insn.now here.wsr cpu.old) (B.held bus.old)) }
    ensures count { KeepsCount B.spent B.held B.allowed B.lent bus.old bus.new }
{
    push_word(bus, here.next)?;
    cpu.pc = branched(here, true, insn, cpu);
    Ok(false)
}

#[inline(always)]
#[tactic(auto, using(kc_exec_spec::proofs::Running::run_bind), unfolding(kc_exec_spec::specs::Effects::planned, kc_exec_spec::specs::Jumping::goes))]
pub(crate) fn come_back<B: Bus>(
    bus: &mut B,
    insn: &Insn,
    here: Here,
    cpu: &mut Cpu,
) -> Result<bool, Kind>
    requires { here.next ≡ next_pc insn.now cpu.old.pc }
    ensures effect { GoesOn result cpu.old cpu.new (B.held bus.new) (run B.meaning (planned (Goes goes.Return) insn.now here.wsr cpu.old) (B.held bus.old)) }
    ensures count { KeepsCount B.spent B.held B.allowed B.lent bus.old bus.new }
{
    let pc = pop_word(bus)?;
    cpu.pc = pc;
    Ok(false)
}

#[inline(always)]
#[tactic(auto, using(kc_exec_spec::proofs::Running::run_bind), unfolding(kc_exec_spec::specs::Effects::planned, kc_exec_spec::specs::Jumping::goes))]
pub(crate) fn go_where<B: Bus>(
    bus: &mut B,
    test: Test,
    wanted: bool,
    insn: &Insn,
    here: Here,
    cpu: &mut Cpu,
) -> Result<bool, Kind>
    requires { here.next ≡ next_pc insn.now cpu.old.pc }
    ensures effect { GoesOn result cpu.old cpu.new (B.held bus.new) (run B.meaning (planned (Goes (goes.When test wanted)) insn.now here.wsr cpu.old) (B.held bus.old)) }
    ensures count { KeepsCount B.spent B.held B.allowed B.lent bus.old bus.new }
{
    let taken = is_met(test, wanted, cpu.psw_high);
    cpu.pc = branched(here, taken, insn, cpu);
    cpu.psw_high = psw_behind(Route::When(test, wanted), cpu.psw_high);
    Ok(false)
}

#[inline(always)]
#[tactic(auto, using(kc_exec_spec::proofs::Running::run_bind), unfolding(kc_exec_spec::specs::Effects::planned, kc_exec_spec::specs::Jumping::goes))]
pub(crate) fn go_on_bit<B: Bus>(
    bus: &mut B,
    set: bool,
    insn: &Insn,
    here: Here,
    cpu: &mut Cpu,
) -> Result<bool, Kind>
    requires { here.next ≡ next_pc insn.now cpu.old.pc }
    ensures effect { GoesOn result cpu.old cpu.new (B.held bus.new) (run B.meaning (planned (Goes (goes.Bit set)) insn.now here.wsr cpu.old) (B.held bus.old)) }
    ensures count { KeepsCount B.spent B.held B.allowed B.lent bus.old bus.new }
{
    let taken = is_bit_jump(bus, set, insn.opcode % 8, here.wsr, insn.regs[0])?;
    cpu.pc = branched(here, taken, insn, cpu);
    Ok(false)
}

#[inline(always)]
#[tactic(auto, using(kc_exec_spec::proofs::Running::run_bind), unfolding(kc_exec_spec::specs::Effects::planned, kc_exec_spec::specs::Jumping::goes))]
pub(crate) fn count_down<B: Bus>(
    bus: &mut B,
    byte: bool,
    insn: &Insn,
    here: Here,
    cpu: &mut Cpu,
) -> Result<bool, Kind>
    requires { here.next ≡ next_pc insn.now cpu.old.pc }
    ensures effect { GoesOn result cpu.old cpu.new (B.held bus.new) (run B.meaning (planned (Goes (goes.CountDown byte)) insn.now here.wsr cpu.old) (B.held bus.old)) }
    ensures count { KeepsCount B.spent B.held B.allowed B.lent bus.old bus.new }
{
    let taken = is_counted(bus, byte, here.wsr, insn.regs[0])?;
    cpu.pc = branched(here, taken, insn, cpu);
    Ok(false)
}

#[inline(always)]
#[tactic(auto, using(kc_exec_spec::proofs::Running::run_bind), unfolding(kc_exec_spec::specs::Effects::planned, kc_exec_spec::specs::Jumping::goes))]
pub(crate) fn go_by_table<B: Bus>(
    bus: &mut B,
    insn: &Insn,
    here: Here,
    cpu: &mut Cpu,
) -> Result<bool, Kind>
    requires { here.next ≡ next_pc insn.now cpu.old.pc }
    ensures effect { GoesOn result cpu.old cpu.new (B.held bus.new) (run B.meaning (planned (Goes goes.Table) insn.now here.wsr cpu.old) (B.held bus.old)) }
    ensures count { KeepsCount B.spent B.held B.allowed B.lent bus.old bus.new }
{
    let pc = read_table(bus, here.wsr, insn)?;
    cpu.pc = pc;
    Ok(false)
}

#[inline(always)]
#[tactic(auto, using(kc_exec_spec::proofs::Running::run_bind), unfolding(kc_exec_spec::specs::Effects::planned, kc_exec_spec::specs::Jumping::goes))]
pub(crate) fn go_by_register<B: Bus>(
    bus: &mut B,
    insn: &Insn,
    here: Here,
    cpu: &mut Cpu,
) -> Result<bool, Kind>
    requires { here.next ≡ next_pc insn.now cpu.old.pc }
    ensures effect { GoesOn result cpu.old cpu.new (B.held bus.new) (run B.meaning (planned (Goes goes.Register) insn.now here.wsr cpu.old) (B.held bus.old)) }
    ensures count { KeepsCount B.spent B.held B.allowed B.lent bus.old bus.new }
{
    let pc = read_register(bus, false, here.wsr, insn.regs[0])?;
    cpu.pc = pc;
    Ok(false)
}
