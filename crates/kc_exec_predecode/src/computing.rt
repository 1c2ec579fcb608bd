// What instructions do over a bus, with the address after them at hand: those that compute.
ghost use Rattle.std.specs.Prelude.{◌≡◌};
ghost use Rattle.kc_exec_spec.specs.declared.plan.Plan.TheVariants.{Compute as Computes};
ghost use Rattle.kc_exec_spec.specs.declared.plan.Computation.TheVariants as computes;
ghost use Rattle.kc_exec_spec.specs.Effect.{run};
ghost use Rattle.kc_exec_spec.specs.Effects.{planned};
ghost use Rattle.kc_exec_spec.specs.Jumping.{next_pc};
ghost use Rattle.kc_bus.specs.Counting.{KeepsCount};
ghost use Rattle.kc_exec_predecode.specs.Predecoding.{GoesOn};

use crate::here::Here;
use kc_alu::Shift;
use kc_base::Kind;
use kc_bus::Bus;
use kc_exec::{
    do_alter, do_compare_long, do_divide, do_extend, do_multiply, do_normalize, do_operate,
    do_shift,
};
use kc_exec_spec::{Alteration, Cpu, Operation, Size};
use kc_isa::Insn;

#[inline(always)]
#[tactic(auto, using(kc_exec_spec::proofs::Running::run_bind), unfolding(kc_exec_spec::specs::Effects::planned, kc_exec_spec::specs::Computing::compute))]
pub(crate) fn operate<B: Bus>(
    bus: &mut B,
    op: Operation,
    byte: bool,
    insn: &Insn,
    here: Here,
    cpu: &mut Cpu,
) -> Result<bool, Kind>
    requires { here.next ≡ next_pc insn.now cpu.old.pc }
    ensures effect { GoesOn result cpu.old cpu.new (B.held bus.new) (run B.meaning (planned (Computes (computes.Operate op byte)) insn.now here.wsr cpu.old) (B.held bus.old)) }
    ensures count { KeepsCount B.spent B.held B.allowed B.lent bus.old bus.new }
{
    cpu.psw_high = do_operate(bus, op, byte, here.wsr, insn, cpu.psw_high)?;
    cpu.pc = here.next;
    Ok(false)
}

#[inline(always)]
#[tactic(auto, using(kc_exec_spec::proofs::Running::run_bind), unfolding(kc_exec_spec::specs::Effects::planned, kc_exec_spec::specs::Computing::compute))]
pub(crate) fn alter<B: Bus>(
    bus: &mut B,
    how: Alteration,
    byte: bool,
    insn: &Insn,
    here: Here,
    cpu: &mut Cpu,
) -> Result<bool, Kind>
    requires { here.next ≡ next_pc insn.now cpu.old.pc }
    ensures effect { GoesOn result cpu.old cpu.new (B.held bus.new) (run B.meaning (planned (Computes (computes.Alter how byte)) insn.now here.wsr cpu.old) (B.held bus.old)) }
    ensures count { KeepsCount B.spent B.held B.allowed B.lent bus.old bus.new }
{
    cpu.psw_high = do_alter(bus, how, byte, here.wsr, insn.regs[0], cpu.psw_high)?;
    cpu.pc = here.next;
    Ok(false)
}

#[inline(always)]
#[tactic(auto, using(kc_exec_spec::proofs::Running::run_bind), unfolding(kc_exec_spec::specs::Effects::planned, kc_exec_spec::specs::Computing::compute))]
pub(crate) fn extend<B: Bus>(
    bus: &mut B,
    byte: bool,
    insn: &Insn,
    here: Here,
    cpu: &mut Cpu,
) -> Result<bool, Kind>
    requires { here.next ≡ next_pc insn.now cpu.old.pc }
    ensures effect { GoesOn result cpu.old cpu.new (B.held bus.new) (run B.meaning (planned (Computes (computes.Extend byte)) insn.now here.wsr cpu.old) (B.held bus.old)) }
    ensures count { KeepsCount B.spent B.held B.allowed B.lent bus.old bus.new }
{
    cpu.psw_high = do_extend(bus, byte, here.wsr, insn.regs[0], cpu.psw_high)?;
    cpu.pc = here.next;
    Ok(false)
}

#[inline(always)]
#[tactic(auto, using(kc_exec_spec::proofs::Running::run_bind), unfolding(kc_exec_spec::specs::Effects::planned, kc_exec_spec::specs::Computing::compute))]
pub(crate) fn shift<B: Bus>(
    bus: &mut B,
    how: Shift,
    size: Size,
    insn: &Insn,
    here: Here,
    cpu: &mut Cpu,
) -> Result<bool, Kind>
    requires { here.next ≡ next_pc insn.now cpu.old.pc }
    ensures effect { GoesOn result cpu.old cpu.new (B.held bus.new) (run B.meaning (planned (Computes (computes.Shift how size)) insn.now here.wsr cpu.old) (B.held bus.old)) }
    ensures count { KeepsCount B.spent B.held B.allowed B.lent bus.old bus.new }
{
    cpu.psw_high = do_shift(bus, how, size, here.wsr, insn, cpu.psw_high)?;
    cpu.pc = here.next;
    Ok(false)
}

#[inline(always)]
#[tactic(auto, using(kc_exec_spec::proofs::Running::run_bind), unfolding(kc_exec_spec::specs::Effects::planned, kc_exec_spec::specs::Computing::compute))]
pub(crate) fn normalize<B: Bus>(
    bus: &mut B,
    insn: &Insn,
    here: Here,
    cpu: &mut Cpu,
) -> Result<bool, Kind>
    requires { here.next ≡ next_pc insn.now cpu.old.pc }
    ensures effect { GoesOn result cpu.old cpu.new (B.held bus.new) (run B.meaning (planned (Computes computes.Normalize) insn.now here.wsr cpu.old) (B.held bus.old)) }
    ensures count { KeepsCount B.spent B.held B.allowed B.lent bus.old bus.new }
{
    cpu.psw_high = do_normalize(bus, here.wsr, insn, cpu.psw_high)?;
    cpu.pc = here.next;
    Ok(false)
}

#[inline(always)]
#[tactic(auto, using(kc_exec_spec::proofs::Running::run_bind), unfolding(kc_exec_spec::specs::Effects::planned, kc_exec_spec::specs::Computing::compute))]
pub(crate) fn multiply<B: Bus>(
    bus: &mut B,
    with_sign: bool,
    byte: bool,
    insn: &Insn,
    here: Here,
    cpu: &mut Cpu,
) -> Result<bool, Kind>
    requires { here.next ≡ next_pc insn.now cpu.old.pc }
    ensures effect { GoesOn result cpu.old cpu.new (B.held bus.new) (run B.meaning (planned (Computes (computes.Multiply with_sign byte)) insn.now here.wsr cpu.old) (B.held bus.old)) }
    ensures count { KeepsCount B.spent B.held B.allowed B.lent bus.old bus.new }
{
    do_multiply(bus, with_sign, byte, here.wsr, insn)?;
    cpu.pc = here.next;
    Ok(false)
}

#[inline(always)]
#[tactic(auto, using(kc_exec_spec::proofs::Running::run_bind), unfolding(kc_exec_spec::specs::Effects::planned, kc_exec_spec::specs::Computing::compute))]
pub(crate) fn divide<B: Bus>(
    bus: &mut B,
    with_sign: bool,
    byte: bool,
    insn: &Insn,
    here: Here,
    cpu: &mut Cpu,
) -> Result<bool, Kind>
    requires { here.next ≡ next_pc insn.now cpu.old.pc }
    ensures effect { GoesOn result cpu.old cpu.new (B.held bus.new) (run B.meaning (planned (Computes (computes.Divide with_sign byte)) insn.now here.wsr cpu.old) (B.held bus.old)) }
    ensures count { KeepsCount B.spent B.held B.allowed B.lent bus.old bus.new }
{
    cpu.psw_high = do_divide(bus, with_sign, byte, here.wsr, insn, cpu.psw_high)?;
    cpu.pc = here.next;
    Ok(false)
}

#[inline(always)]
#[tactic(auto, using(kc_exec_spec::proofs::Running::run_bind), unfolding(kc_exec_spec::specs::Effects::planned, kc_exec_spec::specs::Computing::compute))]
pub(crate) fn compare_long<B: Bus>(
    bus: &mut B,
    insn: &Insn,
    here: Here,
    cpu: &mut Cpu,
) -> Result<bool, Kind>
    requires { here.next ≡ next_pc insn.now cpu.old.pc }
    ensures effect { GoesOn result cpu.old cpu.new (B.held bus.new) (run B.meaning (planned (Computes computes.CompareLong) insn.now here.wsr cpu.old) (B.held bus.old)) }
    ensures count { KeepsCount B.spent B.held B.allowed B.lent bus.old bus.new }
{
    cpu.psw_high = do_compare_long(bus, here.wsr, insn, cpu.psw_high)?;
    cpu.pc = here.next;
    Ok(false)
}
