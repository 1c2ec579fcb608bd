// What instructions do over a bus, with the address after them at hand: those that move a number.
ghost use Rattle.std.specs.Prelude.{◌≡◌};
ghost use Rattle.kc_exec_spec.specs.declared.plan.Plan.TheVariants.{Move as Moves};
ghost use Rattle.kc_exec_spec.specs.declared.plan.Movement.TheVariants as moves;
ghost use Rattle.kc_exec_spec.specs.Effect.{run};
ghost use Rattle.kc_exec_spec.specs.Effects.{planned};
ghost use Rattle.kc_exec_spec.specs.Jumping.{next_pc};
ghost use Rattle.kc_bus.specs.Counting.{KeepsCount};
ghost use Rattle.kc_exec_predecode.specs.Predecoding.{GoesOn};

use crate::here::Here;
use kc_base::Kind;
use kc_bus::Bus;
use kc_exec::{do_exchange, do_load, do_load_extended, do_pop, do_push, do_store};
use kc_exec_spec::Cpu;
use kc_isa::Insn;

#[inline(always)]
#[tactic(auto, using(kc_exec_spec::proofs::Running::run_bind), unfolding(kc_exec_spec::specs::Effects::planned, kc_exec_spec::specs::Moving::move_data))]
pub(crate) fn load<B: Bus>(
    bus: &mut B,
    byte: bool,
    insn: &Insn,
    here: Here,
    cpu: &mut Cpu,
) -> Result<bool, Kind>
    requires { here.next ≡ next_pc insn.now cpu.old.pc }
    ensures effect { GoesOn result cpu.old cpu.new (B.held bus.new) (run B.meaning (planned (Moves (moves.Load byte)) insn.now here.wsr cpu.old) (B.held bus.old)) }
    ensures count { KeepsCount B.spent B.held B.allowed B.lent bus.old bus.new }
{
    do_load(bus, byte, here.wsr, insn)?;
    cpu.pc = here.next;
    Ok(false)
}

#[inline(always)]
#[tactic(auto, using(kc_exec_spec::proofs::Running::run_bind), unfolding(kc_exec_spec::specs::Effects::planned, kc_exec_spec::specs::Moving::move_data))]
pub(crate) fn load_zeros<B: Bus>(
    bus: &mut B,
    insn: &Insn,
    here: Here,
    cpu: &mut Cpu,
) -> Result<bool, Kind>
    requires { here.next ≡ next_pc insn.now cpu.old.pc }
    ensures effect { GoesOn result cpu.old cpu.new (B.held bus.new) (run B.meaning (planned (Moves moves.ZeroExtend) insn.now here.wsr cpu.old) (B.held bus.old)) }
    ensures count { KeepsCount B.spent B.held B.allowed B.lent bus.old bus.new }
{
    do_load_extended(bus, false, here.wsr, insn)?;
    cpu.pc = here.next;
    Ok(false)
}

#[inline(always)]
#[tactic(auto, using(kc_exec_spec::proofs::Running::run_bind), unfolding(kc_exec_spec::specs::Effects::planned, kc_exec_spec::specs::Moving::move_data))]
pub(crate) fn load_sign<B: Bus>(
    bus: &mut B,
    insn: &Insn,
    here: Here,
    cpu: &mut Cpu,
) -> Result<bool, Kind>
    requires { here.next ≡ next_pc insn.now cpu.old.pc }
    ensures effect { GoesOn result cpu.old cpu.new (B.held bus.new) (run B.meaning (planned (Moves moves.SignExtend) insn.now here.wsr cpu.old) (B.held bus.old)) }
    ensures count { KeepsCount B.spent B.held B.allowed B.lent bus.old bus.new }
{
    do_load_extended(bus, true, here.wsr, insn)?;
    cpu.pc = here.next;
    Ok(false)
}

#[inline(always)]
#[tactic(auto, using(kc_exec_spec::proofs::Running::run_bind), unfolding(kc_exec_spec::specs::Effects::planned, kc_exec_spec::specs::Moving::move_data))]
pub(crate) fn store<B: Bus>(
    bus: &mut B,
    byte: bool,
    insn: &Insn,
    here: Here,
    cpu: &mut Cpu,
) -> Result<bool, Kind>
    requires { here.next ≡ next_pc insn.now cpu.old.pc }
    ensures effect { GoesOn result cpu.old cpu.new (B.held bus.new) (run B.meaning (planned (Moves (moves.Store byte)) insn.now here.wsr cpu.old) (B.held bus.old)) }
    ensures count { KeepsCount B.spent B.held B.allowed B.lent bus.old bus.new }
{
    do_store(bus, byte, here.wsr, insn)?;
    cpu.pc = here.next;
    Ok(false)
}

#[inline(always)]
#[tactic(auto, using(kc_exec_spec::proofs::Running::run_bind), unfolding(kc_exec_spec::specs::Effects::planned, kc_exec_spec::specs::Moving::move_data))]
pub(crate) fn exchange<B: Bus>(
    bus: &mut B,
    byte: bool,
    insn: &Insn,
    here: Here,
    cpu: &mut Cpu,
) -> Result<bool, Kind>
    requires { here.next ≡ next_pc insn.now cpu.old.pc }
    ensures effect { GoesOn result cpu.old cpu.new (B.held bus.new) (run B.meaning (planned (Moves (moves.Exchange byte)) insn.now here.wsr cpu.old) (B.held bus.old)) }
    ensures count { KeepsCount B.spent B.held B.allowed B.lent bus.old bus.new }
{
    do_exchange(bus, byte, here.wsr, insn)?;
    cpu.pc = here.next;
    Ok(false)
}

#[inline(always)]
#[tactic(auto, using(kc_exec_spec::proofs::Running::run_bind), unfolding(kc_exec_spec::specs::Effects::planned, kc_exec_spec::specs::Moving::move_data))]
pub(crate) fn push<B: Bus>(
    bus: &mut B,
    insn: &Insn,
    here: Here,
    cpu: &mut Cpu,
) -> Result<bool, Kind>
    requires { here.next ≡ next_pc insn.now cpu.old.pc }
    ensures effect { GoesOn result cpu.old cpu.new (B.held bus.new) (run B.meaning (planned (Moves moves.Push) insn.now here.wsr cpu.old) (B.held bus.old)) }
    ensures count { KeepsCount B.spent B.held B.allowed B.lent bus.old bus.new }
{
    do_push(bus, here.wsr, insn)?;
    cpu.pc = here.next;
    Ok(false)
}

#[inline(always)]
#[tactic(auto, using(kc_exec_spec::proofs::Running::run_bind), unfolding(kc_exec_spec::specs::Effects::planned, kc_exec_spec::specs::Moving::move_data))]
pub(crate) fn pop<B: Bus>(bus: &mut B, insn: &Insn, here: Here, cpu: &mut Cpu) -> Result<bool, Kind>
    requires { here.next ≡ next_pc insn.now cpu.old.pc }
    ensures effect { GoesOn result cpu.old cpu.new (B.held bus.new) (run B.meaning (planned (Moves moves.Pop) insn.now here.wsr cpu.old) (B.held bus.old)) }
    ensures count { KeepsCount B.spent B.held B.allowed B.lent bus.old bus.new }
{
    do_pop(bus, here.wsr, insn)?;
    cpu.pc = here.next;
    Ok(false)
}
