ghost use Rattle.std.specs.Prelude.{◌≡◌, ◌<◌, IsTrue, IfOk};
ghost use Rattle.kc_exec_spec.specs.Effect.{Gives, run};
ghost use Rattle.kc_isa.specs.Formed.{is_formed};
ghost use Rattle.kc_exec_spec.specs.Settings.{idle_after};
ghost use Rattle.kc_exec_spec.specs.BlockMoves.{IsOfMove, IsOfPlan};
ghost use Rattle.kc_exec_spec.specs.Effects.{planned, effect_of, Performs};
ghost use Rattle.kc_bus.specs.Counting.{KeepsCount};

use crate::blocks::{cpu_behind, follow_words, start_words};
use crate::computing::do_compute;
use crate::enters::trap_at;
use crate::jumping::{do_jump, following, psw_behind};
use crate::moving::do_move;
use crate::plan::make_plan;
use crate::saving::do_save;
use kc_base::Kind;
use kc_bus::Bus;
use kc_exec_operands::{follow, set_bit};
use kc_exec_spec::{After, Cpu, Plan};
use kc_isa::{Insn, Operand, mnemonic_of};

fn idle(key: Operand) -> Result<After, Kind>
    ensures { result ≡ idle_after key }
{
    match key {
        Operand::Imm(1) => Ok(After::Idle),
        Operand::Imm(2) => Ok(After::Powerdown),
        _ => Err(Kind::IdleKey),
    }
}

#[tactic(auto, using(kc_exec_spec::proofs::Running::run_bind), unfolding(kc_exec_spec::specs::Effects::planned))]
fn work<B: Bus>(
    plan: Plan,
    insn: &Insn,
    wsr: u8,
    cpu: Cpu,
    bus: &mut B,
) -> Result<(After, Cpu), Kind>
    requires { IsTrue (is_formed insn.now) }
    ensures gives { Gives (λ x. x) result (B.held bus.new) (run B.meaning (planned plan insn.now wsr cpu) (B.held bus.old)) }
    ensures count { KeepsCount B.spent B.held B.allowed B.lent bus.old bus.new }
    ensures words { IfOk result (λ r. IsOfPlan plan r.0) }
{
    let next = following(insn, cpu.pc);
    let psw = cpu.psw_high;
    let (after, pc, psw_high) = match plan {
        Plan::Compute(how) => (After::Next, next, do_compute(bus, how, wsr, insn, psw)?),
        Plan::Move(how) => {
            do_move(bus, how, wsr, insn)?;
            (After::Next, next, psw)
        }
        Plan::Jump(route) => {
            let pc = do_jump(bus, route, wsr, insn, cpu)?;
            (After::Next, pc, psw_behind(route, psw))
        }
        Plan::Save(how) => (After::Held, next, do_save(bus, how, psw)?),
        Plan::Set(bit) => (follow(bit), next, set_bit(bit, psw)),
        Plan::BlockMove(interruptible) => {
            let words = start_words(bus, interruptible, wsr, insn)?;
            return Ok((follow_words(words), cpu_behind(insn, words, cpu)));
        }
        Plan::Trap => (After::Held, trap_at(bus, 0x2010, next)?, psw),
        Plan::Idle => (idle(insn.operand)?, next, psw),
        Plan::Reset => (After::Reset, next, psw),
    };
    Ok((after, Cpu { pc, psw_high }))
}

/// Performs the instruction at `cpu.pc`. After a refusal the bus is as after the accesses before the
/// refused one, and the registers are as before.
#[tactic(auto, using(kc_exec_spec::proofs::Running::run_bind), unfolding(kc_exec_spec::specs::Effects::effect_of))]
pub fn perform<B: Bus>(insn: &Insn, cpu: &mut Cpu, bus: &mut B) -> Result<After, Kind>
    requires { IsTrue (is_formed insn.now) }
    ensures effect { Performs result cpu.old cpu.new (B.held bus.new) (run B.meaning (effect_of insn.now cpu.old) (B.held bus.old)) }
    ensures words { IfOk result (λ after. IsOfMove insn.now after) }
    ensures count { KeepsCount B.spent B.held B.allowed B.lent bus.old bus.new }
{
    let Some(mnemonic) = mnemonic_of(insn.opcode, insn.signed) else {
        return Err(Kind::Opcode);
    };
    let wsr = bus.masks().wsr;
    let (after, next) = work(make_plan(mnemonic), insn, wsr, *cpu, bus)?;
    *cpu = next;
    Ok(after)
}
