ghost use Rattle.std.specs.Prelude.{◌≡◌, ◌<◌};
ghost use Rattle.kc_exec_spec.specs.Effect.{Gives, run};
ghost use Rattle.kc_exec_spec.specs.Moving.{load, sign_extended, load_extended, store, exchange, push_source, pop_target, move_data};
ghost use Rattle.kc_bus.specs.Counting.{KeepsCount};

use kc_base::Kind;
use kc_bus::Bus;
use kc_exec_operands::{
    find_target, pop_word, push_word, read_at, read_register, read_source, write_at, write_register,
};
use kc_exec_spec::Movement;
use kc_isa::Insn;

/// Reads S into D.
#[inline(always)]
#[tactic(auto, using(kc_exec_spec::proofs::Running::run_bind), unfolding(kc_exec_spec::specs::Moving::load))]
pub fn do_load<B: Bus>(bus: &mut B, byte: bool, wsr: u8, insn: &Insn) -> Result<(), Kind>
    ensures gives { Gives (λ x. x) result (B.held bus.new) (run B.meaning (load byte wsr insn.now) (B.held bus.old)) }
    ensures count { KeepsCount B.spent B.held B.allowed B.lent bus.old bus.new }
{
    let s = read_source(bus, byte, wsr, insn.operand)?;
    write_register(bus, byte, wsr, insn.regs[0], s)
}

fn extend_sign(n: u16) -> u16
    requires { n < 256 }
    ensures { result ≡ sign_extended n }
{
    if n < 0x80 { n } else { n + 0xFF00 }
}

/// Reads the byte S into the word D.
#[inline(always)]
#[tactic(auto, using(kc_exec_spec::proofs::Running::run_bind), unfolding(kc_exec_spec::specs::Moving::load_extended))]
pub fn do_load_extended<B: Bus>(
    bus: &mut B,
    with_sign: bool,
    wsr: u8,
    insn: &Insn,
) -> Result<(), Kind>
    ensures gives { Gives (λ x. x) result (B.held bus.new) (run B.meaning (load_extended with_sign wsr insn.now) (B.held bus.old)) }
    ensures count { KeepsCount B.spent B.held B.allowed B.lent bus.old bus.new }
{
    let s = read_source(bus, true, wsr, insn.operand)?;
    let value = if with_sign { extend_sign(s) } else { s };
    write_register(bus, false, wsr, insn.regs[0], value)
}

/// Writes a register to the place of S.
#[inline(always)]
#[tactic(auto, using(kc_exec_spec::proofs::Running::run_bind), unfolding(kc_exec_spec::specs::Moving::store))]
pub fn do_store<B: Bus>(bus: &mut B, byte: bool, wsr: u8, insn: &Insn) -> Result<(), Kind>
    ensures gives { Gives (λ x. x) result (B.held bus.new) (run B.meaning (store byte wsr insn.now) (B.held bus.old)) }
    ensures count { KeepsCount B.spent B.held B.allowed B.lent bus.old bus.new }
{
    let n = read_register(bus, byte, wsr, insn.regs[0])?;
    let addr = find_target(bus, byte, wsr, insn.operand)?;
    write_at(bus, byte, addr, n)
}

/// Exchanges S and D.
#[inline(always)]
#[tactic(auto, using(kc_exec_spec::proofs::Running::run_bind), unfolding(kc_exec_spec::specs::Moving::exchange))]
pub fn do_exchange<B: Bus>(bus: &mut B, byte: bool, wsr: u8, insn: &Insn) -> Result<(), Kind>
    ensures gives { Gives (λ x. x) result (B.held bus.new) (run B.meaning (exchange byte wsr insn.now) (B.held bus.old)) }
    ensures count { KeepsCount B.spent B.held B.allowed B.lent bus.old bus.new }
{
    let addr = find_target(bus, byte, wsr, insn.operand)?;
    let s = read_at(bus, byte, addr)?;
    let n = read_register(bus, byte, wsr, insn.regs[0])?;
    write_register(bus, byte, wsr, insn.regs[0], s)?;
    write_at(bus, byte, addr, n)
}

/// Pushes S.
#[inline(always)]
#[tactic(auto, using(kc_exec_spec::proofs::Running::run_bind), unfolding(kc_exec_spec::specs::Moving::push_source))]
pub fn do_push<B: Bus>(bus: &mut B, wsr: u8, insn: &Insn) -> Result<(), Kind>
    ensures gives { Gives (λ x. x) result (B.held bus.new) (run B.meaning (push_source wsr insn.now) (B.held bus.old)) }
    ensures count { KeepsCount B.spent B.held B.allowed B.lent bus.old bus.new }
{
    let s = read_source(bus, false, wsr, insn.operand)?;
    push_word(bus, s)
}

/// Pops into the place of S.
#[inline(always)]
#[tactic(auto, using(kc_exec_spec::proofs::Running::run_bind), unfolding(kc_exec_spec::specs::Moving::pop_target))]
pub fn do_pop<B: Bus>(bus: &mut B, wsr: u8, insn: &Insn) -> Result<(), Kind>
    ensures gives { Gives (λ x. x) result (B.held bus.new) (run B.meaning (pop_target wsr insn.now) (B.held bus.old)) }
    ensures count { KeepsCount B.spent B.held B.allowed B.lent bus.old bus.new }
{
    let n = pop_word(bus)?;
    let addr = find_target(bus, false, wsr, insn.operand)?;
    write_at(bus, false, addr, n)
}

/// Does the work of an instruction that moves a number.
#[tactic(auto, using(kc_exec_spec::proofs::Running::run_bind), unfolding(kc_exec_spec::specs::Moving::move_data))]
pub(crate) fn do_move<B: Bus>(bus: &mut B, how: Movement, wsr: u8, insn: &Insn) -> Result<(), Kind>
    ensures gives { Gives (λ x. x) result (B.held bus.new) (run B.meaning (move_data how wsr insn.now) (B.held bus.old)) }
    ensures count { KeepsCount B.spent B.held B.allowed B.lent bus.old bus.new }
{
    match how {
        Movement::Load(byte) => do_load(bus, byte, wsr, insn),
        Movement::ZeroExtend => do_load_extended(bus, false, wsr, insn),
        Movement::SignExtend => do_load_extended(bus, true, wsr, insn),
        Movement::Store(byte) => do_store(bus, byte, wsr, insn),
        Movement::Exchange(byte) => do_exchange(bus, byte, wsr, insn),
        Movement::Push => do_push(bus, wsr, insn),
        Movement::Pop => do_pop(bus, wsr, insn),
    }
}
