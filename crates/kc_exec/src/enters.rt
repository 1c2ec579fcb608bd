ghost use Rattle.std.specs.Prelude.{◌≡◌};
ghost use Rattle.kc_exec_spec.specs.Effect.{Gives, run};
ghost use Rattle.kc_exec_spec.specs.Entering.{entry, trap, opcode_trap, Loads};
ghost use Rattle.kc_bus.specs.Counting.{KeepsCount};

use kc_base::Kind;
use kc_bus::Bus;
use kc_exec_operands::{push_word, read_at};
use kc_exec_spec::Cpu;

#[tactic(auto, using(kc_exec_spec::proofs::Running::run_bind), unfolding(kc_exec_spec::specs::Entering::entry))]
fn enter_at<B: Bus>(bus: &mut B, vector: u16, back: u16) -> Result<u16, Kind>
    ensures gives { Gives (λ x. x) result (B.held bus.new) (run B.meaning (entry vector back) (B.held bus.old)) }
    ensures count { KeepsCount B.spent B.held B.allowed B.lent bus.old bus.new }
{
    let pc = read_at(bus, false, vector)?;
    push_word(bus, back)?;
    Ok(pc)
}

/// Pushes a return address; gives the word at a vector.
#[tactic(auto, using(kc_exec_spec::proofs::Running::run_bind), unfolding(kc_exec_spec::specs::Entering::trap))]
pub(crate) fn trap_at<B: Bus>(bus: &mut B, vector: u16, back: u16) -> Result<u16, Kind>
    ensures gives { Gives (λ x. x) result (B.held bus.new) (run B.meaning (trap vector back) (B.held bus.old)) }
    ensures count { KeepsCount B.spent B.held B.allowed B.lent bus.old bus.new }
{
    push_word(bus, back)?;
    read_at(bus, false, vector)
}

/// Enters through the vector at an address: pushes PC, and loads it with the word there (80C196KC User's Manual,
/// "Interrupts"). After a refusal the bus is as after the accesses before the refused one, and the registers are as
/// before.
pub fn enter<B: Bus>(vector: u16, cpu: &mut Cpu, bus: &mut B) -> Result<(), Kind>
    ensures effect { Loads result cpu.old cpu.new (B.held bus.new) (run B.meaning (entry vector cpu.old.pc) (B.held bus.old)) }
    ensures count { KeepsCount B.spent B.held B.allowed B.lent bus.old bus.new }
{
    let pc = enter_at(bus, vector, cpu.pc)?;
    cpu.pc = pc;
    Ok(())
}

/// Takes the trap of an opcode that no instruction has, at PC: pushes the address of the byte after it, and loads PC
/// with the word at 2012H (80C196KC User's Manual, "Interrupts"). After a refusal the bus is as after the accesses
/// before the refused one, and the registers are as before.
pub fn trap_opcode<B: Bus>(cpu: &mut Cpu, bus: &mut B) -> Result<(), Kind>
    ensures effect { Loads result cpu.old cpu.new (B.held bus.new) (run B.meaning (opcode_trap cpu.old.pc) (B.held bus.old)) }
    ensures count { KeepsCount B.spent B.held B.allowed B.lent bus.old bus.new }
{
    let pc = trap_at(bus, 0x2012, cpu.pc.wrapping_add(1))?;
    cpu.pc = pc;
    Ok(())
}
