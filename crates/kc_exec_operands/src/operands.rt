ghost use Rattle.std.specs.Prelude.{◌≡◌, ◌<◌, ◌%◌, IfOk, IsTrue, false};
ghost use Rattle.kc_isa.specs.declared.insn.Operand.TheVariants.{Increment, Long};
ghost use Rattle.kc_exec_spec.specs.Effect.{Gives, run};
ghost use Rattle.kc_exec_spec.specs.Parts.{limit};
ghost use Rattle.kc_exec_spec.specs.Operands.{size, at_offset, source, target};
ghost use Rattle.kc_bus.specs.Counting.{KeepsCount};

use crate::parts::{read_at, read_register, write_register};
use kc_base::Kind;
use kc_bus::{Bus, window};
use kc_isa::Operand;

#[inline(always)]
fn moved(base: u16, offset: u16) -> u16
    ensures { result ≡ at_offset base offset }
{
    base.wrapping_add(offset)
}

// A pointer behind a byte or a word.
#[inline(always)]
fn stepped(byte: bool, pointer: u16) -> u16
    ensures { result ≡ at_offset pointer (size byte) }
{
    moved(pointer, if byte { 1 } else { 2 })
}

#[inline(always)]
fn cut(byte: bool, value: u16) -> u16
    ensures value { result ≡ value % limit byte }
    ensures bound { result < limit byte }
{
    if byte { value % 0x100 } else { value }
}

// Reads S at a pointer, which is then written back, incremented.
#[inline(never)]
#[tactic(auto, using(kc_exec_spec::proofs::Running::run_bind), unfolding(kc_exec_spec::specs::Operands::source))]
fn read_increment<B: Bus>(bus: &mut B, byte: bool, wsr: u8, register: u8) -> Result<u16, Kind>
    ensures gives { Gives (λ x. x) result (B.held bus.new) (run B.meaning (source byte wsr (Increment register)) (B.held bus.old)) }
    ensures count { KeepsCount B.spent B.held B.allowed B.lent bus.old bus.new }
    ensures bound { IfOk result (λ n. n < limit byte) }
{
    let place = read_register(bus, false, wsr, register)?;
    let value = read_at(bus, byte, place)?;
    write_register(bus, false, wsr, register, stepped(byte, place))?;
    Ok(value)
}

// Reads S at an offset from a base.
#[inline(never)]
#[tactic(auto, using(kc_exec_spec::proofs::Running::run_bind), unfolding(kc_exec_spec::specs::Operands::source))]
fn read_indexed<B: Bus>(
    bus: &mut B,
    byte: bool,
    wsr: u8,
    base: u8,
    offset: u16,
) -> Result<u16, Kind>
    ensures gives { Gives (λ x. x) result (B.held bus.new) (run B.meaning (source byte wsr (Long base offset)) (B.held bus.old)) }
    ensures count { KeepsCount B.spent B.held B.allowed B.lent bus.old bus.new }
    ensures bound { IfOk result (λ n. n < limit byte) }
{
    let pointer = read_register(bus, false, wsr, base)?;
    read_at(bus, byte, moved(pointer, offset))
}

/// Reads S, a byte or a word: its pointer or base first, and an incremented pointer is written back after the read
/// (80C196KC User's Manual, "Addressing Modes").
#[inline(always)]
#[tactic(auto, using(kc_exec_spec::proofs::Running::run_bind), unfolding(kc_exec_spec::specs::Operands::source))]
pub fn read_source<B: Bus>(bus: &mut B, byte: bool, wsr: u8, operand: Operand) -> Result<u16, Kind>
    ensures gives { Gives (λ x. x) result (B.held bus.new) (run B.meaning (source byte wsr operand) (B.held bus.old)) }
    ensures count { KeepsCount B.spent B.held B.allowed B.lent bus.old bus.new }
    ensures bound { IfOk result (λ n. n < limit byte) }
{
    match operand {
        Operand::Reg(register) => Ok(read_register(bus, byte, wsr, register)?),
        Operand::Imm(value) => Ok(cut(byte, value)),
        Operand::Indirect(register) => {
            let pointer = read_register(bus, false, wsr, register)?;
            Ok(read_at(bus, byte, pointer)?)
        }
        Operand::Increment(register) => Ok(read_increment(bus, byte, wsr, register)?),
        Operand::Short { base, offset } => {
            let offset = i16::from(offset).cast_unsigned();
            Ok(read_indexed(bus, byte, wsr, base, offset)?)
        }
        Operand::Long { base, offset } => Ok(read_indexed(bus, byte, wsr, base, offset)?),
        Operand::Absent | Operand::Count(_) | Operand::Disp(_) => Ok(0),
    }
}

// Finds the address at a pointer, which is written back, incremented.
#[inline(never)]
#[tactic(auto, using(kc_exec_spec::proofs::Running::run_bind), unfolding(kc_exec_spec::specs::Operands::target))]
fn find_increment<B: Bus>(bus: &mut B, byte: bool, wsr: u8, register: u8) -> Result<u16, Kind>
    ensures gives { Gives (λ x. x) result (B.held bus.new) (run B.meaning (target byte wsr (Increment register)) (B.held bus.old)) }
    ensures count { KeepsCount B.spent B.held B.allowed B.lent bus.old bus.new }
{
    let pointer = read_register(bus, false, wsr, register)?;
    write_register(bus, false, wsr, register, stepped(byte, pointer))?;
    Ok(pointer)
}

// Finds the address at an offset from a base.
#[inline(never)]
#[tactic(auto, using(kc_exec_spec::proofs::Running::run_bind), unfolding(kc_exec_spec::specs::Operands::target))]
fn find_indexed<B: Bus>(
    bus: &mut B,
    byte: bool,
    wsr: u8,
    base: u8,
    offset: u16,
) -> Result<u16, Kind>
    ensures gives { Gives (λ x. x) result (B.held bus.new) (run B.meaning (target byte wsr (Long base offset)) (B.held bus.old)) }
    ensures count { KeepsCount B.spent B.held B.allowed B.lent bus.old bus.new }
{
    let pointer = read_register(bus, false, wsr, base)?;
    Ok(moved(pointer, offset))
}

/// Finds the address of S: its pointer or base is read, and an incremented pointer written back (80C196KC User's
/// Manual, "Addressing Modes").
#[inline(always)]
#[tactic(auto, using(kc_exec_spec::proofs::Running::run_bind), unfolding(kc_exec_spec::specs::Operands::target))]
pub fn find_target<B: Bus>(bus: &mut B, byte: bool, wsr: u8, operand: Operand) -> Result<u16, Kind>
    ensures gives { Gives (λ x. x) result (B.held bus.new) (run B.meaning (target byte wsr operand) (B.held bus.old)) }
    ensures count { KeepsCount B.spent B.held B.allowed B.lent bus.old bus.new }
{
    match operand {
        Operand::Reg(register) => Ok(window(wsr, register)?),
        Operand::Indirect(register) => Ok(read_register(bus, false, wsr, register)?),
        Operand::Increment(register) => Ok(find_increment(bus, byte, wsr, register)?),
        Operand::Short { base, offset } => {
            let offset = i16::from(offset).cast_unsigned();
            Ok(find_indexed(bus, byte, wsr, base, offset)?)
        }
        Operand::Long { base, offset } => Ok(find_indexed(bus, byte, wsr, base, offset)?),
        Operand::Absent | Operand::Imm(_) | Operand::Count(_) | Operand::Disp(_) => Ok(0),
    }
}
