ghost use Rattle.std.specs.Prelude.{◌≡◌, ◌+◌, ◌<◌, IfOk, IsTrue, false};
ghost use Rattle.kc_exec_spec.specs.Effect.{Gives, run};
ghost use Rattle.kc_exec_spec.specs.Parts.{limit, sized_limit, doubled, read_at, write_at, read_register, write_register, long_place, read_long, write_long, read_sized, write_sized, read_low_half, push, pop};
ghost use Rattle.kc_bus.specs.Counting.{KeepsCount};

use kc_base::Kind;
use kc_bus::{Bus, Master, window};
use kc_exec_spec::Size;

/// Reads a byte or a word at an address, which no window moves. Refused as the bus refuses it.
#[inline(always)]
#[tactic(auto, using(kc_exec_spec::proofs::Running::run_bind), unfolding(kc_exec_spec::specs::Parts::read_at))]
pub fn read_at<B: Bus>(bus: &mut B, byte: bool, addr: u16) -> Result<u16, Kind>
    ensures gives { Gives (λ x. x) result (B.held bus.new) (run B.meaning (read_at byte addr) (B.held bus.old)) }
    ensures count { KeepsCount B.spent B.held B.allowed B.lent bus.old bus.new }
    ensures bound { IfOk result (λ n. n < limit byte) }
{
    if byte {
        Ok(u16::from(bus.read8(Master::Cpu, addr)?))
    } else {
        bus.read16(Master::Cpu, addr)
    }
}

/// Writes a byte (the low one of the value) or a word at an address, which no window moves. Refused as the bus
/// refuses it.
#[inline(always)]
#[tactic(auto, using(kc_exec_spec::proofs::Running::run_bind), unfolding(kc_exec_spec::specs::Parts::write_at))]
pub fn write_at<B: Bus>(bus: &mut B, byte: bool, addr: u16, value: u16) -> Result<(), Kind>
    ensures gives { Gives (λ x. x) result (B.held bus.new) (run B.meaning (write_at byte addr value) (B.held bus.old)) }
    ensures count { KeepsCount B.spent B.held B.allowed B.lent bus.old bus.new }
{
    if byte {
        bus.write8(Master::Cpu, addr, (value % 256) as u8)
    } else {
        bus.write16(Master::Cpu, addr, value)
    }
}

/// Reads a register byte or word of an instruction, in the window of a value of WSR.
#[inline(always)]
#[tactic(auto, using(kc_exec_spec::proofs::Running::run_bind), unfolding(kc_exec_spec::specs::Parts::read_register))]
pub fn read_register<B: Bus>(bus: &mut B, byte: bool, wsr: u8, register: u8) -> Result<u16, Kind>
    ensures gives { Gives (λ x. x) result (B.held bus.new) (run B.meaning (read_register byte wsr register) (B.held bus.old)) }
    ensures count { KeepsCount B.spent B.held B.allowed B.lent bus.old bus.new }
    ensures bound { IfOk result (λ n. n < limit byte) }
{
    if wsr == 0 {
        read_at(bus, byte, u16::from(register))
    } else {
        Ok(read_in_window(bus, byte, wsr, register)?)
    }
}

// Reads a register out of line, where a window may be open.
#[cold]
#[inline(never)]
#[tactic(auto, using(kc_exec_spec::proofs::Running::run_bind), unfolding(kc_exec_spec::specs::Parts::read_register))]
fn read_in_window<B: Bus>(bus: &mut B, byte: bool, wsr: u8, register: u8) -> Result<u16, Kind>
    ensures gives { Gives (λ x. x) result (B.held bus.new) (run B.meaning (read_register byte wsr register) (B.held bus.old)) }
    ensures count { KeepsCount B.spent B.held B.allowed B.lent bus.old bus.new }
    ensures bound { IfOk result (λ n. n < limit byte) }
{
    let addr = window(wsr, register)?;
    read_at(bus, byte, addr)
}

/// Writes a register byte or word of an instruction, in the window of a value of WSR.
#[inline(always)]
#[tactic(auto, using(kc_exec_spec::proofs::Running::run_bind), unfolding(kc_exec_spec::specs::Parts::write_register))]
pub fn write_register<B: Bus>(
    bus: &mut B,
    byte: bool,
    wsr: u8,
    register: u8,
    value: u16,
) -> Result<(), Kind>
    ensures gives { Gives (λ x. x) result (B.held bus.new) (run B.meaning (write_register byte wsr register value) (B.held bus.old)) }
    ensures count { KeepsCount B.spent B.held B.allowed B.lent bus.old bus.new }
{
    if wsr == 0 {
        write_at(bus, byte, u16::from(register), value)
    } else {
        write_in_window(bus, byte, wsr, register, value)?;
        Ok(())
    }
}

// Writes a register out of line, where a window may be open.
#[cold]
#[inline(never)]
#[tactic(auto, using(kc_exec_spec::proofs::Running::run_bind), unfolding(kc_exec_spec::specs::Parts::write_register))]
fn write_in_window<B: Bus>(
    bus: &mut B,
    byte: bool,
    wsr: u8,
    register: u8,
    value: u16,
) -> Result<(), Kind>
    ensures gives { Gives (λ x. x) result (B.held bus.new) (run B.meaning (write_register byte wsr register value) (B.held bus.old)) }
    ensures count { KeepsCount B.spent B.held B.allowed B.lent bus.old bus.new }
{
    let addr = window(wsr, register)?;
    write_at(bus, byte, addr, value)
}

// The address of a long register.
#[inline(always)]
#[tactic(auto, using(kc_exec_spec::proofs::Running::run_bind), unfolding(kc_exec_spec::specs::Parts::long_place))]
fn place_of_long<B: Bus>(bus: &mut B, wsr: u8, register: u8) -> Result<u16, Kind>
    ensures gives { Gives (λ x. x) result (B.held bus.new) (run B.meaning (long_place wsr register) (B.held bus.old)) }
    ensures count { KeepsCount B.spent B.held B.allowed B.lent bus.old bus.new }
    ensures bound { IfOk result (λ addr. addr + 3 < 0x10000) }
{
    let addr = window(wsr, register)?;
    if addr % 4 == 0 {
        Ok(addr)
    } else {
        Err(Kind::LongAlign)
    }
}

/// Reads a long register, low word first. Refused as `LongAlign` before any access where it does not stand at a
/// multiple of 4.
#[inline(always)]
#[tactic(auto, using(kc_exec_spec::proofs::Running::run_bind), unfolding(kc_exec_spec::specs::Parts::read_long))]
pub fn read_long<B: Bus>(bus: &mut B, wsr: u8, register: u8) -> Result<u32, Kind>
    ensures gives { Gives (λ x. x) result (B.held bus.new) (run B.meaning (read_long wsr register) (B.held bus.old)) }
    ensures count { KeepsCount B.spent B.held B.allowed B.lent bus.old bus.new }
{
    let addr = place_of_long(bus, wsr, register)?;
    let low = read_at(bus, false, addr)?;
    let high = read_at(bus, false, addr + 2)?;
    Ok(u32::from(low) + 0x1_0000 * u32::from(high))
}

/// Writes a long register, low word first. Refused as `LongAlign` before any access where it does not stand at a
/// multiple of 4.
#[inline(always)]
#[tactic(auto, using(kc_exec_spec::proofs::Running::run_bind), unfolding(kc_exec_spec::specs::Parts::write_long))]
pub fn write_long<B: Bus>(bus: &mut B, wsr: u8, register: u8, value: u32) -> Result<(), Kind>
    ensures gives { Gives (λ x. x) result (B.held bus.new) (run B.meaning (write_long wsr register value) (B.held bus.old)) }
    ensures count { KeepsCount B.spent B.held B.allowed B.lent bus.old bus.new }
{
    let addr = place_of_long(bus, wsr, register)?;
    write_at(bus, false, addr, (value % 0x1_0000) as u16)?;
    write_at(bus, false, addr + 2, (value / 0x1_0000) as u16)
}

/// The double of a width.
#[inline(always)]
pub fn double_of(byte: bool) -> Size
    ensures { result ≡ doubled byte }
{
    if byte { Size::Word } else { Size::Long }
}

/// Reads a register of a size.
#[inline(always)]
#[tactic(auto, using(kc_exec_spec::proofs::Running::run_bind), unfolding(kc_exec_spec::specs::Parts::read_sized))]
pub fn read_sized<B: Bus>(bus: &mut B, size: Size, wsr: u8, register: u8) -> Result<u32, Kind>
    ensures gives { Gives (λ x. x) result (B.held bus.new) (run B.meaning (read_sized size wsr register) (B.held bus.old)) }
    ensures count { KeepsCount B.spent B.held B.allowed B.lent bus.old bus.new }
    ensures bound { IfOk result (λ n. n < sized_limit size) }
{
    match size {
        Size::Byte => Ok(u32::from(read_register(bus, true, wsr, register)?)),
        Size::Word => Ok(u32::from(read_register(bus, false, wsr, register)?)),
        Size::Long => read_long(bus, wsr, register),
    }
}

/// Writes a register of a size.
#[inline(always)]
#[tactic(auto, using(kc_exec_spec::proofs::Running::run_bind), unfolding(kc_exec_spec::specs::Parts::write_sized))]
pub fn write_sized<B: Bus>(
    bus: &mut B,
    size: Size,
    wsr: u8,
    register: u8,
    value: u32,
) -> Result<(), Kind>
    requires { value < sized_limit size }
    ensures gives { Gives (λ x. x) result (B.held bus.new) (run B.meaning (write_sized size wsr register value) (B.held bus.old)) }
    ensures count { KeepsCount B.spent B.held B.allowed B.lent bus.old bus.new }
{
    match size {
        Size::Byte => write_register(bus, true, wsr, register, value as u16),
        Size::Word => write_register(bus, false, wsr, register, value as u16),
        Size::Long => write_long(bus, wsr, register, value),
    }
}

/// Reads the low half of a register of twice the width; the alignment of a long one is asked first.
#[inline(always)]
#[tactic(auto, using(kc_exec_spec::proofs::Running::run_bind), unfolding(kc_exec_spec::specs::Parts::read_low_half))]
pub fn read_low_half<B: Bus>(bus: &mut B, byte: bool, wsr: u8, register: u8) -> Result<u16, Kind>
    ensures gives { Gives (λ x. x) result (B.held bus.new) (run B.meaning (read_low_half byte wsr register) (B.held bus.old)) }
    ensures count { KeepsCount B.spent B.held B.allowed B.lent bus.old bus.new }
    ensures bound { IfOk result (λ n. n < limit byte) }
{
    if byte {
        return read_register(bus, true, wsr, register);
    }
    let addr = place_of_long(bus, wsr, register)?;
    read_at(bus, false, addr)
}

/// Pushes a word: SP less 2 is written, then the word is stored there.
#[inline(always)]
#[tactic(auto, using(kc_exec_spec::proofs::Running::run_bind), unfolding(kc_exec_spec::specs::Parts::push))]
pub fn push_word<B: Bus>(bus: &mut B, value: u16) -> Result<(), Kind>
    ensures gives { Gives (λ x. x) result (B.held bus.new) (run B.meaning (push value) (B.held bus.old)) }
    ensures count { KeepsCount B.spent B.held B.allowed B.lent bus.old bus.new }
{
    let sp = read_at(bus, false, 0x18)?.wrapping_sub(2);
    write_at(bus, false, 0x18, sp)?;
    write_at(bus, false, sp, value)
}

/// Pops a word: it is read, then SP plus 2 is written.
#[inline(always)]
#[tactic(auto, using(kc_exec_spec::proofs::Running::run_bind), unfolding(kc_exec_spec::specs::Parts::pop))]
pub fn pop_word<B: Bus>(bus: &mut B) -> Result<u16, Kind>
    ensures gives { Gives (λ x. x) result (B.held bus.new) (run B.meaning (pop) (B.held bus.old)) }
    ensures count { KeepsCount B.spent B.held B.allowed B.lent bus.old bus.new }
{
    let sp = read_at(bus, false, 0x18)?;
    let value = read_at(bus, false, sp)?;
    write_at(bus, false, 0x18, sp.wrapping_add(2))?;
    Ok(value)
}
