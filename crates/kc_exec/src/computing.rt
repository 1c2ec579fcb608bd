ghost use Rattle.std.specs.Prelude.{◌≡◌, ◌≤◌, ◌<◌, IfOk};
ghost use Rattle.kc_exec_spec.specs.Effect.{Gives, run};
ghost use Rattle.kc_exec_spec.specs.Parts.{limit};
ghost use Rattle.kc_exec_spec.specs.Operations.{writes_result, reads_register};
ghost use Rattle.kc_exec_spec.specs.Computing.{has_a, destination, operate, read_altered, alter, extend, shift_count, shift, normalize, factor, multiply, divide, compare_long, compute};
ghost use Rattle.kc_bus.specs.Counting.{KeepsCount};

use kc_alu::{Shift, normalize};
use kc_base::Kind;
use kc_bus::Bus;
use kc_exec_operands::{
    change, combine, compare_longs, double_of, pack, read_long, read_low_half, read_register,
    read_sized, read_source, share, shift_number, spread_low, times, unpack, write_long,
    write_register, write_sized,
};
use kc_exec_spec::{Alteration, Computation, Operation, Size};
use kc_isa::{Insn, Operand};

#[inline(always)]
fn is_with_a(insn: &Insn) -> bool
    ensures { result ≡ has_a insn.now }
{
    insn.opcode < 0x60
}

#[inline(always)]
fn last_register(insn: &Insn) -> u8
    ensures { result ≡ destination insn.now }
{
    if is_with_a(insn) {
        insn.regs[1]
    } else {
        insn.regs[0]
    }
}

#[inline(always)]
fn is_kept(op: Operation) -> bool
    ensures { result ≡ writes_result op }
{
    !matches!(op, Operation::Compare)
}

/// Two numbers of a width: S, then A (or D), then the result to D; gives the new high byte of the PSW.
#[inline(always)]
#[tactic(auto, using(kc_exec_spec::proofs::Running::run_bind), unfolding(kc_exec_spec::specs::Computing::operate))]
pub fn do_operate<B: Bus>(
    bus: &mut B,
    op: Operation,
    byte: bool,
    wsr: u8,
    insn: &Insn,
    psw: u8,
) -> Result<u8, Kind>
    ensures gives { Gives (λ x. x) result (B.held bus.new) (run B.meaning (operate op byte wsr insn.now psw) (B.held bus.old)) }
    ensures count { KeepsCount B.spent B.held B.allowed B.lent bus.old bus.new }
{
    let s = read_source(bus, byte, wsr, insn.operand)?;
    let n = read_register(bus, byte, wsr, insn.regs[0])?;
    let (value, flags) = combine(op, byte, n, s, unpack(psw));
    if is_kept(op) {
        write_register(bus, byte, wsr, last_register(insn), value)?;
    }
    Ok(pack(psw, flags))
}

#[inline(always)]
fn is_read(how: Alteration) -> bool
    ensures { result ≡ reads_register how }
{
    !matches!(how, Alteration::Clear)
}

#[inline(always)]
#[tactic(auto, using(kc_exec_spec::proofs::Running::run_bind), unfolding(kc_exec_spec::specs::Computing::read_altered))]
fn read_changed<B: Bus>(
    bus: &mut B,
    how: Alteration,
    byte: bool,
    wsr: u8,
    d: u8,
) -> Result<u16, Kind>
    ensures gives { Gives (λ x. x) result (B.held bus.new) (run B.meaning (read_altered how byte wsr d) (B.held bus.old)) }
    ensures count { KeepsCount B.spent B.held B.allowed B.lent bus.old bus.new }
    ensures bound { IfOk result (λ n. n < limit byte) }
{
    if is_read(how) {
        read_register(bus, byte, wsr, d)
    } else {
        Ok(0)
    }
}

/// Changes a register; gives the new high byte of the PSW.
#[inline(always)]
#[tactic(auto, using(kc_exec_spec::proofs::Running::run_bind), unfolding(kc_exec_spec::specs::Computing::alter))]
pub fn do_alter<B: Bus>(
    bus: &mut B,
    how: Alteration,
    byte: bool,
    wsr: u8,
    d: u8,
    psw: u8,
) -> Result<u8, Kind>
    ensures gives { Gives (λ x. x) result (B.held bus.new) (run B.meaning (alter how byte wsr d psw) (B.held bus.old)) }
    ensures count { KeepsCount B.spent B.held B.allowed B.lent bus.old bus.new }
{
    let n = read_changed(bus, how, byte, wsr, d)?;
    let (value, flags) = change(how, byte, n, unpack(psw));
    write_register(bus, byte, wsr, d, value)?;
    Ok(pack(psw, flags))
}

/// Spreads the sign of the low half of D over D; gives the new high byte of the PSW.
#[inline(always)]
#[tactic(auto, using(kc_exec_spec::proofs::Running::run_bind), unfolding(kc_exec_spec::specs::Computing::extend))]
pub fn do_extend<B: Bus>(bus: &mut B, byte: bool, wsr: u8, d: u8, psw: u8) -> Result<u8, Kind>
    ensures gives { Gives (λ x. x) result (B.held bus.new) (run B.meaning (extend byte wsr d psw) (B.held bus.old)) }
    ensures count { KeepsCount B.spent B.held B.allowed B.lent bus.old bus.new }
{
    let n = read_low_half(bus, byte, wsr, d)?;
    let (value, flags) = spread_low(byte, n, unpack(psw));
    write_sized(bus, double_of(byte), wsr, d, value)?;
    Ok(pack(psw, flags))
}

#[inline(always)]
#[tactic(auto, using(kc_exec_spec::proofs::Running::run_bind), unfolding(kc_exec_spec::specs::Computing::shift_count))]
fn read_count<B: Bus>(bus: &mut B, wsr: u8, operand: Operand) -> Result<u8, Kind>
    ensures gives { Gives (λ x. x) result (B.held bus.new) (run B.meaning (shift_count wsr operand) (B.held bus.old)) }
    ensures count { KeepsCount B.spent B.held B.allowed B.lent bus.old bus.new }
    ensures bound { IfOk result (λ n. n ≤ 31) }
{
    match operand {
        Operand::Count(n) if n < 0x10 => Ok(n),
        Operand::Count(n) => Ok((read_register(bus, true, wsr, n)? % 32) as u8),
        _ => Ok(0),
    }
}

/// Shifts D by a count; gives the new high byte of the PSW.
#[inline(always)]
#[tactic(auto, using(kc_exec_spec::proofs::Running::run_bind), unfolding(kc_exec_spec::specs::Computing::shift))]
pub fn do_shift<B: Bus>(
    bus: &mut B,
    how: Shift,
    size: Size,
    wsr: u8,
    insn: &Insn,
    psw: u8,
) -> Result<u8, Kind>
    ensures gives { Gives (λ x. x) result (B.held bus.new) (run B.meaning (shift how size wsr insn.now psw) (B.held bus.old)) }
    ensures count { KeepsCount B.spent B.held B.allowed B.lent bus.old bus.new }
{
    let count = read_count(bus, wsr, insn.operand)?;
    let n = read_sized(bus, size, wsr, insn.regs[0])?;
    let (value, flags) = shift_number(how, size, n, count, unpack(psw));
    write_sized(bus, size, wsr, insn.regs[0], value)?;
    Ok(pack(psw, flags))
}

/// Shifts a long register left until its top bit is 1, and writes the count; gives the new high byte of the PSW.
#[inline(always)]
#[tactic(auto, using(kc_exec_spec::proofs::Running::run_bind), unfolding(kc_exec_spec::specs::Computing::normalize))]
pub fn do_normalize<B: Bus>(bus: &mut B, wsr: u8, insn: &Insn, psw: u8) -> Result<u8, Kind>
    ensures gives { Gives (λ x. x) result (B.held bus.new) (run B.meaning (normalize wsr insn.now psw) (B.held bus.old)) }
    ensures count { KeepsCount B.spent B.held B.allowed B.lent bus.old bus.new }
{
    let n = read_long(bus, wsr, insn.regs[1])?;
    let (value, count, flags) = normalize(n, unpack(psw));
    write_long(bus, wsr, insn.regs[1], value)?;
    write_register(bus, true, wsr, insn.regs[0], u16::from(count))?;
    Ok(pack(psw, flags))
}

#[inline(always)]
#[tactic(auto, using(kc_exec_spec::proofs::Running::run_bind), unfolding(kc_exec_spec::specs::Computing::factor))]
fn read_factor<B: Bus>(bus: &mut B, byte: bool, wsr: u8, insn: &Insn) -> Result<u16, Kind>
    ensures gives { Gives (λ x. x) result (B.held bus.new) (run B.meaning (factor byte wsr insn.now) (B.held bus.old)) }
    ensures count { KeepsCount B.spent B.held B.allowed B.lent bus.old bus.new }
    ensures bound { IfOk result (λ n. n < limit byte) }
{
    if is_with_a(insn) {
        read_register(bus, byte, wsr, insn.regs[0])
    } else {
        read_low_half(bus, byte, wsr, insn.regs[0])
    }
}

/// Writes the product of S and A (or the low half of D) to D.
#[inline(always)]
#[tactic(auto, using(kc_exec_spec::proofs::Running::run_bind), unfolding(kc_exec_spec::specs::Computing::multiply))]
pub fn do_multiply<B: Bus>(
    bus: &mut B,
    with_sign: bool,
    byte: bool,
    wsr: u8,
    insn: &Insn,
) -> Result<(), Kind>
    ensures gives { Gives (λ x. x) result (B.held bus.new) (run B.meaning (multiply with_sign byte wsr insn.now) (B.held bus.old)) }
    ensures count { KeepsCount B.spent B.held B.allowed B.lent bus.old bus.new }
{
    let s = read_source(bus, byte, wsr, insn.operand)?;
    let n = read_factor(bus, byte, wsr, insn)?;
    let value = times(with_sign, byte, n, s);
    write_sized(bus, double_of(byte), wsr, last_register(insn), value)
}

/// Divides D by S; gives the new high byte of the PSW.
#[inline(always)]
#[tactic(auto, using(kc_exec_spec::proofs::Running::run_bind), unfolding(kc_exec_spec::specs::Computing::divide))]
pub fn do_divide<B: Bus>(
    bus: &mut B,
    with_sign: bool,
    byte: bool,
    wsr: u8,
    insn: &Insn,
    psw: u8,
) -> Result<u8, Kind>
    ensures gives { Gives (λ x. x) result (B.held bus.new) (run B.meaning (divide with_sign byte wsr insn.now psw) (B.held bus.old)) }
    ensures count { KeepsCount B.spent B.held B.allowed B.lent bus.old bus.new }
{
    let s = read_source(bus, byte, wsr, insn.operand)?;
    let n = read_sized(bus, double_of(byte), wsr, insn.regs[0])?;
    let (value, flags) = share(with_sign, byte, n, s, unpack(psw))?;
    write_sized(bus, double_of(byte), wsr, insn.regs[0], value)?;
    Ok(pack(psw, flags))
}

/// Compares two long registers; gives the new high byte of the PSW.
#[inline(always)]
#[tactic(auto, using(kc_exec_spec::proofs::Running::run_bind), unfolding(kc_exec_spec::specs::Computing::compare_long))]
pub fn do_compare_long<B: Bus>(bus: &mut B, wsr: u8, insn: &Insn, psw: u8) -> Result<u8, Kind>
    ensures gives { Gives (λ x. x) result (B.held bus.new) (run B.meaning (compare_long wsr insn.now psw) (B.held bus.old)) }
    ensures count { KeepsCount B.spent B.held B.allowed B.lent bus.old bus.new }
{
    let s = read_long(bus, wsr, insn.regs[0])?;
    let n = read_long(bus, wsr, insn.regs[1])?;
    Ok(pack(psw, compare_longs(n, s, unpack(psw))))
}

/// Does the work of an instruction that computes; gives the new high byte of the PSW.
#[tactic(auto, using(kc_exec_spec::proofs::Running::run_bind), unfolding(kc_exec_spec::specs::Computing::compute))]
pub(crate) fn do_compute<B: Bus>(
    bus: &mut B,
    how: Computation,
    wsr: u8,
    insn: &Insn,
    psw: u8,
) -> Result<u8, Kind>
    ensures gives { Gives (λ x. x) result (B.held bus.new) (run B.meaning (compute how wsr insn.now psw) (B.held bus.old)) }
    ensures count { KeepsCount B.spent B.held B.allowed B.lent bus.old bus.new }
{
    match how {
        Computation::Operate(op, byte) => do_operate(bus, op, byte, wsr, insn, psw),
        Computation::Alter(how, byte) => do_alter(bus, how, byte, wsr, insn.regs[0], psw),
        Computation::Extend(byte) => do_extend(bus, byte, wsr, insn.regs[0], psw),
        Computation::Shift(how, size) => do_shift(bus, how, size, wsr, insn, psw),
        Computation::Normalize => do_normalize(bus, wsr, insn, psw),
        Computation::Multiply(with_sign, byte) => {
            do_multiply(bus, with_sign, byte, wsr, insn)?;
            Ok(psw)
        }
        Computation::Divide(with_sign, byte) => do_divide(bus, with_sign, byte, wsr, insn, psw),
        Computation::CompareLong => do_compare_long(bus, wsr, insn, psw),
    }
}
