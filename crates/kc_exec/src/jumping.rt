ghost use Rattle.std.specs.Prelude.{◌≡◌, ◌+◌, ◌-◌, ◌*◌, ◌%◌, ◌^◌, ◌<◌, IsTrue, bit_and};
ghost use Rattle.kc_isa.specs.Formed.{is_formed};
ghost use Rattle.kc_exec_spec.specs.Effect.{Gives, run};
ghost use Rattle.kc_exec_spec.specs.Status.{has};
ghost use Rattle.kc_exec_spec.specs.Parts.{limit};
ghost use Rattle.kc_exec_spec.specs.Operands.{at_offset};
ghost use Rattle.kc_exec_spec.specs.Jumping.{next_pc, jump_pc, branch_pc, distance, holds, is_taken, bit_jump, count_down, table_target, goes, psw_after};
ghost use Rattle.kc_bus.specs.Counting.{KeepsCount};

use kc_alu::Flags;
use kc_base::Kind;
use kc_bus::Bus;
use kc_exec_operands::{
    pop_word, push_word, read_at, read_register, set_bit, unpack, write_register,
};
use kc_exec_spec::{Cpu, Route, Setting, Test};
use kc_isa::{Insn, Operand, length};

/// The address after the instruction.
pub(crate) fn following(insn: &Insn, pc: u16) -> u16
    requires { IsTrue (is_formed insn.now) }
    ensures { result ≡ next_pc insn.now pc }
{
    pc.wrapping_add(u16::from(length(insn)))
}

/// The distance of a jump, modulo 65536.
#[inline(always)]
pub fn distance_of(operand: Operand) -> u16
    ensures { result ≡ distance operand }
{
    match operand {
        Operand::Disp(distance) => distance.cast_unsigned(),
        _ => 0,
    }
}

fn branch(taken: bool, insn: &Insn, pc: u16) -> u16
    requires { IsTrue (is_formed insn.now) }
    ensures { result ≡ branch_pc taken insn.now pc }
{
    let next = following(insn, pc);
    if taken {
        next.wrapping_add(distance_of(insn.operand))
    } else {
        next
    }
}

#[inline(always)]
fn is_held(test: Test, flags: Flags) -> bool
    ensures { result ≡ holds test flags }
{
    match test {
        Test::Sticky => flags.st,
        Test::Higher => flags.c && !flags.z,
        Test::LessOrEqual => flags.n || flags.z,
        Test::Carry => flags.c,
        Test::OverflowTrap => flags.vt,
        Test::Overflow => flags.v,
        Test::Less => flags.n,
        Test::Equal => flags.z,
    }
}

/// Whether a conditional jump is taken.
#[inline(always)]
pub fn is_met(test: Test, wanted: bool, psw: u8) -> bool
    ensures { result ≡ is_taken test wanted psw }
{
    let held = is_held(test, unpack(psw));
    if wanted { held } else { !held }
}

#[inline(always)]
fn is_bit(number: u8, n: u16) -> bool
    requires number { number < 8 }
    requires byte { n < 256 }
    ensures { result ≡ has (2 ^ number) n }
{
    (n >> number) % 2 == 1
}

/// Whether a bit of a register is as it has to be.
#[inline(always)]
#[tactic(auto, using(kc_exec_spec::proofs::Running::run_bind), unfolding(kc_exec_spec::specs::Jumping::bit_jump))]
pub fn is_bit_jump<B: Bus>(
    bus: &mut B,
    set: bool,
    number: u8,
    wsr: u8,
    register: u8,
) -> Result<bool, Kind>
    requires { number < 8 }
    ensures gives { Gives (λ x. x) result (B.held bus.new) (run B.meaning (bit_jump set number wsr register) (B.held bus.old)) }
    ensures count { KeepsCount B.spent B.held B.allowed B.lent bus.old bus.new }
{
    let n = read_register(bus, true, wsr, register)?;
    let found = is_bit(number, n);
    Ok(if set { found } else { !found })
}

#[inline(always)]
fn less_one(byte: bool, n: u16) -> u16
    requires { n < limit byte }
    ensures { result ≡ (n + limit byte - 1) % limit byte }
{
    if n > 0 {
        n - 1
    } else if byte {
        0xFF
    } else {
        0xFFFF
    }
}

/// Counts a register down; whether it is not yet 0.
#[inline(always)]
#[tactic(auto, using(kc_exec_spec::proofs::Running::run_bind), unfolding(kc_exec_spec::specs::Jumping::count_down))]
pub fn is_counted<B: Bus>(bus: &mut B, byte: bool, wsr: u8, register: u8) -> Result<bool, Kind>
    ensures gives { Gives (λ x. x) result (B.held bus.new) (run B.meaning (count_down byte wsr register) (B.held bus.old)) }
    ensures count { KeepsCount B.spent B.held B.allowed B.lent bus.old bus.new }
{
    let n = read_register(bus, byte, wsr, register)?;
    let less = less_one(byte, n);
    write_register(bus, byte, wsr, register, less)?;
    Ok(less != 0)
}

#[inline(always)]
fn table_place(table: u16, index: u8, mask: u8) -> u16
    ensures { result ≡ at_offset table (2 * bit_and index mask) }
{
    table.wrapping_add(2 * u16::from(index & mask))
}

/// Where TIJMP leads.
#[inline(always)]
#[tactic(auto, using(kc_exec_spec::proofs::Running::run_bind), unfolding(kc_exec_spec::specs::Jumping::table_target))]
pub fn read_table<B: Bus>(bus: &mut B, wsr: u8, insn: &Insn) -> Result<u16, Kind>
    ensures gives { Gives (λ x. x) result (B.held bus.new) (run B.meaning (table_target wsr insn.now) (B.held bus.old)) }
    ensures count { KeepsCount B.spent B.held B.allowed B.lent bus.old bus.new }
{
    let pointer = read_register(bus, false, wsr, insn.regs[0])?;
    let index = read_at(bus, true, pointer)? as u8;
    let table = read_register(bus, false, wsr, insn.regs[2])?;
    read_at(bus, false, table_place(table, index, insn.regs[1]))
}

/// Does the work of a jump; gives the address at which the program goes on.
#[tactic(auto, using(kc_exec_spec::proofs::Running::run_bind), unfolding(kc_exec_spec::specs::Jumping::goes))]
pub(crate) fn do_jump<B: Bus>(
    bus: &mut B,
    route: Route,
    wsr: u8,
    insn: &Insn,
    cpu: Cpu,
) -> Result<u16, Kind>
    requires { IsTrue (is_formed insn.now) }
    ensures gives { Gives (λ x. x) result (B.held bus.new) (run B.meaning (goes route wsr insn.now cpu) (B.held bus.old)) }
    ensures count { KeepsCount B.spent B.held B.allowed B.lent bus.old bus.new }
{
    match route {
        Route::Always => Ok(branch(true, insn, cpu.pc)),
        Route::Call => {
            push_word(bus, following(insn, cpu.pc))?;
            Ok(branch(true, insn, cpu.pc))
        }
        Route::Return => pop_word(bus),
        Route::When(test, wanted) => {
            Ok(branch(is_met(test, wanted, cpu.psw_high), insn, cpu.pc))
        }
        Route::Bit(set) => {
            let taken = is_bit_jump(bus, set, insn.opcode % 8, wsr, insn.regs[0])?;
            Ok(branch(taken, insn, cpu.pc))
        }
        Route::CountDown(byte) => {
            let taken = is_counted(bus, byte, wsr, insn.regs[0])?;
            Ok(branch(taken, insn, cpu.pc))
        }
        Route::Table => read_table(bus, wsr, insn),
        Route::Register => read_register(bus, false, wsr, insn.regs[0]),
    }
}

/// The high byte of the PSW after a jump.
#[inline(always)]
pub fn psw_behind(route: Route, psw: u8) -> u8
    ensures { result ≡ psw_after route psw }
{
    match route {
        Route::When(Test::OverflowTrap, _) => set_bit(Setting::NoOverflowTrap, psw),
        _ => psw,
    }
}
