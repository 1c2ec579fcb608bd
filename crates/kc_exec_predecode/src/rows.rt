// A predecoded instruction is performed by one match on its mnemonic.
ghost use Rattle.std.specs.Prelude.{◌≡◌, true};
ghost use Rattle.kc_exec_spec.specs.declared.plan.Plan.TheVariants.{Save as Saves, Set as Sets};
ghost use Rattle.kc_exec_spec.specs.Effect.{run};
ghost use Rattle.kc_exec_spec.specs.Effects.{planned, effect_of};
ghost use Rattle.kc_exec_spec.specs.Jumping.{next_pc};
ghost use Rattle.kc_exec_spec.specs.Plans.{plan_of};
ghost use Rattle.kc_bus.specs.Counting.{KeepsCount};
ghost use Rattle.kc_exec_predecode.specs.Predecoding.{is_free, is_free_setting, IsPredecoded, GoesOn, predecoded_of};

use crate::computing::{alter, compare_long, divide, extend, multiply, normalize, operate, shift};
use crate::here::Here;
use crate::jumping::{
    call, come_back, count_down, go, go_by_register, go_by_table, go_on_bit, go_where,
};
use crate::moving::{exchange, load, load_sign, load_zeros, pop, push, store};
use crate::predecoded::Predecoded;
use kc_alu::Shift;
use kc_base::Kind;
use kc_bus::Bus;
use kc_exec::do_save;
use kc_exec_operands::set_bit;
use kc_exec_spec::{Alteration, Cpu, Operation, Saving, Setting, Size, Test};
use kc_isa::{Insn, Mnemonic};

#[inline(always)]
#[tactic(auto, using(kc_exec_spec::proofs::Running::run_bind), unfolding(kc_exec_spec::specs::Effects::planned))]
fn save<B: Bus>(
    bus: &mut B,
    how: Saving,
    insn: &Insn,
    here: Here,
    cpu: &mut Cpu,
) -> Result<bool, Kind>
    requires { here.next ≡ next_pc insn.now cpu.old.pc }
    ensures effect { GoesOn result cpu.old cpu.new (B.held bus.new) (run B.meaning (planned (Saves how) insn.now here.wsr cpu.old) (B.held bus.old)) }
    ensures count { KeepsCount B.spent B.held B.allowed B.lent bus.old bus.new }
{
    cpu.psw_high = do_save(bus, how, cpu.psw_high)?;
    cpu.pc = here.next;
    Ok(true)
}

#[inline(always)]
#[tactic(auto, unfolding(kc_exec_spec::specs::Effects::planned))]
fn set<B: Bus>(
    bus: &mut B,
    bit: Setting,
    insn: &Insn,
    here: Here,
    cpu: &mut Cpu,
) -> Result<bool, Kind>
    requires free { is_free_setting bit ≡ true }
    requires next { here.next ≡ next_pc insn.now cpu.old.pc }
    ensures effect { GoesOn result cpu.old cpu.new (B.held bus.new) (run B.meaning (planned (Sets bit) insn.now here.wsr cpu.old) (B.held bus.old)) }
    ensures same { bus.new ≡ bus.old }
{
    cpu.pc = here.next;
    cpu.psw_high = set_bit(bit, cpu.psw_high);
    Ok(false)
}

// One arm for each mnemonic: what is in none of them does nothing, or the program does not go on after it. Each answers whether
// an instruction has to follow, or any activity may.
#[inline(always)]
fn perform_row<B: Bus>(
    mnemonic: Mnemonic,
    insn: &Insn,
    here: Here,
    cpu: &mut Cpu,
    bus: &mut B,
) -> Result<bool, Kind>
    requires free { is_free (plan_of mnemonic) ≡ true }
    requires next { here.next ≡ next_pc insn.now cpu.old.pc }
    ensures effect { GoesOn result cpu.old cpu.new (B.held bus.new) (run B.meaning (planned (plan_of mnemonic) insn.now here.wsr cpu.old) (B.held bus.old)) }
    ensures count { KeepsCount B.spent B.held B.allowed B.lent bus.old bus.new }
{
    match mnemonic {
        Mnemonic::Add => operate(bus, Operation::Add, false, insn, here, cpu),
        Mnemonic::Addb => operate(bus, Operation::Add, true, insn, here, cpu),
        Mnemonic::Addc => operate(bus, Operation::AddCarry, false, insn, here, cpu),
        Mnemonic::Addcb => operate(bus, Operation::AddCarry, true, insn, here, cpu),
        Mnemonic::Sub => operate(bus, Operation::Sub, false, insn, here, cpu),
        Mnemonic::Subb => operate(bus, Operation::Sub, true, insn, here, cpu),
        Mnemonic::Subc => operate(bus, Operation::SubBorrow, false, insn, here, cpu),
        Mnemonic::Subcb => operate(bus, Operation::SubBorrow, true, insn, here, cpu),
        Mnemonic::Cmp => operate(bus, Operation::Compare, false, insn, here, cpu),
        Mnemonic::Cmpb => operate(bus, Operation::Compare, true, insn, here, cpu),
        Mnemonic::And => operate(bus, Operation::And, false, insn, here, cpu),
        Mnemonic::Andb => operate(bus, Operation::And, true, insn, here, cpu),
        Mnemonic::Or => operate(bus, Operation::Or, false, insn, here, cpu),
        Mnemonic::Orb => operate(bus, Operation::Or, true, insn, here, cpu),
        Mnemonic::Xor => operate(bus, Operation::Xor, false, insn, here, cpu),
        Mnemonic::Xorb => operate(bus, Operation::Xor, true, insn, here, cpu),
        Mnemonic::Clr => alter(bus, Alteration::Clear, false, insn, here, cpu),
        Mnemonic::Clrb => alter(bus, Alteration::Clear, true, insn, here, cpu),
        Mnemonic::Not => alter(bus, Alteration::Complement, false, insn, here, cpu),
        Mnemonic::Notb => alter(bus, Alteration::Complement, true, insn, here, cpu),
        Mnemonic::Neg => alter(bus, Alteration::Negate, false, insn, here, cpu),
        Mnemonic::Negb => alter(bus, Alteration::Negate, true, insn, here, cpu),
        Mnemonic::Inc => alter(bus, Alteration::Increment, false, insn, here, cpu),
        Mnemonic::Incb => alter(bus, Alteration::Increment, true, insn, here, cpu),
        Mnemonic::Dec => alter(bus, Alteration::Decrement, false, insn, here, cpu),
        Mnemonic::Decb => alter(bus, Alteration::Decrement, true, insn, here, cpu),
        Mnemonic::Shl => shift(bus, Shift::Left, Size::Word, insn, here, cpu),
        Mnemonic::Shlb => shift(bus, Shift::Left, Size::Byte, insn, here, cpu),
        Mnemonic::Shll => shift(bus, Shift::Left, Size::Long, insn, here, cpu),
        Mnemonic::Shr => shift(bus, Shift::Right, Size::Word, insn, here, cpu),
        Mnemonic::Shrb => shift(bus, Shift::Right, Size::Byte, insn, here, cpu),
        Mnemonic::Shrl => shift(bus, Shift::Right, Size::Long, insn, here, cpu),
        Mnemonic::Shra => shift(bus, Shift::Signed, Size::Word, insn, here, cpu),
        Mnemonic::Shrab => shift(bus, Shift::Signed, Size::Byte, insn, here, cpu),
        Mnemonic::Shral => shift(bus, Shift::Signed, Size::Long, insn, here, cpu),
        Mnemonic::Ext => extend(bus, false, insn, here, cpu),
        Mnemonic::Extb => extend(bus, true, insn, here, cpu),
        Mnemonic::Norml => normalize(bus, insn, here, cpu),
        Mnemonic::Mulu => multiply(bus, false, false, insn, here, cpu),
        Mnemonic::Mulub => multiply(bus, false, true, insn, here, cpu),
        Mnemonic::Mul => multiply(bus, true, false, insn, here, cpu),
        Mnemonic::Mulb => multiply(bus, true, true, insn, here, cpu),
        Mnemonic::Divu => divide(bus, false, false, insn, here, cpu),
        Mnemonic::Divub => divide(bus, false, true, insn, here, cpu),
        Mnemonic::Div => divide(bus, true, false, insn, here, cpu),
        Mnemonic::Divb => divide(bus, true, true, insn, here, cpu),
        Mnemonic::Cmpl => compare_long(bus, insn, here, cpu),
        Mnemonic::Ld => load(bus, false, insn, here, cpu),
        Mnemonic::Ldb => load(bus, true, insn, here, cpu),
        Mnemonic::Ldbze => load_zeros(bus, insn, here, cpu),
        Mnemonic::Ldbse => load_sign(bus, insn, here, cpu),
        Mnemonic::St => store(bus, false, insn, here, cpu),
        Mnemonic::Stb => store(bus, true, insn, here, cpu),
        Mnemonic::Xch => exchange(bus, false, insn, here, cpu),
        Mnemonic::Xchb => exchange(bus, true, insn, here, cpu),
        Mnemonic::Push => push(bus, insn, here, cpu),
        Mnemonic::Pop => pop(bus, insn, here, cpu),
        Mnemonic::Sjmp | Mnemonic::Ljmp => go(bus, insn, here, cpu),
        Mnemonic::Scall | Mnemonic::Lcall => call(bus, insn, here, cpu),
        Mnemonic::Ret => come_back(bus, insn, here, cpu),
        Mnemonic::Jbs => go_on_bit(bus, true, insn, here, cpu),
        Mnemonic::Jbc => go_on_bit(bus, false, insn, here, cpu),
        Mnemonic::Djnz => count_down(bus, true, insn, here, cpu),
        Mnemonic::Djnzw => count_down(bus, false, insn, here, cpu),
        Mnemonic::Br => go_by_register(bus, insn, here, cpu),
        Mnemonic::Tijmp => go_by_table(bus, insn, here, cpu),
        Mnemonic::Jst => go_where(bus, Test::Sticky, true, insn, here, cpu),
        Mnemonic::Jnst => go_where(bus, Test::Sticky, false, insn, here, cpu),
        Mnemonic::Jh => go_where(bus, Test::Higher, true, insn, here, cpu),
        Mnemonic::Jnh => go_where(bus, Test::Higher, false, insn, here, cpu),
        Mnemonic::Jle => go_where(bus, Test::LessOrEqual, true, insn, here, cpu),
        Mnemonic::Jgt => go_where(bus, Test::LessOrEqual, false, insn, here, cpu),
        Mnemonic::Jc => go_where(bus, Test::Carry, true, insn, here, cpu),
        Mnemonic::Jnc => go_where(bus, Test::Carry, false, insn, here, cpu),
        Mnemonic::Jvt => go_where(bus, Test::OverflowTrap, true, insn, here, cpu),
        Mnemonic::Jnvt => go_where(bus, Test::OverflowTrap, false, insn, here, cpu),
        Mnemonic::Jv => go_where(bus, Test::Overflow, true, insn, here, cpu),
        Mnemonic::Jnv => go_where(bus, Test::Overflow, false, insn, here, cpu),
        Mnemonic::Jlt => go_where(bus, Test::Less, true, insn, here, cpu),
        Mnemonic::Jge => go_where(bus, Test::Less, false, insn, here, cpu),
        Mnemonic::Je => go_where(bus, Test::Equal, true, insn, here, cpu),
        Mnemonic::Jne => go_where(bus, Test::Equal, false, insn, here, cpu),
        Mnemonic::Pushf => save(bus, Saving::PushStatus, insn, here, cpu),
        Mnemonic::Popf => save(bus, Saving::PopStatus, insn, here, cpu),
        Mnemonic::Pusha => save(bus, Saving::PushAll, insn, here, cpu),
        Mnemonic::Popa => save(bus, Saving::PopAll, insn, here, cpu),
        Mnemonic::Clrc => set(bus, Setting::Carry(false), insn, here, cpu),
        Mnemonic::Setc => set(bus, Setting::Carry(true), insn, here, cpu),
        Mnemonic::Clrvt => set(bus, Setting::NoOverflowTrap, insn, here, cpu),
        _ => set(bus, Setting::Nothing, insn, here, cpu),
    }
}

// Performs a predecoded instruction out of line, where a window may be open.
#[cold]
#[inline(never)]
fn perform_in_window<B: Bus>(
    mnemonic: Mnemonic,
    insn: &Insn,
    here: Here,
    cpu: &mut Cpu,
    bus: &mut B,
) -> Result<bool, Kind>
    requires free { is_free (plan_of mnemonic) ≡ true }
    requires next { here.next ≡ next_pc insn.now cpu.old.pc }
    ensures effect { GoesOn result cpu.old cpu.new (B.held bus.new) (run B.meaning (planned (plan_of mnemonic) insn.now here.wsr cpu.old) (B.held bus.old)) }
    ensures count { KeepsCount B.spent B.held B.allowed B.lent bus.old bus.new }
{
    perform_row(mnemonic, insn, here, cpu, bus)
}

// Performs a predecoded instruction with WSR asked once, which chooses the way: in line where no window is open.
#[inline(always)]
fn perform_here<B: Bus>(
    mnemonic: Mnemonic,
    insn: &Insn,
    here: Here,
    cpu: &mut Cpu,
    bus: &mut B,
) -> Result<bool, Kind>
    requires free { is_free (plan_of mnemonic) ≡ true }
    requires next { here.next ≡ next_pc insn.now cpu.old.pc }
    ensures effect { GoesOn result cpu.old cpu.new (B.held bus.new) (run B.meaning (planned (plan_of mnemonic) insn.now here.wsr cpu.old) (B.held bus.old)) }
    ensures count { KeepsCount B.spent B.held B.allowed B.lent bus.old bus.new }
{
    if here.wsr == 0 {
        perform_row(mnemonic, insn, here, cpu, bus)
    } else {
        Ok(perform_in_window(mnemonic, insn, here, cpu, bus)?)
    }
}

/// Performs a predecoded instruction at `cpu.pc` after which the program goes on; answers whether an instruction has to follow,
/// or any activity may. After a refusal the bus is as after the accesses before the refused one, and the registers are as before.
#[inline(always)]
#[tactic(auto, unfolding(kc_exec_spec::specs::Effects::effect_of, crate::specs::Predecoding::predecoded_of))]
pub fn perform_predecoded<B: Bus>(
    predecoded: &Predecoded,
    cpu: &mut Cpu,
    bus: &mut B,
) -> Result<bool, Kind>
    requires predecoded { IsPredecoded predecoded.now }
    requires free { is_free (plan_of predecoded.now.mnemonic) ≡ true }
    ensures effect { GoesOn result cpu.old cpu.new (B.held bus.new) (run B.meaning (effect_of predecoded.now.insn cpu.old) (B.held bus.old)) }
    ensures count { KeepsCount B.spent B.held B.allowed B.lent bus.old bus.new }
{
    let here = Here {
        next: cpu.pc.wrapping_add(u16::from(predecoded.length)),
        wsr: bus.masks().wsr,
    };
    perform_here(predecoded.mnemonic, &predecoded.insn, here, cpu, bus)
}
