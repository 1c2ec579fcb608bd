ghost use Rattle.std.specs.Prelude.{◌≡◌, IfSome, IfNone, false};
ghost use Rattle.kc_exec_spec.specs.Plans.{plan_of};
ghost use Rattle.kc_exec.specs.Groups.{is_operation, is_other_computation, is_movement, is_route};

use kc_alu::Shift;
use kc_exec_spec::{
    Alteration, Computation, Movement, Operation, Plan, Route, Saving, Setting, Size, Test,
};
use kc_isa::Mnemonic;

// Two numbers of a width.
fn operation(mnemonic: Mnemonic) -> Option<Plan>
    ensures found { IfSome result (λ p. p ≡ plan_of mnemonic) }
    ensures none { IfNone result (is_operation (plan_of mnemonic) ≡ false) }
{
    let (op, byte) = match mnemonic {
        Mnemonic::Add => (Operation::Add, false),
        Mnemonic::Addb => (Operation::Add, true),
        Mnemonic::Addc => (Operation::AddCarry, false),
        Mnemonic::Addcb => (Operation::AddCarry, true),
        Mnemonic::Sub => (Operation::Sub, false),
        Mnemonic::Subb => (Operation::Sub, true),
        Mnemonic::Subc => (Operation::SubBorrow, false),
        Mnemonic::Subcb => (Operation::SubBorrow, true),
        Mnemonic::Cmp => (Operation::Compare, false),
        Mnemonic::Cmpb => (Operation::Compare, true),
        Mnemonic::And => (Operation::And, false),
        Mnemonic::Andb => (Operation::And, true),
        Mnemonic::Or => (Operation::Or, false),
        Mnemonic::Orb => (Operation::Or, true),
        Mnemonic::Xor => (Operation::Xor, false),
        Mnemonic::Xorb => (Operation::Xor, true),
        _ => return None,
    };
    Some(Plan::Compute(Computation::Operate(op, byte)))
}

// One number, or two with a result of twice the width.
fn computation(mnemonic: Mnemonic) -> Option<Plan>
    ensures found { IfSome result (λ p. p ≡ plan_of mnemonic) }
    ensures none { IfNone result (is_other_computation (plan_of mnemonic) ≡ false) }
{
    let how = match mnemonic {
        Mnemonic::Clr => Computation::Alter(Alteration::Clear, false),
        Mnemonic::Clrb => Computation::Alter(Alteration::Clear, true),
        Mnemonic::Not => Computation::Alter(Alteration::Complement, false),
        Mnemonic::Notb => Computation::Alter(Alteration::Complement, true),
        Mnemonic::Neg => Computation::Alter(Alteration::Negate, false),
        Mnemonic::Negb => Computation::Alter(Alteration::Negate, true),
        Mnemonic::Inc => Computation::Alter(Alteration::Increment, false),
        Mnemonic::Incb => Computation::Alter(Alteration::Increment, true),
        Mnemonic::Dec => Computation::Alter(Alteration::Decrement, false),
        Mnemonic::Decb => Computation::Alter(Alteration::Decrement, true),
        Mnemonic::Ext => Computation::Extend(false),
        Mnemonic::Extb => Computation::Extend(true),
        Mnemonic::Shl => Computation::Shift(Shift::Left, Size::Word),
        Mnemonic::Shlb => Computation::Shift(Shift::Left, Size::Byte),
        Mnemonic::Shll => Computation::Shift(Shift::Left, Size::Long),
        Mnemonic::Shr => Computation::Shift(Shift::Right, Size::Word),
        Mnemonic::Shrb => Computation::Shift(Shift::Right, Size::Byte),
        Mnemonic::Shrl => Computation::Shift(Shift::Right, Size::Long),
        Mnemonic::Shra => Computation::Shift(Shift::Signed, Size::Word),
        Mnemonic::Shrab => Computation::Shift(Shift::Signed, Size::Byte),
        Mnemonic::Shral => Computation::Shift(Shift::Signed, Size::Long),
        Mnemonic::Norml => Computation::Normalize,
        Mnemonic::Mulu => Computation::Multiply(false, false),
        Mnemonic::Mulub => Computation::Multiply(false, true),
        Mnemonic::Mul => Computation::Multiply(true, false),
        Mnemonic::Mulb => Computation::Multiply(true, true),
        Mnemonic::Divu => Computation::Divide(false, false),
        Mnemonic::Divub => Computation::Divide(false, true),
        Mnemonic::Div => Computation::Divide(true, false),
        Mnemonic::Divb => Computation::Divide(true, true),
        Mnemonic::Cmpl => Computation::CompareLong,
        _ => return None,
    };
    Some(Plan::Compute(how))
}

// Loads, stores, exchanges, PUSH and POP.
fn movement(mnemonic: Mnemonic) -> Option<Plan>
    ensures found { IfSome result (λ p. p ≡ plan_of mnemonic) }
    ensures none { IfNone result (is_movement (plan_of mnemonic) ≡ false) }
{
    let how = match mnemonic {
        Mnemonic::Ld => Movement::Load(false),
        Mnemonic::Ldb => Movement::Load(true),
        Mnemonic::Ldbze => Movement::ZeroExtend,
        Mnemonic::Ldbse => Movement::SignExtend,
        Mnemonic::St => Movement::Store(false),
        Mnemonic::Stb => Movement::Store(true),
        Mnemonic::Xch => Movement::Exchange(false),
        Mnemonic::Xchb => Movement::Exchange(true),
        Mnemonic::Push => Movement::Push,
        Mnemonic::Pop => Movement::Pop,
        _ => return None,
    };
    Some(Plan::Move(how))
}

// Jumps, calls and returns.
fn route(mnemonic: Mnemonic) -> Option<Plan>
    ensures found { IfSome result (λ p. p ≡ plan_of mnemonic) }
    ensures none { IfNone result (is_route (plan_of mnemonic) ≡ false) }
{
    let route = match mnemonic {
        Mnemonic::Sjmp | Mnemonic::Ljmp => Route::Always,
        Mnemonic::Br => Route::Register,
        Mnemonic::Tijmp => Route::Table,
        Mnemonic::Scall | Mnemonic::Lcall => Route::Call,
        Mnemonic::Ret => Route::Return,
        Mnemonic::Jst => Route::When(Test::Sticky, true),
        Mnemonic::Jnst => Route::When(Test::Sticky, false),
        Mnemonic::Jh => Route::When(Test::Higher, true),
        Mnemonic::Jnh => Route::When(Test::Higher, false),
        Mnemonic::Jle => Route::When(Test::LessOrEqual, true),
        Mnemonic::Jgt => Route::When(Test::LessOrEqual, false),
        Mnemonic::Jc => Route::When(Test::Carry, true),
        Mnemonic::Jnc => Route::When(Test::Carry, false),
        Mnemonic::Jvt => Route::When(Test::OverflowTrap, true),
        Mnemonic::Jnvt => Route::When(Test::OverflowTrap, false),
        Mnemonic::Jv => Route::When(Test::Overflow, true),
        Mnemonic::Jnv => Route::When(Test::Overflow, false),
        Mnemonic::Jlt => Route::When(Test::Less, true),
        Mnemonic::Jge => Route::When(Test::Less, false),
        Mnemonic::Je => Route::When(Test::Equal, true),
        Mnemonic::Jne => Route::When(Test::Equal, false),
        Mnemonic::Jbs => Route::Bit(true),
        Mnemonic::Jbc => Route::Bit(false),
        Mnemonic::Djnz => Route::CountDown(true),
        Mnemonic::Djnzw => Route::CountDown(false),
        _ => return None,
    };
    Some(Plan::Jump(route))
}

// What stands in no other group.
fn control(mnemonic: Mnemonic) -> Plan
    requires operation { is_operation (plan_of mnemonic) ≡ false }
    requires computation { is_other_computation (plan_of mnemonic) ≡ false }
    requires movement { is_movement (plan_of mnemonic) ≡ false }
    requires route { is_route (plan_of mnemonic) ≡ false }
    ensures { result ≡ plan_of mnemonic }
{
    match mnemonic {
        Mnemonic::Pushf => Plan::Save(Saving::PushStatus),
        Mnemonic::Popf => Plan::Save(Saving::PopStatus),
        Mnemonic::Pusha => Plan::Save(Saving::PushAll),
        Mnemonic::Popa => Plan::Save(Saving::PopAll),
        Mnemonic::Clrc => Plan::Set(Setting::Carry(false)),
        Mnemonic::Setc => Plan::Set(Setting::Carry(true)),
        Mnemonic::Di => Plan::Set(Setting::Interrupts(false)),
        Mnemonic::Ei => Plan::Set(Setting::Interrupts(true)),
        Mnemonic::Dpts => Plan::Set(Setting::Transfers(false)),
        Mnemonic::Epts => Plan::Set(Setting::Transfers(true)),
        Mnemonic::Clrvt => Plan::Set(Setting::NoOverflowTrap),
        Mnemonic::Nop | Mnemonic::Skip => Plan::Set(Setting::Nothing),
        Mnemonic::Bmov => Plan::BlockMove(false),
        Mnemonic::Bmovi => Plan::BlockMove(true),
        Mnemonic::Trap => Plan::Trap,
        Mnemonic::Idlpd => Plan::Idle,
        _ => Plan::Reset,
    }
}

/// The kind of work of an instruction.
pub fn make_plan(mnemonic: Mnemonic) -> Plan
    ensures { result ≡ plan_of mnemonic }
{
    if let Some(plan) = operation(mnemonic) {
        return plan;
    }
    if let Some(plan) = computation(mnemonic) {
        return plan;
    }
    if let Some(plan) = movement(mnemonic) {
        return plan;
    }
    if let Some(plan) = route(mnemonic) {
        return plan;
    }
    control(mnemonic)
}
