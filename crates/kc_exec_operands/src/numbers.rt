ghost use Rattle.std.specs.Prelude.{◌≡◌, ◌+◌, ◌-◌, ◌*◌, ◌^◌, ◌≤◌, ◌<◌, IfOk, false, bit_and, bit_or, bit_xor};
ghost use Rattle.kc_alu.specs.Width.{IsWidth, IsHalfWidth, half_of};
ghost use Rattle.kc_alu.specs.Arithmetic.{carry_in, borrow_in, sum_result, sum_flags, difference_result, difference_flags, logic_flags};
ghost use Rattle.kc_alu.specs.Products.{long_half, product, spread, divided};
ghost use Rattle.kc_alu.specs.Shifts.{shifted, shifted_flags};
ghost use Rattle.kc_exec_spec.specs.Parts.{limit, double_limit, sized_limit, bits, doubled};
ghost use Rattle.kc_exec_spec.specs.Operations.{width, computed, computed_flags, complement, altered, altered_flags};

use kc_alu::{Flags, Shift, add, div, extend, logic, mul, shift, sub};
use kc_base::Kind;
use kc_exec_spec::{Alteration, Operation, Size};

#[inline(always)]
#[tactic(auto, unfolding(kc_alu::specs::Width::half_of))]
fn width_of(byte: bool) -> u8
    ensures width { result ≡ width byte }
    ensures limit { limit byte ≡ 2 * half_of result }
    ensures double { sized_limit (doubled byte) ≡ 2 * long_half (half_of result) }
    ensures known { IsHalfWidth result }
{
    if byte { 8 } else { 16 }
}

#[inline(always)]
#[tactic(auto, unfolding(kc_alu::specs::Width::half_of))]
fn bits_of(size: Size) -> u8
    ensures width { result ≡ bits size }
    ensures limit { sized_limit size ≡ 2 * half_of result }
    ensures known { IsWidth result }
{
    match size {
        Size::Byte => 8,
        Size::Word => 16,
        Size::Long => 32,
    }
}

/// The result of an operation, and the flags.
#[inline(always)]
#[tactic(auto, unfolding(kc_exec_spec::specs::Operations::computed, kc_exec_spec::specs::Operations::computed_flags))]
pub fn combine(op: Operation, byte: bool, a: u16, s: u16, flags: Flags) -> (u16, Flags)
    requires a { a < limit byte }
    requires s { s < limit byte }
    ensures value { result.0 ≡ computed op (half_of (width byte)) a s flags }
    ensures flags { result.1 ≡ computed_flags op (half_of (width byte)) a s flags }
{
    match op {
        Operation::Add => sum(byte, a, s, false, flags),
        Operation::AddCarry => sum(byte, a, s, true, flags),
        Operation::Sub | Operation::Compare => difference(byte, a, s, false, flags),
        Operation::SubBorrow => difference(byte, a, s, true, flags),
        Operation::And => checked(byte, and(byte, a, s), flags),
        Operation::Or => checked(byte, or(byte, a, s), flags),
        Operation::Xor => checked(byte, xor(byte, a, s), flags),
    }
}

/// A changed number, and the flags.
#[inline(always)]
#[tactic(auto, unfolding(kc_exec_spec::specs::Operations::altered, kc_exec_spec::specs::Operations::altered_flags))]
pub fn change(how: Alteration, byte: bool, n: u16, flags: Flags) -> (u16, Flags)
    requires { n < limit byte }
    ensures value { result.0 ≡ altered how (half_of (width byte)) n flags }
    ensures flags { result.1 ≡ altered_flags how (half_of (width byte)) n flags }
{
    match how {
        Alteration::Clear => checked(byte, 0, flags),
        Alteration::Complement => checked(byte, complement(byte, n), flags),
        Alteration::Negate => difference(byte, 0, n, false, flags),
        Alteration::Increment => sum(byte, n, 1, false, flags),
        Alteration::Decrement => difference(byte, n, 1, false, flags),
    }
}

#[inline(always)]
fn sum(byte: bool, a: u16, s: u16, chained: bool, flags: Flags) -> (u16, Flags)
    requires a { a < limit byte }
    requires s { s < limit byte }
    ensures value { result.0 ≡ sum_result (half_of (width byte)) a s (carry_in chained flags) }
    ensures flags { result.1 ≡ sum_flags (half_of (width byte)) a s (carry_in chained flags) chained flags }
{
    let (value, flags) = add(width_of(byte), u32::from(a), u32::from(s), chained, flags);
    (value as u16, flags)
}

#[inline(always)]
fn difference(byte: bool, a: u16, s: u16, chained: bool, flags: Flags) -> (u16, Flags)
    requires a { a < limit byte }
    requires s { s < limit byte }
    ensures value { result.0 ≡ difference_result (half_of (width byte)) a s (borrow_in chained flags) }
    ensures flags { result.1 ≡ difference_flags (half_of (width byte)) a s (borrow_in chained flags) chained flags }
{
    let (value, flags) = sub(width_of(byte), u32::from(a), u32::from(s), chained, flags);
    (value as u16, flags)
}

#[inline(always)]
fn checked(byte: bool, value: u16, flags: Flags) -> (u16, Flags)
    requires { value < limit byte }
    ensures value { result.0 ≡ value }
    ensures flags { result.1 ≡ logic_flags (half_of (width byte)) value flags }
{
    (value, logic(width_of(byte), u32::from(value), flags))
}

#[inline(always)]
#[tactic(auto, unfolding(kc_alu::specs::Width::half_of))]
fn complement(byte: bool, n: u16) -> u16
    requires { n < limit byte }
    ensures value { result ≡ complement (half_of (width byte)) n }
    ensures bound { result < limit byte }
{
    if byte { 0xFF - n } else { 0xFFFF - n }
}

#[inline(always)]
fn and(byte: bool, a: u16, s: u16) -> u16
    requires a { a < limit byte }
    requires s { s < limit byte }
    ensures value { result ≡ bit_and a s }
    ensures bound { result < limit byte }
{
    if byte {
        u16::from(a as u8 & s as u8)
    } else {
        a & s
    }
}

#[inline(always)]
fn or(byte: bool, a: u16, s: u16) -> u16
    requires a { a < limit byte }
    requires s { s < limit byte }
    ensures value { result ≡ bit_or a s }
    ensures bound { result < limit byte }
{
    if byte {
        u16::from(a as u8 | s as u8)
    } else {
        a | s
    }
}

#[inline(always)]
fn xor(byte: bool, a: u16, s: u16) -> u16
    requires a { a < limit byte }
    requires s { s < limit byte }
    ensures value { result ≡ bit_xor a s }
    ensures bound { result < limit byte }
{
    if byte {
        u16::from(a as u8 ^ s as u8)
    } else {
        a ^ s
    }
}

/// The sign of a number over twice its width, and the flags.
#[inline(always)]
pub fn spread_low(byte: bool, low: u16, flags: Flags) -> (u32, Flags)
    requires { low < limit byte }
    ensures value { result.0 ≡ spread (half_of (width byte)) low }
    ensures flags { result.1 ≡ logic_flags (long_half (half_of (width byte))) (spread (half_of (width byte)) low) flags }
    ensures bound { result.0 < sized_limit (doubled byte) }
{
    extend(width_of(byte), u32::from(low), flags)
}

/// A number shifted by a count, and the flags.
#[inline(always)]
pub fn shift_number(how: Shift, size: Size, n: u32, count: u8, flags: Flags) -> (u32, Flags)
    requires n { n < sized_limit size }
    requires count { count ≤ 31 }
    ensures value { result.0 ≡ shifted how (half_of (bits size)) n (2 ^ count) }
    ensures flags { result.1 ≡ shifted_flags how (half_of (bits size)) n (2 ^ count) flags }
    ensures bound { result.0 < sized_limit size }
{
    shift(how, bits_of(size), n, count, flags)
}

/// The product of two numbers, of twice their width.
#[inline(always)]
pub fn times(with_sign: bool, byte: bool, a: u16, b: u16) -> u32
    requires a { a < limit byte }
    requires b { b < limit byte }
    ensures value { result ≡ product (half_of (width byte)) with_sign a b }
    ensures bound { result < sized_limit (doubled byte) }
{
    mul(width_of(byte), with_sign, u32::from(a), u32::from(b))
}

/// A number of twice the width by one of the width; quotient and remainder, and the flags.
#[inline(always)]
pub fn share(
    with_sign: bool,
    byte: bool,
    n: u32,
    s: u16,
    flags: Flags,
) -> Result<(u32, Flags), Kind>
    requires n { n < sized_limit (doubled byte) }
    requires s { s < limit byte }
    ensures value { result ≡ divided (half_of (width byte)) with_sign n s flags }
    ensures bound { IfOk result (λ r. r.0 < sized_limit (doubled byte)) }
{
    div(width_of(byte), with_sign, n, u32::from(s), flags)
}

/// The flags of a long number less another.
#[inline(always)]
#[tactic(auto, unfolding(kc_alu::specs::Width::half_of))]
pub fn compare_longs(n: u32, s: u32, flags: Flags) -> Flags
    ensures { result ≡ difference_flags (half_of 32) n s (borrow_in false flags) false flags }
{
    let (_, flags) = sub(32, n, s, false, flags);
    flags
}
