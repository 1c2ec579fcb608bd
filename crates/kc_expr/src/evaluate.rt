ghost use Rattle.std.specs.Prelude.{◌≡◌, ◌*◌, ◌/◌, ◌%◌, ◌^◌, ℕ, List};
ghost use Rattle.kc_expr.specs.Tree.{tree_of};
ghost use Rattle.kc_expr.specs.Meaning as meaning;
ghost use Rattle.kc_expr.specs.Meaning.{Answer, answer, answer_by, name_answer, IsAnswerAt, plain, number_answer, chars_answer, found, same_base, truth, unary_number, binary_number, divided, moved, moved_to, distance, on_one, on_two, binary_answer};

use crate::expr::{Binary, Expr, Unary};
use crate::symbols::Symbols;
use crate::values::{Base, NoValue, Tag, Value};
use kc_lex::{SourceCode, SourceFault};

/// The value of an expression over the symbols, modulo 65536, or the least code of its faults, at the line: 7 where a
/// name has no value, 9 where a number does not fit 16 bits, 11 at a division by 0, 13 at arithmetic on places.
pub fn value(expr: &Expr, symbols: &Symbols, line: u32) -> Result<Value, SourceFault>
    ensures { IsAnswerAt line (answer (tree_of expr.now) symbols.now) result }
{
    match value_over(expr, symbols) {
        Ok(value) => Ok(value),
        Err(NoValue::Fault(code)) => Err(SourceFault::At {
            line,
            code: code.number(),
        }),
        Err(NoValue::ReportedElsewhere) => unreachable!(),
    }
}

/// What names mean where an expression stands: each answers a value, or why it has none.
pub trait Scope {
    ghost answers: { Self → List ℕ → Answer };

    fn look(&self, name: &[u8]) -> Result<Value, NoValue>
        ensures { result ≡ answers self.now name.now };
}

impl Scope for Symbols {
    ghost answers = { name_answer };

    fn look(&self, name: &[u8]) -> Result<Value, NoValue> {
        known(Symbols::look(self, name))
    }
}

/// The value of an expression over what its names answer, or the one of its faults that has the least code; a fault that is
/// reported elsewhere only where it has no other.
#[tactic(auto, unfolding(crate::specs::Meaning::answer_by))]
pub fn value_over<S: Scope>(expr: &Expr, names: &S) -> Result<Value, NoValue>
    ensures { result ≡ answer_by (S.answers names.now) (tree_of expr.now) }
{
    match expr {
        Expr::Number(n) => number(*n),
        Expr::Chars(text) => chars(text.as_slice()),
        Expr::Name(name) => names.look(name.as_slice()),
        Expr::Here => names.look(b"$"),
        Expr::Unary(op, e) => {
            let value = value_over(e, names)?;
            one(*op, value)
        }
        Expr::Binary(op, a, b) => {
            let left = value_over(a, names);
            let right = value_over(b, names);
            both(*op, left, right)
        }
    }
}

/// A number that counts from nothing.
pub fn fixed(number: u16) -> Value
    ensures { result ≡ plain number }
{
    Value {
        base: Base::Fixed,
        tag: Tag::Memory,
        number,
    }
}

/// Whether a value counts from nothing: its number is known before anything is placed.
pub fn is_fixed(base: Base) -> bool
    ensures { result ≡ meaning.is_fixed base }
{
    matches!(base, Base::Fixed)
}

fn number(n: u32) -> Result<Value, NoValue>
    ensures { result ≡ number_answer n }
{
    if n < 65536 {
        Ok(fixed(n as u16))
    } else {
        Err(NoValue::Fault(SourceCode::BadNumber))
    }
}

fn chars(text: &[u8]) -> Result<Value, NoValue>
    ensures { result ≡ chars_answer text.now }
{
    match text {
        [low] => Ok(fixed(u16::from(*low))),
        [high, low] => Ok(fixed(256 * u16::from(*high) + u16::from(*low))),
        _ => Err(NoValue::Fault(SourceCode::BadNumber)),
    }
}

fn known(value: Option<Value>) -> Result<Value, NoValue>
    ensures { result ≡ found value }
{
    value.ok_or(NoValue::Fault(SourceCode::NotDefined))
}

#[tactic(auto, unfolding(crate::specs::Meaning::on_one))]
fn one(op: Unary, value: Value) -> Result<Value, NoValue>
    ensures { result ≡ on_one op value }
{
    if value.base == Base::Fixed {
        Ok(fixed(under_one(op, value.number)))
    } else {
        Err(NoValue::Fault(SourceCode::NotRelocatable))
    }
}

#[tactic(auto, unfolding(crate::specs::Meaning::unary_number))]
fn under_one(op: Unary, n: u16) -> u16
    ensures { result ≡ unary_number op n }
{
    match op {
        Unary::Low => n % 256,
        Unary::High => n / 256,
        Unary::Plus => n,
        Unary::Minus => n.wrapping_neg(),
        Unary::Not => !n,
    }
}

#[tactic(auto, unfolding(crate::specs::Meaning::binary_answer))]
fn both(
    op: Binary,
    left: Result<Value, NoValue>,
    right: Result<Value, NoValue>,
) -> Result<Value, NoValue>
    ensures { result ≡ binary_answer op left right }
{
    if divides_by_zero(op, right) {
        by_zero(left)
    } else {
        parts(op, left, right)
    }
}

fn is_division(op: Binary) -> bool
    ensures { result ≡ meaning.is_division op }
{
    match op {
        Binary::Over | Binary::Mod => true,
        _ => false,
    }
}

fn divides_by_zero(op: Binary, right: Result<Value, NoValue>) -> bool
    ensures { result ≡ meaning.divides_by_zero op right }
{
    match right {
        Ok(value) => is_division(op) && value.base == Base::Fixed && value.number == 0,
        Err(_) => false,
    }
}

// Of two faults the one of the lesser code.
fn lesser(first: NoValue, second: NoValue) -> NoValue
    ensures { result ≡ meaning.lesser first second }
{
    match (first, second) {
        (NoValue::Fault(a), NoValue::Fault(b)) => NoValue::Fault(a.lesser(b)),
        (NoValue::Fault(_), NoValue::ReportedElsewhere) => first,
        (NoValue::ReportedElsewhere, other) => other,
    }
}

fn by_zero(left: Result<Value, NoValue>) -> Result<Value, NoValue>
    ensures { result ≡ meaning.by_zero left }
{
    match left {
        Ok(_) => Err(NoValue::Fault(SourceCode::DivisionByZero)),
        Err(fault) => Err(lesser(fault, NoValue::Fault(SourceCode::DivisionByZero))),
    }
}

fn parts(
    op: Binary,
    left: Result<Value, NoValue>,
    right: Result<Value, NoValue>,
) -> Result<Value, NoValue>
    ensures { result ≡ meaning.parts_answer op left right }
{
    match left {
        Ok(a) => match right {
            Ok(b) => two(op, a, b),
            Err(fault) => Err(fault),
        },
        Err(fault) => match right {
            Ok(_) => Err(fault),
            Err(other) => Err(lesser(fault, other)),
        },
    }
}

#[tactic(auto, unfolding(crate::specs::Meaning::on_two))]
fn two(op: Binary, a: Value, b: Value) -> Result<Value, NoValue>
    ensures { result ≡ on_two op a b }
{
    if a.base == Base::Fixed {
        if b.base == Base::Fixed {
            match under_two(op, a.number, b.number) {
                Some(number) => Ok(fixed(number)),
                None => Err(NoValue::Fault(SourceCode::DivisionByZero)),
            }
        } else {
            place_after(op, b, a.number)
        }
    } else if b.base == Base::Fixed {
        place_moved(op, a, b.number)
    } else {
        between(op, a, b)
    }
}

fn place_after(op: Binary, place: Value, by: u16) -> Result<Value, NoValue>
    ensures { result ≡ moved_to op place by }
{
    match op {
        Binary::Plus => Ok(Value {
            base: place.base,
            tag: place.tag,
            number: place.number.wrapping_add(by),
        }),
        _ => Err(NoValue::Fault(SourceCode::NotRelocatable)),
    }
}

fn place_moved(op: Binary, place: Value, by: u16) -> Result<Value, NoValue>
    ensures { result ≡ moved op place by }
{
    match op {
        Binary::Plus => Ok(Value {
            base: place.base,
            tag: place.tag,
            number: place.number.wrapping_add(by),
        }),
        Binary::Minus => Ok(Value {
            base: place.base,
            tag: place.tag,
            number: place.number.wrapping_sub(by),
        }),
        _ => Err(NoValue::Fault(SourceCode::NotRelocatable)),
    }
}

fn between(op: Binary, a: Value, b: Value) -> Result<Value, NoValue>
    ensures { result ≡ distance op a b }
{
    match op {
        Binary::Minus => {
            if is_one_base(a.base, b.base) {
                Ok(Value {
                    base: Base::Absolute,
                    tag: Tag::Memory,
                    number: a.number.wrapping_sub(b.number),
                })
            } else {
                Err(NoValue::Fault(SourceCode::NotRelocatable))
            }
        }
        _ => Err(NoValue::Fault(SourceCode::NotRelocatable)),
    }
}

// Both are places, and of one base.
fn is_one_base(a: Base, b: Base) -> bool
    ensures { result ≡ same_base a b }
{
    match (a, b) {
        (Base::Absolute, Base::Absolute) => true,
        (Base::Piece(m), Base::Piece(n)) => m == n,
        (Base::External(m), Base::External(n)) => m == n,
        _ => false,
    }
}

fn truth_number(b: bool) -> u16
    ensures { result ≡ truth b }
{
    if b { 65535 } else { 0 }
}

#[tactic(auto, unfolding(crate::specs::Meaning::binary_number))]
fn under_two(op: Binary, a: u16, b: u16) -> Option<u16>
    ensures { result ≡ binary_number op a b }
{
    match op {
        Binary::Times => Some(a.wrapping_mul(b)),
        Binary::Over => a.checked_div(b),
        Binary::Mod => a.checked_rem(b),
        Binary::Shl => Some(shifted_left(a, b)),
        Binary::Shr => Some(shifted_right(a, b)),
        Binary::Plus => Some(a.wrapping_add(b)),
        Binary::Minus => Some(a.wrapping_sub(b)),
        Binary::Eq => Some(truth_number(a == b)),
        Binary::Ne => Some(truth_number(a != b)),
        Binary::Lt => Some(truth_number(a < b)),
        Binary::Le => Some(truth_number(a <= b)),
        Binary::Gt => Some(truth_number(a > b)),
        Binary::Ge => Some(truth_number(a >= b)),
        Binary::And => Some(a & b),
        Binary::Or => Some(a | b),
        Binary::Xor => Some(a ^ b),
    }
}

fn shifted_left(a: u16, by: u16) -> u16
    ensures { result ≡ a * 2 ^ by % 65536 }
{
    if by < 16 {
        let wide = u32::from(a) << u32::from(by);
        (wide % 65536) as u16
    } else {
        0
    }
}

fn shifted_right(a: u16, by: u16) -> u16
    ensures { result ≡ a / 2 ^ by }
{
    if by < 16 { a >> by } else { 0 }
}
