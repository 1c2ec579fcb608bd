//! One branch: its length and its reach in each form.

ghost use Rattle.std.specs.Prelude.{◌≡◌, ◌+ℤ◌, ◌-ℤ◌, pos, ◌≤◌, ◌^◌};
ghost use Rattle.kc_branch.specs.Forms as spec;
ghost use Rattle.kc_branch.specs.Layouts as layouts;

use crate::piece::{BranchKind, Form};

// The length in bytes.
pub(crate) fn size(kind: BranchKind, form: Form) -> u8
    ensures value { result ≡ spec.size kind form }
    ensures bound { result ≤ 6 }
{
    match (kind, form) {
        (BranchKind::Jump | BranchKind::Call, Form::First) => 2,
        (BranchKind::Jump | BranchKind::Call, Form::Second | Form::Third) => 3,
        (BranchKind::Conditional, Form::First) => 2,
        (BranchKind::Conditional, Form::Second) => 4,
        (BranchKind::Conditional, Form::Third) => 5,
        (BranchKind::BitTest, Form::First) => 3,
        (BranchKind::BitTest, Form::Second) => 5,
        (BranchKind::BitTest, Form::Third) => 6,
    }
}

/// The length of a generic branch in a form, in bytes. (80C196KC User's Manual, "Jump and Call Instructions".)
pub fn branch_length(kind: BranchKind, form: Form) -> u16
    ensures { result ≡ spec.size kind form }
{
    u16::from(size(kind, form))
}

fn is_byte(away: i128) -> bool
    ensures { result ≡ spec.is_byte away }
{
    -128 <= away && away <= 127
}

fn is_eleven_bits(away: i128) -> bool
    ensures { result ≡ spec.is_eleven_bits away }
{
    -1024 <= away && away <= 1023
}

// Whether a form reaches so far from the end of the branch.
pub(crate) fn spans(kind: BranchKind, form: Form, away: i128) -> bool
    ensures { result ≡ spec.spans kind form away }
{
    match (kind, form) {
        (BranchKind::Jump | BranchKind::Call, Form::First) => is_eleven_bits(away),
        (BranchKind::Conditional | BranchKind::BitTest, Form::First) => is_byte(away),
        (BranchKind::Conditional | BranchKind::BitTest, Form::Second) => is_eleven_bits(away),
        _ => true,
    }
}

// Whether a form reaches any place.
pub(crate) fn is_free(kind: BranchKind, form: Form) -> bool
    ensures { result ≡ layouts.is_free kind form }
{
    match (kind, form) {
        (BranchKind::Jump | BranchKind::Call, Form::First) => false,
        (BranchKind::Conditional | BranchKind::BitTest, Form::First | Form::Second) => false,
        _ => true,
    }
}

pub(crate) fn longer(form: Form) -> Form
    ensures { result ≡ spec.longer form }
{
    match form {
        Form::First => Form::Second,
        Form::Second | Form::Third => Form::Third,
    }
}

// How far a target is from the end of a branch.
pub(crate) fn away(to: u128, distance: i16, end: u128) -> i128
    requires start { to ≤ 2 ^ 80 }
    requires end { end ≤ 2 ^ 80 }
    ensures { result ≡ ((pos to +ℤ distance) -ℤ pos end) }
{
    to as i128 + i128::from(distance) - end as i128
}
