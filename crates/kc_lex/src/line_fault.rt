ghost use Rattle.std.specs.Prelude.{◌≡◌};
ghost use Rattle.kc_lex.specs.LineFaults as spec;

use std::marker::Model;

/// A fault of a source: its line, from 1, and its code.
#[derive(Clone, Copy, PartialEq, Eq)]
pub struct LineFault {
    pub line: u32,
    pub code: u8,
}

impl Model for LineFault {
    ghost use Rattle.std.specs.Prelude.{ℕ};

    ghost Value = { ℕ × ℕ };

    ghost view = { λ fault. (fault.line, fault.code) };

    ghost inverse = { λ fault. record { line = fault.0; code = fault.1 } };
}

impl LineFault {
    /// Whether the fault comes before another: on a lesser line, or on the same with a lesser code.
    pub fn is_before(self, other: LineFault) -> bool
        ensures { result ≡ spec.is_before self other }
    {
        self.line < other.line || (self.line == other.line && self.code < other.code)
    }

    /// Of two faults the one that comes first.
    pub fn first_of(self, other: LineFault) -> LineFault
        ensures { result ≡ spec.first_of self other }
    {
        if other.is_before(self) { other } else { self }
    }
}

/// Of two faults the one that comes first, if there is one.
pub fn lesser(first: Option<LineFault>, second: Option<LineFault>) -> Option<LineFault>
    ensures { result ≡ spec.lesser first second }
{
    match (first, second) {
        (Some(f), Some(g)) => Some(f.first_of(g)),
        (Some(f), None) => Some(f),
        (None, second) => second,
    }
}

/// The fault of a code at a line.
pub fn at_line(line: u32, code: Option<u8>) -> Option<LineFault>
    ensures { result ≡ spec.at_line line code }
{
    Some(LineFault { line, code: code? })
}
