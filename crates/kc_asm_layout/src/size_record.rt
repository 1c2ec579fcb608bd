use kc_asm_symbols::Segment;
use kc_branch::BranchKind;

/// What the target of a generic branch counts from: the place of a statement, by its number from 0, with a distance in bytes
/// from there; an external; or neither of them, as a number or a difference of labels.
#[derive(Clone, Copy, PartialEq, Eq)]
pub enum Anchor {
    Statement { number: u16, distance: i16 },
    External,
    Nothing,
}

/// How far a statement goes on behind its place: so many bytes, to a place as ORG says, to an even place, or as a generic
/// branch, whose bytes depend on its form.
#[derive(Clone, Copy, PartialEq, Eq)]
pub enum Body {
    Bytes(u32),
    Upto(u16),
    Even,
    Branch { kind: BranchKind, anchor: Anchor },
}

/// What of a statement reports where statements stand: the segment in force, what its place is divisible by, how far it goes
/// on, and the address of the absolute piece that it opens, if it opens one.
#[derive(Clone, Copy, PartialEq, Eq)]
pub struct SizeRecord {
    pub segment: Segment,
    pub alignment: u32,
    pub body: Body,
    pub opens: Option<u16>,
}
