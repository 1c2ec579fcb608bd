//! The pieces that a module's text is made of, and the forms of a generic branch.

/// What a statement leaves in a segment, as far as places go.
#[derive(Clone, Copy, PartialEq, Eq)]
pub enum Piece {
    /// So many bytes.
    Bytes(u16),
    /// Nothing at an even place, one byte at an odd one.
    Even,
    /// What follows begins at this place.
    At(u16),
    /// A generic branch. Its target is a place in the list of pieces, from 0 (before the first) to their number (after
    /// the last), and a distance in bytes from there; None where the target stands in another segment or module.
    Branch {
        kind: BranchKind,
        target: Option<(u32, i16)>,
    },
}

/// What a generic branch stands for: BR; CALL; a conditional jump, as BE; a jump on a bit, BBC or BBS.
#[derive(Clone, Copy, PartialEq, Eq)]
pub enum BranchKind {
    Jump,
    Call,
    Conditional,
    BitTest,
}

/// The form of a generic branch, shortest first. Of a jump or call: the short instruction, then twice the long one. Of a
/// conditional jump or one on a bit: the instruction itself, the inverse one over SJMP, the inverse one over LJMP.
#[derive(Clone, Copy, PartialEq, Eq)]
pub enum Form {
    First,
    Second,
    Third,
}
