use kc_obj_module::SegKind;

/// Where a statement of a source stands: its line, from 1; its depth, that is from how many calls of macros and repetitions,
/// one in the other, it comes, 0 of the line itself; whether it has a label; the kind and the number of its piece, as the
/// source opens it (the pieces 0, 1 and 2 are the relocatable registers, code and data; absolute ones follow), and its
/// address `at` where it is absolute. Then, as offsets or in an absolute piece as addresses: where the piece ended before the
/// statement, the place of the statement, which is that of its label and of `$`, and where the piece ends behind it.
#[derive(Clone, Copy, PartialEq, Eq)]
pub struct Spot {
    pub line: u32,
    pub depth: usize,
    pub labelled: bool,
    pub kind: SegKind,
    pub piece: u32,
    pub at: Option<u16>,
    pub before: u64,
    pub place: u64,
    pub after: u64,
}
