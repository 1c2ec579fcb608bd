use kc_base::Text;

/// How a statement uses a name.
#[derive(Clone, Copy)]
pub enum UseKind {
    /// defined for once, as a label or by EQU
    Once,
    /// defined by SET
    Again,
    /// taken by EXTRN
    Taken,
    /// given by PUBLIC
    Given,
}

/// The use of a name on a line.
#[derive(Drop)]
pub struct Use {
    pub line: u32,
    pub name: Text,
    pub kind: UseKind,
}
