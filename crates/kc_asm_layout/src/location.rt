use crate::size_record::Body;
use kc_branch::Form;

/// Where a statement stands in its piece: where the piece ended before it, its own place, which is that of its label and of
/// `$`, and where the piece ends behind it. All are offsets, or in an absolute piece addresses, as whole numbers. `address`
/// is that of its piece, where that is absolute; `form` is the form of a generic branch, else the first.
#[derive(Clone, Copy)]
pub struct Location {
    pub before: u64,
    pub place: u64,
    pub after: u64,
    pub address: Option<u16>,
    pub form: Form,
    pub body: Body,
}
