//! What a check hands on.

use kc_asm_emit::Content;
use kc_asm_symbols::Meanings;

/// What a statement puts where it stands, and the address of the absolute piece that it opens, if it opens one: that of AT,
/// or 0 where its value is missing or not fixed.
#[derive(Drop)]
pub struct Put {
    pub content: Content,
    pub opens: Option<u16>,
}

/// Of a module without a fault what each statement puts, in order, its bytes of stack, and what names mean behind the last
/// statement.
#[derive(Drop)]
pub struct Checked {
    pub puts: Vec<Put>,
    pub stack: u16,
    pub meanings: Meanings,
}
