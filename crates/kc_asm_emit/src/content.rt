use kc_asm_encode::RelocatableByte;

/// What a statement puts into its piece: relocatable bytes; a number of bytes that it reserves; or nothing. ORG goes on to a place, an
/// address in an absolute piece, else an offset; EVEN goes on to an even place.
#[derive(Drop)]
pub enum Content {
    Nothing,
    RelocatableBytes(Vec<RelocatableByte>),
    Reserved(u32),
    Upto(u16),
    Even,
}
