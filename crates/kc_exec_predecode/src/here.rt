/// Where an instruction is performed: the address after it, and WSR.
#[derive(Clone, Copy, PartialEq, Eq, Drop)]
pub(crate) struct Here {
    pub(crate) next: u16,
    pub(crate) wsr: u8,
}
