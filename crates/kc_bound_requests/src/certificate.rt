/// A set of what a machine may allow: bit 0 upwards stand for I and PSE clear, I set, PSE set, both set; bits 4 to 7 for the same
/// where an instruction has to come next.
#[derive(Clone, Copy, Drop)]
pub struct EnabledSet {
    pub bits: u8,
}

/// What may be allowed before the instruction at an address, and what behind the RET of the routine in which it stands.
#[derive(Clone, Copy, Drop)]
pub struct EnabledAt {
    pub before: EnabledSet,
    pub behind: EnabledSet,
}

/// These for each address of the ROM, from 2000H on.
#[derive(Drop)]
pub struct RequestCertificate {
    pub places: Vec<EnabledAt>,
}

/// The least address before whose instruction, or before a word of it, a request other than NMI may be served, if there is one.
#[derive(Clone, Copy, Drop)]
pub struct Open {
    pub least: Option<u16>,
}
