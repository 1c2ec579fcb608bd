/// What a certificate says of an address: how many state times may be left from there on, beside those that loops pay for; how
/// many calls may yet be opened; and whether a pass may be over in the routine that is open there, before that returns.
#[derive(Clone, Copy, PartialEq, Eq, Drop)]
pub struct Standing {
    pub potential: u64,
    pub rank: u16,
    pub leaves: bool,
}

/// A standing for each address that a pass may come to, from 2000H on; for each loop of the notes the price of a begin of its
/// head, in their order; and the potential that is left where a pass is over.
#[derive(Drop)]
pub struct Certificate {
    pub standings: Vec<Option<Standing>>,
    pub prices: Vec<u64>,
    pub floor: u64,
}

/// The most state times that a pass takes where it is over, and the most that have gone by at any moment of one.
#[derive(Clone, Copy, PartialEq, Eq, Drop)]
pub struct Bound {
    pub over: u64,
    pub always: u64,
}
