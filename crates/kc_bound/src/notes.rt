/// A loop is noted at the address of an instruction, its head, which begins at most so many times: since the last begin of one of
/// the instructions `per`, or, where there are none, in the whole pass.
#[derive(Drop)]
pub struct Loop {
    pub head: u16,
    pub most: u64,
    pub per: Vec<u16>,
}

/// The jump at an address, BR or TIJMP, leads to one of these addresses.
#[derive(Drop)]
pub struct Goes {
    pub jump: u16,
    pub targets: Vec<u16>,
}

/// The block move at an address moves at most so many words.
#[derive(Clone, Copy, Drop)]
pub struct Moved {
    pub block: u16,
    pub most: u16,
}

/// What is assumed of the passes through a routine. A pass is over where an instruction of `ends` would begin.
#[derive(Drop)]
pub struct Notes {
    pub loops: Vec<Loop>,
    pub goes: Vec<Goes>,
    pub words: Vec<Moved>,
    pub ends: Vec<u16>,
}
