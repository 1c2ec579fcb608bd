/// A way on from an instruction, with the most state times that it takes.
#[derive(Clone, Copy, PartialEq, Eq, Drop)]
pub enum Way {
    /// On to an address.
    To { states: u32, target: u16 },
    /// Into a routine, which returns to the address behind.
    Call { states: u32, target: u16, back: u16 },
    /// Back to where the open call returns, or out of the pass where there is none.
    Back { states: u32 },
    /// Out of the pass, or to the end of the run.
    Out { states: u32 },
}
