/// What the states of an instruction depend on beside itself: nothing; whether S is outside the register file; whether the
/// stack is, for what pushes and for what pops; whether a jump is taken; or its whole place.
#[derive(Clone, Copy, Drop)]
pub enum Cost {
    Fixed,
    Points,
    Pushes,
    Pops,
    When,
    Placed,
}
