/// How far a board is run.
#[derive(Clone, Copy)]
pub struct Extent {
    /// For so many state times.
    pub states: u64,
    /// Over at most so many lives, where an option says it: a reset then begins another one. Without it a reset ends the run.
    pub lives: Option<u16>,
}
