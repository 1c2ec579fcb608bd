use kc_base::StateTime;

/// How many analogue inputs there are.
pub const CHANNEL_COUNT: u8 = 8;

/// A value that an analogue input takes at a state time.
#[derive(Clone, Copy, PartialEq, Eq)]
pub struct Sample {
    pub at: StateTime,
    pub channel: u8,
    pub value: u16,
}

/// What a line of an analogue file is.
#[derive(Clone, Copy, PartialEq, Eq)]
pub(crate) enum Item {
    Blank,
    Sampled(Sample),
    Wrong,
}
