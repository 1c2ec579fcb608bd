/// A time: whole states, and parts of one, of which a state has 2 * 10^15.
#[derive(Clone, Copy)]
pub struct Time {
    pub states: u64,
    pub parts: u64,
}

/// A share of an interval, in lowest terms: at most one, with a denominator of at most 10^9.
#[derive(Clone, Copy)]
pub struct Share {
    pub num: u32,
    pub den: u32,
}

/// How many times an interval another is, in lowest terms: at most 10^6, with a denominator of at most 10^9.
#[derive(Clone, Copy)]
pub struct Factor {
    pub num: u64,
    pub den: u32,
}

/// What a rule measures by.
#[derive(Clone, Copy)]
pub(crate) enum Amount {
    Time(Time),
    Share(Factor),
}
