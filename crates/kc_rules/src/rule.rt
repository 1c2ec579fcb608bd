use crate::amount::{Share, Time};
use crate::events::{Events, Steady};
use kc_base::StateTime;

/// A least and a greatest length in states, or number of events.
#[derive(Clone, Copy)]
pub struct Span {
    pub least: Option<u64>,
    pub most: Option<u64>,
}

/// A least and a greatest share of a period.
#[derive(Clone, Copy)]
pub struct Shares {
    pub least: Option<Share>,
    pub most: Option<Share>,
}

/// How far an event may be from where it is wanted.
#[derive(Clone, Copy)]
pub enum Within {
    Time(Time),
    /// A share of the interval.
    Share(Share),
}

/// What a rule asks.
#[derive(Drop)]
pub enum Form {
    /// No such event.
    Never(Events),
    /// Behind each of the first events one of the second, or none of them (where `true`), from so many states to so many.
    After(Events, bool, Events, StateTime, StateTime),
    /// The first event of each piece, from the second events to the third, at this share of it.
    At(Events, Share, Events, Events, Within),
    /// So long has the signal the level.
    For(Steady, Span),
    /// Such a share of its period has the signal the level.
    ForShare(Steady, Shares),
    /// So long is it from each of the events to the next.
    Every(Events, Span),
    /// So many of the first events in each piece, from the second events to the third.
    InEach(Span, Events, Events, Events),
    /// So many events in each life.
    InLife(Span, Events),
    /// So many states between the two levels.
    Apart(Steady, Steady, StateTime),
}

/// A state, or the first one with such an event.
#[derive(Drop)]
pub enum When {
    State(StateTime),
    Events(Events),
}

/// The states of a life that a rule speaks of.
#[derive(Drop)]
pub struct Scope {
    pub from: Option<When>,
    pub before: Option<When>,
}

/// A rule, with the number of its line.
#[derive(Drop)]
pub struct Rule {
    pub line: u32,
    pub form: Form,
    pub scope: Scope,
    /// Whether it holds where there was nothing to ask.
    pub if_any: bool,
}
