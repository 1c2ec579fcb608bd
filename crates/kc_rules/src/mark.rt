use crate::amount::Factor;
use crate::events::Events;
use kc_base::{StateTime, Text};

/// Which events a mark names.
#[derive(Drop)]
pub enum MarkForm {
    /// Each of these.
    Same(Events),
    /// Each of these that comes so many states behind the one before it, or more.
    QuietFor(Events, StateTime),
    /// Each of these whose distance from the one before it is at least so many times that one's.
    QuietShare(Events, Factor),
    /// The first of each so many of these.
    Every(u32, Events),
    /// The one of this number from each of others on.
    From(u32, Events, Events),
}

/// A mark: events with a name.
#[derive(Drop)]
pub struct Mark {
    pub name: Text,
    pub form: MarkForm,
}
