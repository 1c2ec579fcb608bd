//! One node of the list.
use kc_base::StateTime;

/// A slot's time, and the slots before and after it in order of time and slot; None at either end. Where there is no time, the
/// links say nothing.
#[derive(Clone, Copy)]
pub struct Node {
    pub at: Option<StateTime>,
    pub previous: Option<u8>,
    pub next: Option<u8>,
}
