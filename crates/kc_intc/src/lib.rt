//! Interrupt requests: which one is served next, and how the sets of requests change.
//! It stands on `kc_base` alone, and knows no unit that raises a request.
//! `Requests { pending: 0x0081, mask: 0x81, select: 0x80, service: 0 }.choose(true, true)` gives `Choice::Transfer(7)`; with PSE
//! at 0, `choose(false, true)` gives `Choice::Enter(0)`.
#![tactic(auto)]

mod laws;
mod requests;

pub use laws::{bits_of_changed_sets, greatest_is_greatest};
pub use requests::{Choice, Requests};
