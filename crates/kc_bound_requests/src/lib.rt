//! Where in a pass through a routine a request other than NMI may be served, and how long one waits: what a machine allows of
//! requests, when it asks for interrupts, what a certificate of either has to keep to, and the checks of both. The laws stand here
//! too. A request is served only at an address that the certificate has as open, and where there is none, each activity is the
//! routine's own while NMI does not pend. No time between two moments at which interrupts are asked for is longer than a certificate
//! of latency shows, and no request waits longer for its entry or for the end of the pass.
//! It stands on the bounds of routines (`kc_bound`) and on the machine (`kc_machine_spec`).
//! `checked` of a certificate for `PUSHA` .. `POPA`, `RET` as an interrupt enters it gives no open address; for `LDB PORT1,#0`
//! before the `PUSHA` it gives that of the `PUSHA`. For `DI`, `INC 36H`, `EI`, `NOP`, `SJMP` back to the `DI`, with I set first,
//! `checked_latency` of the certificate that `find_latency` gives is 9.
#![tactic(auto)]

mod certificate;
mod checking;
mod enabled;
mod finding;
mod latency_certificate;
mod latency_checking;
mod latency_finding;
mod latency_laws;
mod latency_looking;
mod latency_prices;
mod latency_steps;
mod laws;
mod work;

pub use certificate::{EnabledAt, EnabledSet, Open, RequestCertificate};
pub use checking::checked;
pub use enabled::{AT_RESET, CALLED, ENTERED, Enabled, INTERRUPTIBLE};
pub use finding::find;
pub use latency_certificate::LatencyCertificate;
pub use latency_checking::checked_latency;
pub use latency_finding::find_latency;
pub use latency_laws::{
    entries_are_short, gaps_are_short, highest_is_entered, latency_is_short, routines_begin,
    waits_are_short,
};
pub use laws::{
    activities_change, closed_shows_served, first_sets_are, no_service_is_due, own_if_no_nmi,
    requests_are_open, service_may_be_due,
};
