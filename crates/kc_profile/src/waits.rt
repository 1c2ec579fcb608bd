// How long a request waits.
ghost use Rattle.std.specs.Prelude.{◌≡◌, ◌+◌, ◌-◌, ◌<◌, ◌^◌, ℕ};
ghost use Rattle.kc_profile.specs.Waits.{AreFewWaits};
ghost use Rattle.kc_profile.specs.Waits as spec;

use crate::sight::{Sight, is_in};
use crate::spread::{Moment, Spread, together, with_number};
use kc_base::StateTime;

/// Since when a request is in the sets that are served.
#[derive(Clone, Copy)]
pub struct Waiting {
    /// The state in which it became pending, while it is.
    pub pending: Option<StateTime>,
    /// The state in which the transfer server handed it to its interrupt, while it is in PTSSRV.
    pub handed: Option<StateTime>,
}

/// What a profile reports of one request.
#[derive(Clone, Copy)]
pub struct Waits {
    pub waiting: Waiting,
    /// From the state in which it came to that in which its entry is over.
    pub latency: Option<Spread>,
    /// From the state in which it came to that in which the setup of its cycle is over.
    pub served: Option<Spread>,
    /// How often it was raised while it was pending.
    pub missed: u64,
}

// How long it is since a state.
fn time_since(since: Option<StateTime>, at: StateTime) -> u64
    ensures { result ≡ spec.time_since since at }
{
    match since {
        Some(since) => at.saturating_sub(since),
        None => 0,
    }
}

// Since when a bit of a set is 1 at the end of a state, where it is 1 since then at its start.
fn since_after(since: Option<StateTime>, is_set: bool, at: StateTime) -> Option<StateTime>
    ensures { result ≡ spec.since_after since is_set at }
{
    match (is_set, since) {
        (false, _) => None,
        (true, Some(since)) => Some(since),
        (true, None) => Some(at),
    }
}

impl Waits {
    /// Of a request that has never come.
    pub(crate) fn none() -> Waits
        ensures { result ≡ spec.no_waits }
    {
        Waits {
            waiting: Waiting {
                pending: None,
                handed: None,
            },
            latency: None,
            served: None,
            missed: 0,
        }
    }

    // How long the request of an entry has waited: since the transfer server handed it over, or since it came.
    fn entered_after(&self, n: u8, sight: &Sight) -> u64
        requires { n < 16 }
        ensures { result ≡ spec.wait_of_entry n sight.now self.now.waiting }
    {
        if is_in(sight.before.service, n) {
            time_since(self.waiting.handed, sight.at)
        } else {
            time_since(self.waiting.pending, sight.at)
        }
    }

    /// Takes the next state of a life.
    pub(crate) fn see(&mut self, n: u8, life: u16, sight: &Sight)
        requires number { n < 16 }
        requires few { AreFewWaits (2 ^ 64 - 2) self.old }
        ensures { self.new ≡ spec.see n life sight.now self.old }
    {
        let when = Moment { life, at: sight.at };
        if sight.enters(n) {
            let wait = self.entered_after(n, sight);
            self.latency = Some(with_number(self.latency, wait, when));
        }
        if sight.sets_up(n) {
            let wait = time_since(self.waiting.pending, sight.at);
            self.served = Some(with_number(self.served, wait, when));
        }
        if is_in(sight.raised.0, n) && is_in(sight.before.pending, n) {
            self.missed += 1;
        }
        self.waiting = Waiting {
            pending: since_after(
                self.waiting.pending,
                is_in(sight.after.pending, n),
                sight.at,
            ),
            handed: since_after(self.waiting.handed, is_in(sight.after.service, n), sight.at),
        };
    }

    /// Adds what a later life reports of the request.
    pub(crate) fn add(&mut self, later: &Waits)
        requires few { AreFewWaits (2 ^ 63 - 1) self.old }
        requires later { AreFewWaits (2 ^ 63 - 1) later.now }
        ensures { self.new ≡ spec.added self.old later.now }
    {
        self.latency = together(self.latency, later.latency);
        self.served = together(self.served, later.served);
        self.missed += later.missed;
    }

    /// Whether it was entered or served at all.
    pub(crate) fn is_reported(&self) -> bool
        ensures { result ≡ spec.is_reported self.now }
    {
        self.latency.is_some() || self.served.is_some()
    }
}
