//! Timer 1 and Timer 2 of the board, each alone: what one Tick does, what a quiet span leaves, and when an overflow comes (80C196KC
//! User's Manual, "Timer 1" and "Timer 2"; the order inside a state is this kit's own).
//! It stands on spans of state times (`kc_span`).
//! `timer1(87)` gives 10, and `timer1_due(87)` gives 524287. A Timer 2 at FFFFH that counts up at each eighth state is due from
//! state 9 on in state 15.
#![tactic(auto)]

ghost use Rattle.kc_span.specs.Timer1.{timer1_of};
ghost use Rattle.std.specs.Prelude.{◌≡◌, ℕ, ◌+◌, ◌-◌, ◌*◌, ◌/◌, ◌%◌, ◌<◌, ◌≤◌, ◌≢◌};
ghost use Rattle.kc_base.specs.Limits.{max_states};
ghost use Rattle.kc_span.specs.Span.{after};
ghost use Rattle.kc_timers.specs.T2.{T2, timer2_rule, value_at, view_of};

use kc_base::StateTime;

mod timer2;

pub use timer2::Timer2;

/// How Timer 2 is clocked and reset: `internal` is IOC3.0, `fast` IOC2.0, `down` IOC2.1 together with the level of T2UD.
/// By `hsi1` (IOC0.7), `reset_on` (IOC0.3) and `reset_hsi0` (IOC0.5) the block chooses the pins that clock and reset the
/// timer; the timer itself does not look at these three.
#[derive(Clone, Copy, PartialEq, Eq)]
pub struct T2Control {
    pub hsi1: bool,
    pub internal: bool,
    pub fast: bool,
    pub down: bool,
    pub reset_on: bool,
    pub reset_hsi0: bool,
}

/// What reaches Timer 2 in one Tick: an edge of the chosen clock pin, a reset by the chosen and enabled pin or by HSO, a
/// rising T2CAP.
#[derive(Clone, Copy, PartialEq, Eq)]
pub struct T2Inputs {
    pub clock: bool,
    pub reset: bool,
    pub capture: bool,
}

/// What a Tick of Timer 2 gave: whether it passed between FFFFH and 0, and whether it copied its value into T2CAPTURE.
#[derive(Clone, Copy, PartialEq, Eq)]
pub struct T2Out {
    pub overflow: bool,
    pub captured: bool,
}

/// Timer 2 as HSO sees it. `every` says in how many states a count comes by itself: 0 (never, unless an edge comes), 8 or 1.
#[derive(Clone, Copy, PartialEq, Eq)]
pub struct T2View {
    pub value: u16,
    pub every: u8,
    pub down: bool,
}

/// What Timer 1 reads in state `t`.
pub fn timer1(t: StateTime) -> u16
    ensures { result ≡ timer1_of t }
{
    ((t / 8) % 65536) as u16
}

/// The least state from `t` on in which Timer 1 overflows.
pub fn timer1_due(t: StateTime) -> StateTime
    requires { t ≤ 4 * max_states }
    ensures later { t ≤ result }
    ensures overflows { (result + 1) % 524288 ≡ 0 }
    ensures least { (u : ℕ) → t ≤ u → u < result → (u + 1) % 524288 ≢ 0 }
{
    t / 524288 * 524288 + 524287
}

/// A view of Timer 2 gives the value that the timer has after as many Ticks without an input.
pub fn view_shows_values()
    ensures { (control : T2Control) (from to : ℕ) (d : T2) → d.value < 65536 → from ≤ to →
        value_at (view_of control d) from to ≡ (after (timer2_rule control) from (to - from) d).value }
{}
