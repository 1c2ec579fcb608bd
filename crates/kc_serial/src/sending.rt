// The sending half: frames on TXD.
ghost use Rattle.std.specs.Prelude.{◌≡◌, ℕ, ◌-◌, ◌+◌, ◌*◌, ◌≤◌, ◌<◌, ◌^◌, true, false, IfSome};
ghost use Rattle.kc_serial.specs.Frames.{bit_length as bit_length_of, frame_level as level_in, shown as shown_by, is_over as is_over_now, ends as ends_now, begun_of, begun as begun_frame, sending_after as after_state, waiting_after as waits_after};
ghost use Rattle.kc_serial.specs.Spans.{older_sending as older_by, SendingFits};
ghost use Rattle.kc_serial.specs.Quiet.{keeps_level as keeps, SendingBefore};

/// A frame under way: its byte, the rate at its start, and the states since then.
#[derive(Clone, Copy)]
pub struct Frame {
    pub byte: u8,
    pub rate: u16,
    pub age: u32,
}

/// What is sent: nothing, a byte whose frame begins in the next state, or a frame under way.
#[derive(Clone, Copy)]
pub enum Sending {
    Idle,
    Next(u8),
    Busy(Frame),
}

/// How many states a bit lasts.
pub(crate) fn bit_length(rate: u16) -> u32
    ensures value { result ≡ bit_length_of rate }
    ensures some { 8 ≤ result }
    ensures most { result ≤ 262144 }
{
    8 * (u32::from(rate % 32768) + 1)
}

/// A level of the ten of a frame.
fn frame_level(byte: u8, k: u32) -> bool
    ensures { result ≡ level_in byte k }
{
    match k {
        0 => false,
        1..=8 => (byte >> (k - 1)) % 2 == 1,
        _ => true,
    }
}

/// The level of TXD.
pub(crate) fn shown(sending: Sending) -> bool
    ensures { result ≡ shown_by sending }
{
    match sending {
        Sending::Busy(frame) => frame_level(frame.byte, frame.age / bit_length(frame.rate)),
        _ => true,
    }
}

/// Whether a frame ends in this state.
fn is_over(frame: Frame) -> bool
    ensures { result ≡ is_over_now frame }
{
    frame.age >= 10 * bit_length(frame.rate) - 1
}

pub(crate) fn ends(sending: Sending) -> bool
    ensures { result ≡ ends_now sending }
{
    match sending {
        Sending::Busy(frame) => is_over(frame),
        _ => false,
    }
}

/// A frame in the state in which it begins.
fn begun(rate: u16, byte: u8) -> Sending
    ensures { result ≡ begun_frame rate byte }
{
    Sending::Busy(Frame { byte, rate, age: 0 })
}

/// One state on.
pub(crate) fn sending_after(rate: u16, waiting: Option<u8>, sending: Sending) -> Sending
    ensures { result ≡ after_state rate waiting sending }
{
    match sending {
        Sending::Idle => Sending::Idle,
        Sending::Next(byte) => begun(rate, byte),
        Sending::Busy(frame) => {
            if is_over(frame) {
                match waiting {
                    Some(byte) => begun(rate, byte),
                    None => Sending::Idle,
                }
            } else {
                Sending::Busy(Frame {
                    age: frame.age + 1,
                    ..frame
                })
            }
        }
    }
}

/// The byte that waits one state on.
pub(crate) fn waiting_after(waiting: Option<u8>, sending: Sending) -> Option<u8>
    ensures { result ≡ waits_after waiting sending }
{
    if ends(sending) { None } else { waiting }
}

/// So many quiet states on.
pub(crate) fn older_sending(states: u64, sending: Sending) -> Sending
    requires { SendingFits states sending }
    ensures { result ≡ older_by states sending }
{
    match sending {
        Sending::Busy(frame) => Sending::Busy(Frame {
            age: (u64::from(frame.age) + states) as u32,
            ..frame
        }),
        other => other,
    }
}

/// Whether TXD keeps its level into a level of a frame.
fn keeps_level(byte: u8, k: u32) -> bool
    requires { 0 < k }
    ensures { result ≡ keeps byte k }
{
    frame_level(byte, k - 1) == frame_level(byte, k)
}

/// The next level of a frame, from a level on, that differs from the one before, or its end.
fn next_change(byte: u8, from: u32) -> u32
    requires some { 0 < from }
    requires within { from ≤ 10 }
    ensures later { from ≤ result }
    ensures within { result ≤ 10 }
    ensures same { (k : ℕ) → from ≤ k → k < result → keeps byte k ≡ true }
    ensures other { result < 10 → keeps byte result ≡ false }
{
    for k in from..10 {
        if !keeps_level(byte, k) {
            return k;
        }
    }
    10
}

/// How many quiet states come before a frame begins or ends or TXD has an edge.
pub(crate) fn sending_left(sending: Sending) -> Option<u64>
    ensures before { SendingBefore sending result }
    ensures near { IfSome result (λ n. n ≤ 2621440) }
{
    match sending {
        Sending::Idle => None,
        Sending::Next(_) => Some(0),
        Sending::Busy(frame) => {
            if is_over(frame) {
                return Some(0);
            }
            let bit = bit_length(frame.rate);
            let change = next_change(frame.byte, frame.age / bit + 1);
            Some(u64::from(change * bit - 1 - frame.age))
        }
    }
}
