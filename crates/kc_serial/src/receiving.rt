// The receiving half: samples of RXD.
ghost use Rattle.std.specs.Prelude.{◌≡◌, ◌-◌, ◌+◌, ◌*◌, ◌≤◌, ◌<◌, ◌^◌, IfSome};
ghost use Rattle.kc_base.specs.Limits.{max_states};
ghost use Rattle.kc_serial.specs.Samples.{half_bit as half_bit_of, shifted as shifted_from, is_sample as is_sample_at, is_complete as is_complete_now, completes as completes_now, sampled as sampled_at, with_sample as sample_taken, reception_after as after_state, received_after as received_by};
ghost use Rattle.kc_serial.specs.Spans.{bits_by as bits_up_to, shifted_by as shifted_times, starts_within as starts_in, older_reception as older_by, ReceptionFits};
ghost use Rattle.kc_serial.specs.Quiet.{ReceptionBefore};

use crate::sending::bit_length;

/// A reception under way: the rate at its start, the states since its edge, and the bits that it has taken, of which each
/// new one enters from above.
#[derive(Clone, Copy)]
pub struct Reception {
    pub rate: u16,
    pub age: u32,
    pub register: u8,
}

/// Half the length of a bit.
fn half_bit(rate: u16) -> u32
    ensures value { result ≡ half_bit_of rate }
    ensures some { 4 ≤ result }
    ensures most { result ≤ 131072 }
{
    bit_length(rate) / 2
}

/// The shift register after a sample.
fn shifted(high: bool, register: u8) -> u8
    ensures { result ≡ shifted_from high register }
{
    register / 2 + if high { 128 } else { 0 }
}

/// A reception after the sample of its age, if one comes there.
fn sampled(high: bool, reception: Reception) -> Option<Reception>
    ensures { result ≡ sampled_at high reception }
{
    let bit = bit_length(reception.rate);
    if reception.age % bit != half_bit(reception.rate) {
        return Some(reception);
    }
    if reception.age >= bit {
        return Some(Reception {
            register: shifted(high, reception.register),
            ..reception
        });
    }
    if high { None } else { Some(reception) }
}

/// Whether the last sample comes in this state.
fn is_complete(reception: Reception) -> bool
    ensures { result ≡ is_complete_now reception }
{
    reception.age >= 9 * bit_length(reception.rate) + half_bit(reception.rate) - 1
}

pub(crate) fn completes(reception: Option<Reception>) -> bool
    ensures { result ≡ completes_now reception }
{
    match reception {
        Some(reception) => is_complete(reception),
        None => false,
    }
}

/// One state on, at a level of RXD.
pub(crate) fn reception_after(
    rate: u16,
    high: bool,
    begins: bool,
    reception: Option<Reception>,
) -> Option<Reception>
    ensures { result ≡ after_state rate high begins reception }
{
    match reception {
        None if begins => Some(Reception {
            rate,
            age: 0,
            register: 0,
        }),
        None => None,
        Some(reception) => {
            if is_complete(reception) {
                return None;
            }
            let older = Reception {
                age: reception.age + 1,
                ..reception
            };
            sampled(high, older)
        }
    }
}

/// The last byte received.
pub(crate) fn received_after(received: u8, reception: Option<Reception>) -> u8
    ensures { result ≡ received_by received reception }
{
    match reception {
        Some(reception) if is_complete(reception) => reception.register,
        _ => received,
    }
}

/// How many bits are taken up to an age.
fn bits_by(rate: u16, age: u64) -> u64
    requires { age < 2 ^ 33 }
    ensures { result ≡ bits_up_to rate age }
{
    ((age + u64::from(half_bit(rate))) / u64::from(bit_length(rate))).saturating_sub(1)
}

/// As many equal samples, one after the other.
fn shifted_by(high: bool, count: u64, register: u8) -> u8
    requires { count ≤ 8 }
    ensures { result ≡ shifted_times high count register }
{
    let kept = u16::from(register) >> count;
    let fresh = if high { 256 - (256u16 >> count) } else { 0 };
    (kept + fresh) as u8
}

/// Whether the start bit is sampled within the next states.
fn starts_within(states: u64, reception: Reception) -> bool
    requires { states ≤ 4 * max_states }
    ensures { result ≡ starts_in states reception }
{
    let half = half_bit(reception.rate);
    reception.age < half && u64::from(reception.age) + states >= u64::from(half)
}

/// So many quiet states on, all at one level of RXD.
pub(crate) fn older_reception(
    high: bool,
    states: u64,
    reception: Option<Reception>,
) -> Option<Reception>
    requires bound { states ≤ 4 * max_states }
    requires fits { ReceptionFits high states reception }
    ensures { result ≡ older_by high states reception }
{
    match reception {
        None => None,
        Some(reception) => {
            if high && starts_within(states, reception) {
                return None;
            }
            let age = u64::from(reception.age) + states;
            let rate = reception.rate;
            let count = bits_by(rate, age) - bits_by(rate, u64::from(reception.age));
            Some(Reception {
                rate,
                age: age as u32,
                register: shifted_by(high, count, reception.register),
            })
        }
    }
}

/// How many quiet states come before a byte is received, at one level of RXD.
pub(crate) fn reception_left(high: bool, reception: Option<Reception>) -> Option<u64>
    ensures before { ReceptionBefore high reception result }
    ensures near { IfSome result (λ n. n ≤ 2621440) }
{
    match reception {
        None => None,
        Some(reception) => {
            if is_complete(reception) {
                return Some(0);
            }
            let half = half_bit(reception.rate);
            if high && reception.age < half {
                return None;
            }
            Some(u64::from(9 * bit_length(reception.rate) + half - 1 - reception.age))
        }
    }
}
