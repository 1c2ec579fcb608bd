// Masks of pins.
ghost use Rattle.std.specs.Prelude.{◌≡◌, ◌<◌, ◌^◌, bit_or};
ghost use Rattle.kc_base.specs.Bits.{bit, weight};
ghost use Rattle.kc_block_spec.specs.Control.{hsi_bits as hsi_bits_of};

use kc_base::{Pin, weight};

/// Whether a mask has a pin.
pub fn has_pin(mask: u64, pin: u8) -> bool
    requires { pin < 64 }
    ensures { result ≡ bit mask pin }
{
    (mask >> pin) % 2 == 1
}

/// The levels of HSI0 to HSI3, or their edges, as the low four bits.
pub fn hsi_bits(pins: u64) -> u8
    ensures { result ≡ hsi_bits_of pins }
{
    weight(has_pin(pins, Pin::HSI0.0), 1)
        + weight(has_pin(pins, Pin::HSI1.0), 2)
        + weight(has_pin(pins, Pin::HSI2.0), 4)
        + weight(has_pin(pins, Pin::HSI3.0), 8)
}

/// A mask with a pin where it is high.
pub(crate) fn with_pin(mask: u64, pin: u8, high: bool) -> u64
    requires { pin < 64 }
    ensures { result ≡ bit_or mask (weight high (2 ^ pin)) }
{
    if high { mask | 1 << pin } else { mask }
}
