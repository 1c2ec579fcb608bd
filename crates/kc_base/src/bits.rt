// Single bits of a register.
ghost use Rattle.std.specs.Prelude.{◌≡◌, ◌<◌};
ghost use Rattle.kc_base.specs.Bits.{bit as bit_of, weight as weight_of};

/// Bit n of a register.
pub fn bit(value: u8, n: u8) -> bool
    requires { n < 8 }
    ensures { result ≡ bit_of value n }
{
    (value >> n) % 2 == 1
}

/// A bit of a register by its weight: its weight where it is 1, and 0.
pub fn weight(is: bool, value: u8) -> u8
    ensures { result ≡ weight_of is value }
{
    if is { value } else { 0 }
}
