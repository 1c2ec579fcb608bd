ghost use Rattle.std.specs.Prelude.{◌≡◌, ◌+◌, ◌*◌, ◌%◌};

/// The random number after another one.
pub(crate) fn random_after(value: u16) -> u16
    ensures { result ≡ (25173 * value + 13849) % 65536 }
{
    ((25173 * u32::from(value) + 13849) % 65536) as u16
}
