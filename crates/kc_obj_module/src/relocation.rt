//! The numbers that relocations put into bytes: what each kind of relocation puts, whether it fits, and where its parts
//! stand. (80C196KC User's Manual, "Jump and Call Instructions".)

ghost use Rattle.std.specs.Prelude.{◌≡◌, ◌+◌, ◌-◌, ◌/◌, ◌%◌, ◌≤◌};
ghost use Rattle.kc_obj_module.specs.Numbers as numbers;

/// The distance from one address to another, modulo 65536.
#[tactic(auto, unfolding(crate::specs::Numbers::distance))]
pub fn distance(to: u16, from: u16) -> u16
    ensures { result ≡ numbers.distance to from }
{
    to.wrapping_sub(from)
}

/// Whether a relocation of this kind fills in a distance: kinds 2, 3 and 4.
pub fn is_distance(kind: u8) -> bool
    ensures { result ≡ numbers.is_distance kind }
{
    kind >= 2
}

/// How many bytes the number of this kind has.
pub fn width(kind: u8) -> u16
    ensures width { result ≡ numbers.width kind }
    ensures bound { result ≤ 2 }
{
    if kind == 1 || kind == 2 { 1 } else { 2 }
}

/// How many bytes behind its first byte the next instruction begins.
pub fn reach(kind: u8) -> u16
    ensures reach { result ≡ numbers.reach kind }
    ensures bound { result ≤ 2 }
{
    if kind == 2 { 1 } else { 2 }
}

/// The number that is filled in for a target, where the next instruction begins at an address.
#[tactic(auto, unfolding(crate::specs::Numbers::number))]
pub fn number(kind: u8, next: u16, to: u16) -> u16
    ensures { result ≡ numbers.number kind next to }
{
    if is_distance(kind) {
        distance(to, next)
    } else {
        to
    }
}

/// Whether a number fits the bytes of its kind: 8 bits, or a signed distance of 8 or 11 bits. The others always fit.
#[tactic(auto, unfolding(crate::specs::Numbers::fits))]
pub fn fits(kind: u8, number: u16) -> bool
    ensures { result ≡ numbers.fits kind number }
{
    match kind {
        1 => number < 256,
        2 => number < 128 || number >= 65408,
        3 => number < 1024 || number >= 64512,
        _ => true,
    }
}

/// What is added to the first byte of a number: its low byte, or the high three bits of a distance of 11 bits.
#[tactic(auto, unfolding(crate::specs::Numbers::first_part))]
pub fn first_part(kind: u8, number: u16) -> u8
    ensures { result ≡ numbers.first_part kind number }
{
    if kind == 3 {
        (number % 2048 / 256) as u8
    } else {
        (number % 256) as u8
    }
}

/// What the second byte of a number has: its high byte, or the low byte of a distance of 11 bits.
#[tactic(auto, unfolding(crate::specs::Numbers::second_part))]
pub fn second_part(kind: u8, number: u16) -> u8
    ensures { result ≡ numbers.second_part kind number }
{
    if kind == 3 {
        (number % 256) as u8
    } else {
        (number / 256) as u8
    }
}
