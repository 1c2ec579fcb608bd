ghost use Rattle.std.specs.Prelude.{◌≡◌, ◌≤◌, ◌<◌};
ghost use Rattle.kc_exec_spec.specs.Status.{has, weighed, flags_of, with_flags};
ghost use Rattle.kc_exec_spec.specs.Settings.{setting_psw, setting_after};

use kc_alu::Flags;
use kc_exec_spec::{After, Setting};

#[inline(always)]
fn is_set(weight: u8, psw: u8) -> bool
    requires { 0 < weight }
    ensures { result ≡ has weight psw }
{
    psw / weight % 2 == 1
}

#[inline(always)]
fn weigh(weight: u8, set: bool) -> u8
    ensures value { result ≡ weighed weight set }
    ensures bound { result ≤ weight }
{
    if set { weight } else { 0 }
}

/// The flags in the high byte of the PSW (80C196KC User's Manual, "Program Status Word").
#[inline(always)]
#[tactic(auto, unfolding(kc_exec_spec::specs::Status::flags_of))]
pub fn unpack(psw: u8) -> Flags
    ensures { result ≡ flags_of psw }
{
    Flags {
        z: is_set(128, psw),
        n: is_set(64, psw),
        v: is_set(32, psw),
        vt: is_set(16, psw),
        c: is_set(8, psw),
        st: is_set(1, psw),
    }
}

/// The high byte of the PSW with these flags.
#[inline(always)]
#[tactic(auto, unfolding(kc_exec_spec::specs::Status::with_flags))]
pub fn pack(psw: u8, flags: Flags) -> u8
    ensures { result ≡ with_flags psw flags }
{
    weigh(128, flags.z)
        + weigh(64, flags.n)
        + weigh(32, flags.v)
        + weigh(16, flags.vt)
        + weigh(8, flags.c)
        + psw / 2 % 4 * 2
        + weigh(1, flags.st)
}

/// The high byte of the PSW with one bit set.
#[inline(always)]
pub fn set_bit(setting: Setting, psw: u8) -> u8
    ensures { result ≡ setting_psw setting psw }
{
    match setting {
        Setting::Carry(set) => psw / 16 * 16 + weigh(8, set) + psw % 8,
        Setting::Interrupts(set) => psw / 4 * 4 + weigh(2, set) + psw % 2,
        Setting::Transfers(set) => psw / 8 * 8 + weigh(4, set) + psw % 4,
        Setting::NoOverflowTrap => psw / 32 * 32 + psw % 16,
        Setting::Nothing => psw,
    }
}

/// What follows the setting of a bit.
#[inline(always)]
pub fn follow(setting: Setting) -> After
    ensures { result ≡ setting_after setting }
{
    match setting {
        Setting::Interrupts(_) | Setting::Transfers(_) => After::Held,
        Setting::Carry(_) | Setting::NoOverflowTrap | Setting::Nothing => After::Next,
    }
}
