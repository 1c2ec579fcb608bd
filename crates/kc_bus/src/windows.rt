ghost use Rattle.std.specs.Prelude.{◌≡◌, ◌<◌, ◌≤◌, ◌+◌, ◌*◌, OnOk, OnErr, IfOk, IfErr, IsTrue, false};
ghost use Rattle.kc_base.specs.declared.types.Kind.TheVariants.{BadWindow};
ghost use Rattle.kc_exec_spec.specs.Window.{window_of, mapped, is_wsr};

use kc_base::Kind;
use kc_exec_spec::Masks;

/// The address of a register byte under a value of WSR, in the register file (80C196KC User's Manual, "Windows").
/// Refused as `BadWindow` for a value outside the profile.
#[inline(always)]
pub fn window(wsr: u8, register: u8) -> Result<u16, Kind>
    ensures address { result ≡ window_of wsr register }
    ensures known { OnOk result (IsTrue (is_wsr wsr)) }
    ensures unknown { OnErr result (is_wsr wsr ≡ false) }
    ensures bound { IfOk result (λ addr. addr < 512) }
{
    match wsr {
        0 | 1 | 15 => Ok(u16::from(register)),
        _ => {
            let addr = other_window(wsr, register)?;
            Ok(addr)
        }
    }
}

// The address of a register byte out of line, where the window is vertical, or WSR has no value of the profile.
#[cold]
#[inline(never)]
fn other_window(wsr: u8, register: u8) -> Result<u16, Kind>
    ensures address { result ≡ window_of wsr register }
    ensures known { OnOk result (IsTrue (is_wsr wsr)) }
    ensures unknown { OnErr result (is_wsr wsr ≡ false) }
    ensures bound { IfOk result (λ addr. addr < 512) }
{
    let place = u16::from(register);
    match wsr {
        0 | 1 | 15 => Ok(place),
        0x40..=0x4F => Ok(mapped_to(32, u16::from(wsr) - 0x40, place)),
        0x20..=0x27 => Ok(mapped_to(64, u16::from(wsr) - 0x20, place)),
        0x10..=0x13 => Ok(mapped_to(128, u16::from(wsr) - 0x10, place)),
        _ => Err(Kind::BadWindow),
    }
}

#[inline(always)]
fn mapped_to(size: u16, n: u16, register: u16) -> u16
    requires size { size ≤ 128 }
    requires n { n < 16 }
    requires register { register < 256 }
    requires place { size * n + size ≤ 512 }
    ensures address { result ≡ mapped size n register }
    ensures bound { result < 512 }
{
    if register < 256 - size {
        register
    } else {
        size * n + (register - (256 - size))
    }
}

/// Whether the profile has this value of WSR.
#[inline(always)]
pub fn is_known(wsr: u8) -> bool
    ensures { result ≡ is_wsr wsr }
{
    matches!(wsr, 0 | 1 | 15 | 0x40..=0x4F | 0x20..=0x27 | 0x10..=0x13)
}

/// Masks as a bus takes them. Refused as `BadWindow` for a WSR value outside the profile.
pub fn known_masks(masks: Masks) -> Result<Masks, Kind>
    ensures same { IfOk result (λ m. m ≡ masks) }
    ensures known { IfOk result (λ m. IsTrue (is_wsr m.wsr)) }
    ensures unknown { OnErr result (is_wsr masks.wsr ≡ false) }
    ensures kind { IfErr result (λ kind. kind ≡ BadWindow) }
{
    if is_known(masks.wsr) {
        Ok(masks)
    } else {
        Err(Kind::BadWindow)
    }
}
