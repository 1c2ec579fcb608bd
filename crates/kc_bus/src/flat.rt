ghost use Rattle.std.specs.Prelude.{◌≡◌, ◌+◌, ◌*◌, ◌/◌, ◌%◌, ◌<◌, ◌≤◌, ◌^◌, IsTrue, IfOk, vec_len, false};
ghost use Rattle.kc_exec_spec.specs.Window.{is_wsr};
ghost use Rattle.kc_bus.specs.Registers.{register_of, with_register, word_of, with_word};
ghost use Rattle.kc_bus.specs.Blank.{blank_bytes};

use crate::bus::Bus;
use crate::memory::{read_byte, read_word, write_byte, write_word};
use crate::windows::{is_known, known_masks};
use kc_base::{Kind, NoMemory};
use kc_exec_spec::{Masks, Master};
use std::alloc::Global;

/// A bus whose special function registers other than the three masks are all `NoRegister`, 00H and 01H too.
#[derive(Drop)]
pub struct Flat {
    bytes: Vec<u8>,
    masks: Masks,
    ghost long: { vec_len bytes ≡ 65536 },
    ghost window: { IsTrue (is_wsr masks.wsr) },
}

impl Flat {
    ghost use Rattle.kc_bus.specs.Beside.{put};
    ghost use Rattle.kc_bus.specs.Flat.{held_of, start};

    /// Bytes are 0 below 2000H and FFH from there on; the masks are 0.
    pub fn new(alloc: Global) -> Result<Flat, NoMemory>
        ensures { IfOk result (λ flat. held_of flat ≡ start) }
    {
        Ok(Flat {
            bytes: blank(alloc, 0x2000, 0xE000)?,
            masks: Masks {
                int_mask: 0,
                int_mask1: 0,
                wsr: 0,
            },
        })
    }

    /// Puts a word into memory, ROM too.
    pub fn poke(&mut self, addr: u16, value: u16)
        ensures { held_of self.new ≡ put (put (held_of self.old) addr (value % 256)) ((addr + 1) % 65536) (value / 256) }
    {
        self.bytes[addr as usize] = (value % 256) as u8;
        self.bytes[addr.wrapping_add(1) as usize] = (value / 256) as u8;
    }
}

#[tactic(auto, unfolding(crate::specs::Blank::blank_bytes))]
fn blank(alloc: Global, zeros: usize, ones: usize) -> Result<Vec<u8>, NoMemory>
    requires { zeros + ones < 2 ^ 32 }
    ensures bytes { IfOk result (λ v. v.items ≡ blank_bytes zeros ones) }
    ensures len { IfOk result (λ v. vec_len v ≡ zeros + ones) }
{
    let Ok(mut bytes) = vec![in alloc; 0u8; zeros] else {
        return Err(NoMemory);
    };
    if bytes.resize(zeros + ones, 0xFF).is_err() {
        return Err(NoMemory);
    }
    Ok(bytes)
}

fn register_at(masks: Masks, addr: u16) -> Result<u8, Kind>
    ensures { result ≡ register_of masks addr }
{
    match addr {
        0x08 => Ok(masks.int_mask),
        0x13 => Ok(masks.int_mask1),
        0x14 => Ok(masks.wsr),
        _ => Err(Kind::NoRegister),
    }
}

fn written(masks: Masks, addr: u16, value: u8) -> Result<Masks, Kind>
    requires { IsTrue (is_wsr masks.wsr) }
    ensures value { result ≡ with_register masks addr value }
    ensures window { IfOk result (λ m. IsTrue (is_wsr m.wsr)) }
{
    match addr {
        0x08 => Ok(Masks {
            int_mask: value,
            ..masks
        }),
        0x13 => Ok(Masks {
            int_mask1: value,
            ..masks
        }),
        0x14 if is_known(value) => Ok(Masks {
            wsr: value,
            ..masks
        }),
        0x14 => Err(Kind::BadWindow),
        _ => Err(Kind::NoRegister),
    }
}

fn word_at(masks: Masks, addr: u16) -> Result<u16, Kind>
    requires { addr < 24 }
    ensures { result ≡ word_of masks addr }
{
    let low = register_at(masks, addr)?;
    let high = register_at(masks, addr + 1)?;
    Ok(u16::from(low) + 256 * u16::from(high))
}

fn written_word(masks: Masks, addr: u16, value: u16) -> Result<Masks, Kind>
    requires window { IsTrue (is_wsr masks.wsr) }
    requires register { addr < 24 }
    ensures value { result ≡ with_word masks addr value }
    ensures window { IfOk result (λ m. IsTrue (is_wsr m.wsr)) }
{
    let middle = written(masks, addr, (value % 256) as u8)?;
    written(middle, addr + 1, (value / 256) as u8)
}

impl Bus for Flat {
    ghost use Rattle.std.specs.Prelude.{slice_index, length, []};
    ghost use Rattle.kc_exec_spec.specs.declared.access.Masks.{Masks};
    ghost use Rattle.kc_bus.specs.Beside.{Beside, put};
    ghost use Rattle.kc_bus.specs.Flat.{held_of, flat_meaning, flat_is_lawful};

    ghost Held = { Beside Masks };

    ghost held = { held_of };

    ghost meaning = { flat_meaning };

    ghost IsWhole = { λ h. length h.bytes ≡ 65536 };

    ghost byte = { λ h addr. slice_index h.bytes addr };

    ghost put = { put };

    ghost spent = { λ _. 0 };

    ghost allowed = { λ _. 0 };

    ghost lent = { λ _. [] };

    fn read8(&mut self, _by: Master, addr: u16) -> Result<u8, Kind> {
        if addr < 0x18 {
            register_at(self.masks, addr)
        } else {
            read_byte(self.bytes.as_slice(), addr)
        }
    }

    fn read16(&mut self, _by: Master, addr: u16) -> Result<u16, Kind> {
        if addr % 2 == 1 {
            Err(Kind::OddWord)
        } else if addr < 0x18 {
            word_at(self.masks, addr)
        } else {
            read_word(self.bytes.as_slice(), addr)
        }
    }

    fn write8(&mut self, _by: Master, addr: u16, value: u8) -> Result<(), Kind> {
        if addr < 0x18 {
            self.masks = written(self.masks, addr, value)?;
            Ok(())
        } else {
            write_byte(self.bytes.as_mut_slice(), addr, value)
        }
    }

    fn write16(&mut self, _by: Master, addr: u16, value: u16) -> Result<(), Kind> {
        if addr % 2 == 1 {
            Err(Kind::OddWord)
        } else if addr < 0x18 {
            self.masks = written_word(self.masks, addr, value)?;
            Ok(())
        } else {
            write_word(self.bytes.as_mut_slice(), addr, value)
        }
    }

    fn glance(&self, addr: u16) -> u8 {
        self.bytes[addr as usize]
    }

    fn masks(&self) -> Masks {
        self.masks
    }

    fn set_masks(&mut self, masks: Masks) -> Result<(), Kind> {
        self.masks = known_masks(masks)?;
        Ok(())
    }

    ghost lawful = { flat_is_lawful };
}
