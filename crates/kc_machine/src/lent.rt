// The machine's bus: one memory and one set of units for both masters.
ghost use Rattle.std.specs.Prelude.{◌≡◌, ℕ, ◌+◌, ◌*◌, ◌<◌, ◌≤◌, max};

use crate::common::Common;
use kc_base::{Kind, Steps};
use kc_bus::{Bus, Masks, Master, is_fixed, is_known, is_outside};
use kc_exec_spec::Access;
use kc_extra::Extra;
use std::marker::{Brand, PhantomData};
use std::sync::ledger::Ledger;

/// How many unit calls were counted, and how many moves the units had, when the board was lent.
pub trait Began {
    ghost steps: { ℕ };

    ghost moves: { ℕ };
}

impl Began for Brand {
    ghost steps = { 0 };

    ghost moves = { 0 };
}

/// The common board as an activity's accesses see it, with the counter of unit calls.
#[derive(Drop)]
pub struct Lent<'a, X: Extra + Drop, L: Ledger, K: Began> {
    pub(crate) common: &'a mut Common<X>,
    pub(crate) steps: &'a mut Steps<L>,
    pub(crate) began: PhantomData<K>,
}

impl<'a, X: Extra + Drop, L: Ledger, K: Began> Bus for Lent<'a, X, L, K> {
    ghost use Rattle.std.specs.Prelude.{length, [], ◌∷◌};
    ghost use Rattle.kc_machine_spec.specs.Scene.{Scene, byte, put};
    ghost use Rattle.kc_machine.specs.Bus.{bus_meaning, held_of};
    ghost use Rattle.kc_machine.specs.Keeping.{while_counted};
    ghost use Rattle.kc_machine.specs.BusLaws.{bus_is_lawful, common_is_whole};

    ghost Held = { Scene X };

    ghost held = { λ b. held_of b.common.now };

    ghost meaning = { bus_meaning X.further };

    ghost IsWhole = { λ s. length s.board.memory ≡ 65536 };

    ghost byte = { byte };

    ghost put = { put };

    ghost spent = { λ b. while_counted b.common.now.reached (max (b.steps.now + K.moves) (b.common.now.block.moves + K.steps)) };

    ghost allowed = { λ s. 4 * s.reached };

    ghost lent = { λ b. b.common.ghost_name ∷ b.steps.ghost_name ∷ b.common.now.block.time ∷ [] };

    #[inline(always)]
    fn read8(&mut self, by: Master, addr: u16) -> Result<u8, Kind> {
        let access = Access::ReadByte(by, addr);
        if addr < 0x18 {
            match self.common.read_byte(by, addr, self.steps) {
                Ok(value) => Ok(value),
                Err(kind) => Err(self.common.refuse(access, kind)),
            }
        } else if is_outside(addr) {
            Err(self.common.refuse(access, Kind::OutsideMap))
        } else {
            Ok(self.common.byte_at(addr))
        }
    }

    #[inline(always)]
    fn read16(&mut self, by: Master, addr: u16) -> Result<u16, Kind> {
        let access = Access::ReadWord(by, addr);
        if addr % 2 == 1 {
            Err(self.common.refuse(access, Kind::OddWord))
        } else if addr < 0x18 {
            match self.common.read_word_here(by, addr, self.steps) {
                Ok(value) => Ok(value),
                Err(kind) => Err(self.common.refuse(access, kind)),
            }
        } else if is_outside(addr) {
            Err(self.common.refuse(access, Kind::OutsideMap))
        } else {
            let low = self.common.byte_at(addr);
            let high = self.common.byte_at(addr + 1);
            Ok(u16::from(low) + 256 * u16::from(high))
        }
    }

    #[inline(always)]
    fn write8(&mut self, by: Master, addr: u16, value: u8) -> Result<(), Kind> {
        let access = Access::WriteByte(by, addr, value);
        if addr < 0x18 {
            match self.common.write_byte(by, addr, value, self.steps) {
                Ok(()) => Ok(()),
                Err(kind) => Err(self.common.refuse(access, kind)),
            }
        } else if is_outside(addr) {
            Err(self.common.refuse(access, Kind::OutsideMap))
        } else if is_fixed(addr) {
            Err(self.common.refuse(access, Kind::RomWrite))
        } else {
            self.common.put_byte(addr, value);
            Ok(())
        }
    }

    #[inline(always)]
    fn write16(&mut self, by: Master, addr: u16, value: u16) -> Result<(), Kind> {
        let access = Access::WriteWord(by, addr, value);
        if addr % 2 == 1 {
            Err(self.common.refuse(access, Kind::OddWord))
        } else if addr < 0x18 {
            match self.common.write_word(by, addr, value, self.steps) {
                Ok(()) => Ok(()),
                Err(kind) => Err(self.common.refuse(access, kind)),
            }
        } else if is_outside(addr) {
            Err(self.common.refuse(access, Kind::OutsideMap))
        } else if is_fixed(addr) {
            Err(self.common.refuse(access, Kind::RomWrite))
        } else {
            self.common.put_byte(addr, (value % 256) as u8);
            self.common.put_byte(addr + 1, (value / 256) as u8);
            Ok(())
        }
    }

    #[inline(always)]
    fn glance(&self, addr: u16) -> u8 {
        self.common.byte_at(addr)
    }

    #[inline(always)]
    fn masks(&self) -> Masks {
        self.common.masks()
    }

    fn set_masks(&mut self, masks: Masks) -> Result<(), Kind> {
        if !is_known(masks.wsr) {
            let access = Access::SetMasks(masks);
            return Err(self.common.refuse(access, Kind::BadWindow));
        }
        self.common.set_masks(masks);
        Ok(())
    }

    ghost lawful = { bus_is_lawful X.further (λ b. held_of b.common.now) (λ b. common_is_whole b.common.now) };
}
