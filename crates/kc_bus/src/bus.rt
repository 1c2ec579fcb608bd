ghost use Rattle.std.specs.Prelude.{◌≡◌, ℕ, OnOk, OnErr, IsTrue, false, List};
ghost use Rattle.kc_exec_spec.specs.Access.{Accepts};
ghost use Rattle.kc_exec_spec.specs.declared.access.Access.TheVariants.{ReadByte, ReadWord, WriteByte, WriteWord, SetMasks};
ghost use Rattle.kc_exec_spec.specs.Effect.{Meaning};
ghost use Rattle.kc_exec_spec.specs.Window.{is_wsr};
ghost use Rattle.kc_exec_spec.specs.Memory.{IsMemory, IsLawful, is_hole};
ghost use Rattle.kc_bus.specs.Counting.{KeepsCount};

use kc_base::Kind;
use kc_exec_spec::{Masks, Master};

/// The common memory. A refused access changes no register and no memory; a bus may keep which one it was.
pub trait Bus {
    /// Every register and all memory.
    ghost Held: { Type 0 };

    ghost held: { Self → Held };

    ghost meaning: { Meaning Held };

    /// Holds of what every bus of the type holds.
    ghost IsWhole: { Held → Type 0 };

    ghost byte: { Held → ℕ → ℕ };

    ghost put: { Held → ℕ → ℕ → Held };

    /// A count that the bus keeps beside what it holds, and what it may have grown to.
    ghost spent: { Self → ℕ };

    ghost allowed: { Held → ℕ };

    /// The ghost names of what is lent to the bus: it stays the same.
    ghost lent: { Self → List ℕ };

    fn read8(&mut self, by: Master, addr: u16) -> Result<u8, Kind>
        ensures answer { meaning.answer (held self.old) (ReadByte by addr) ≡ result }
        ensures ok { OnOk result (meaning.after (held self.old) (ReadByte by addr) ≡ held self.new) }
        ensures err { OnErr result (meaning.refused (held self.old) (ReadByte by addr) ≡ held self.new) }
        ensures count { KeepsCount spent held allowed lent self.old self.new };

    fn read16(&mut self, by: Master, addr: u16) -> Result<u16, Kind>
        ensures answer { meaning.answer (held self.old) (ReadWord by addr) ≡ result }
        ensures ok { OnOk result (meaning.after (held self.old) (ReadWord by addr) ≡ held self.new) }
        ensures err { OnErr result (meaning.refused (held self.old) (ReadWord by addr) ≡ held self.new) }
        ensures count { KeepsCount spent held allowed lent self.old self.new };

    fn write8(&mut self, by: Master, addr: u16, value: u8) -> Result<(), Kind>
        ensures answer { Accepts result (meaning.answer (held self.old) (WriteByte by addr value)) }
        ensures ok { OnOk result (meaning.after (held self.old) (WriteByte by addr value) ≡ held self.new) }
        ensures err { OnErr result (meaning.refused (held self.old) (WriteByte by addr value) ≡ held self.new) }
        ensures count { KeepsCount spent held allowed lent self.old self.new };

    fn write16(&mut self, by: Master, addr: u16, value: u16) -> Result<(), Kind>
        ensures answer { Accepts result (meaning.answer (held self.old) (WriteWord by addr value)) }
        ensures ok { OnOk result (meaning.after (held self.old) (WriteWord by addr value) ≡ held self.new) }
        ensures err { OnErr result (meaning.refused (held self.old) (WriteWord by addr value) ≡ held self.new) }
        ensures count { KeepsCount spent held allowed lent self.old self.new };

    /// The byte there, without an effect.
    fn glance(&self, addr: u16) -> u8
        requires memory { IsMemory addr }
        requires known { is_hole addr ≡ false }
        ensures { result ≡ byte (held self.now) addr };

    fn masks(&self) -> Masks
        ensures value { result ≡ meaning.masks (held self.now) }
        ensures window { IsTrue (is_wsr result.wsr) };

    /// Refused as `BadWindow` for a WSR value outside the profile.
    fn set_masks(&mut self, masks: Masks) -> Result<(), Kind>
        ensures answer { Accepts result (meaning.answer (held self.old) (SetMasks masks)) }
        ensures ok { OnOk result (meaning.after (held self.old) (SetMasks masks) ≡ held self.new) }
        ensures err { OnErr result (meaning.refused (held self.old) (SetMasks masks) ≡ held self.new) }
        ensures count { KeepsCount spent held allowed lent self.old self.new };

    ghost lawful: { IsLawful held meaning IsWhole byte put };
}
