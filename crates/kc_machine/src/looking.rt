// What the units hold, seen without an access.
ghost use Rattle.std.specs.Prelude.{◌≡◌, ◌+◌, ◌<◌, ◌≤◌};
ghost use Rattle.kc_block_spec.specs.Looking.{looked};
ghost use Rattle.kc_block_sfr.specs.Holding.{IsEntryDue, entry_due};

use crate::parts::Core;
use kc_base::StateTime;
use kc_block_spec::Window;
use kc_extra::Extra;
use kc_hso::cam::Entry;

impl<X: Extra + Drop> Core<X> {
    ghost use Rattle.kc_machine.specs.Seen.{machine_of};

    /// What a byte read below 0018H would give in a window.
    pub(crate) fn look(&mut self, window: Window, sfr: u8) -> u8
        requires stands { self.old.bus.block.time ≡ self.old.time }
        requires register { sfr < 24 }
        ensures value { result ≡ looked X.further (machine_of self.old).time window (machine_of self.old).board.units sfr }
        ensures same { machine_of self.new ≡ machine_of self.old }
        ensures stands { self.new.bus.block.time ≡ self.new.time }
        ensures moves { self.new.bus.block.moves ≤ self.old.bus.block.moves + 1 }
    {
        self.bus.block.look(window, sfr)
    }

    /// What stands in the slots of HSO.
    pub(crate) fn hso_slots(&mut self) -> [Option<Entry>; 8]
        requires stands { self.old.bus.block.time ≡ self.old.time }
        ensures slots { result ≡ (machine_of self.old).board.units.hso.slots }
        ensures same { machine_of self.new ≡ machine_of self.old }
        ensures stands { self.new.bus.block.time ≡ self.new.time }
        ensures moves { self.new.bus.block.moves ≤ self.old.bus.block.moves + 1 }
    {
        self.bus.block.hso_slots()
    }

    /// In which state the entry of a slot of HSO fires.
    pub(crate) fn hso_due(&mut self, slot: u8) -> Option<StateTime>
        requires stands { self.old.bus.block.time ≡ self.old.time }
        requires slot { slot < 8 }
        ensures due { IsEntryDue (machine_of self.old).board.units (machine_of self.old).time slot result }
        ensures found { result ≡ entry_due (machine_of self.old).board.units (machine_of self.old).time slot }
        ensures same { machine_of self.new ≡ machine_of self.old }
        ensures stands { self.new.bus.block.time ≡ self.new.time }
        ensures moves { self.new.bus.block.moves ≤ self.old.bus.block.moves + 1 }
    {
        self.bus.block.hso_due(slot)
    }
}
