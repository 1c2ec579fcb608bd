// What HSO and HSI hold at the start of the present state, and the levels of pins there.
ghost use Rattle.std.specs.Prelude.{◌≡◌, ◌+◌, ◌≤◌, ◌<◌, slice_get};
ghost use Rattle.kc_hsi.specs.Input.{holding_of};
ghost use Rattle.kc_block_spec.specs.Looking.{levels_shown};
ghost use Rattle.kc_block_spec.specs.Levels.{printed};
ghost use Rattle.kc_block_sfr.specs.Holding.{IsEntryDue, entry_due};

use crate::accesses::printed_at;
use crate::block::Block;
use kc_base::StateTime;
use kc_block_sfr as held;
use kc_extra::Extra;
use kc_hsi::Entry as HsiEntry;
use kc_hso::cam::{Entry as HsoEntry, Held};

impl<X: Extra + Drop> Block<X> {
    /// What stands in the slots of HSO. HSO may be moved for it, once.
    pub fn hso_slots(&mut self) -> [Option<HsoEntry>; 8]
        ensures slots { result ≡ self.old.units.hso.slots }
        ensures time { self.new.time ≡ self.old.time }
        ensures units { self.new.units ≡ self.old.units }
        ensures moves { self.new.moves ≤ self.old.moves + 1 }
    {
        held::hso_slots(&mut self.scheduler, self.time)
    }

    /// In which state the entry of a slot of HSO fires. HSO may be moved for it, once.
    pub fn hso_due(&mut self, slot: u8) -> Option<StateTime>
        requires { slot < 8 }
        ensures due { IsEntryDue self.old.units self.old.time slot result }
        ensures found { result ≡ entry_due self.old.units self.old.time slot }
        ensures time { self.new.time ≡ self.old.time }
        ensures units { self.new.units ≡ self.old.units }
        ensures moves { self.new.moves ≤ self.old.moves + 1 }
    {
        held::hso_due(&mut self.scheduler, self.time, slot)
    }

    /// What stands in the holding register of HSO, where it is loaded.
    pub fn hso_holding(&self) -> Option<Held>
        ensures { result ≡ self.now.units.hso.holding }
    {
        held::hso_holding(&self.scheduler, self.time)
    }

    /// An entry of the queue of HSI, the oldest at 0; None behind the last one.
    pub fn hsi_waiting(&self, index: usize) -> Option<HsiEntry>
        ensures { result ≡ slice_get self.now.units.hsi.fifo index }
    {
        held::hsi_waiting(&self.scheduler, self.time, index)
    }

    /// What the holding register of HSI holds, where it is loaded.
    pub fn hsi_holding(&self) -> Option<HsiEntry>
        ensures { result ≡ holding_of self.now.units.hsi }
    {
        held::hsi_holding(&self.scheduler, self.time)
    }

    /// The levels of the inputs, bit n pin n: of one without a wire that of its stimuli in the present state, of a wired one that in
    /// the state before.
    pub fn input_levels(&self) -> u64
        ensures { result ≡ levels_shown self.now.time self.now.units }
    {
        held::input_levels(&self.scheduler, self.time)
    }

    /// The levels of HSO0 to HSO5, of port 1 and of P20, P25, P26 and P27, as the chip drives them, bit n pin n.
    pub fn printed_levels(&self) -> u64
        ensures { result ≡ printed self.now.units.board_registers self.now.units.hso }
    {
        printed_at(&self.scheduler, self.time)
    }
}
