ghost use Rattle.kc_block_sfr.specs.Left.{UnreadLeft, FlagLeft, HsiLeft, FurtherLeft, HsoLeft, CommandLeft, TimersLeft, GateLeft, StandingReports};
ghost use Rattle.kc_block_sfr.specs.PlainBus.{PlainReads, PlainWrites};

use kc_extra::Extra;

/// What an access leaves of the deferred units shows the units that the access leaves, and needs no other due state asked.
pub fn what_is_left_is_scheduled<X: Extra>()
    ensures unread { UnreadLeft X.further X.agrees }
    ensures flag { FlagLeft X.further X.agrees }
    ensures hsi { HsiLeft X.further X.agrees }
    ensures further { FurtherLeft X.further X.agrees }
    ensures hso { HsoLeft X.further X.agrees }
    ensures command { CommandLeft X.further X.agrees }
    ensures timers { TimersLeft X.further X.agrees }
    ensures gate { GateLeft X.further X.agrees }
{}

/// What units that stand earlier report of the present state, without being moved.
pub fn standing_units_report_what_is_shown<X: Extra>()
    ensures { StandingReports X.further X.agrees }
{}

/// A bus without units reads and writes the masks and WSR at the addresses that the table of registers has, and nothing else.
pub fn plain_bus_has_the_masks_of_the_table()
    ensures reads { PlainReads }
    ensures writes { PlainWrites }
{}
