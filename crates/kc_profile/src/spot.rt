ghost use Rattle.std.specs.Prelude.{◌≡◌};
ghost use Rattle.kc_profile.specs.Spots.{spot_of};

use kc_machine_spec::Activity;

/// Where a state of a run goes.
#[derive(Clone, Copy, PartialEq, Eq, Drop)]
pub enum Spot {
    /// An instruction, a word of a block move, a trap, or an undefined use that is found at the start, at this address.
    At(u16),
    /// The entry through the vector of this number, below 16.
    Entry(u8),
    /// The transfer server for the request of this number, below NMI: the setup of a cycle, or a transfer.
    Server(u8),
    /// No activity: the machine idles.
    Idle,
}

/// Where the states of an activity go that has begun with the program counter at an address.
pub(crate) fn spot_of(doing: Activity, pc: u16) -> Spot
    ensures { result ≡ spot_of doing pc }
{
    match doing {
        Activity::Executes(_) | Activity::MovesWord(_, _) | Activity::Traps | Activity::Breaks(_) =>
            Spot::At(pc),
        Activity::Enters(number) => Spot::Entry(number),
        Activity::SetsUp(number) | Activity::Transfers(number, _) => Spot::Server(number),
        Activity::Idles => Spot::Idle,
    }
}
