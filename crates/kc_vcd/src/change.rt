// What changes in a run.
ghost use Rattle.std.specs.Prelude.{◌≡◌, ◌++◌, OnOk};
ghost use Rattle.kc_vcd.specs.Changes.{change_by as change_of};
ghost use Rattle.kc_vcd.specs.Dump.{change_text};

use crate::variable::Variable;
use crate::writing::{put_event, put_level, put_value};
use kc_base::{Level, NoMemory};
use kc_trace::{Signal, What};

/// What changes: a signal takes a level, an analogue input takes a value, this happens; or what no variable shows.
#[derive(Clone, Copy)]
pub(crate) enum Change {
    Moves(Signal, Level),
    Takes(u8, u16),
    Happens(Variable),
    Unseen,
}

/// What changes by what happens in a state. Resets and powerdown have no variable: the life that begins behind a reset has one.
pub(crate) fn change_by(what: What) -> Change
    ensures { result ≡ change_of what }
{
    match what {
        What::Edge(signal, level) => Change::Moves(signal, level),
        What::Entry(number) => Change::Happens(Variable::Entry(number)),
        What::Transfer(number) => Change::Happens(Variable::Transfer(number)),
        What::Undefined => Change::Happens(Variable::Undefined),
        _ => Change::Unseen,
    }
}

/// Puts the line of a change.
pub(crate) fn put_change(text: &mut Vec<u8>, change: Change) -> Result<(), NoMemory>
    ensures { OnOk result (text.new.items ≡ text.old.items ++ change_text change) }
{
    match change {
        Change::Moves(signal, level) => put_level(text, signal, level),
        Change::Takes(channel, value) => put_value(text, channel, value),
        Change::Happens(variable) => put_event(text, variable),
        Change::Unseen => Ok(()),
    }
}
