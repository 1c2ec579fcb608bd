ghost use Rattle.std.specs.Prelude.{◌≡◌, [], ◌∷◌, ◌++◌, OnOk, OnErr};

use kc_base::{Level, NoMemory};
use kc_trace::Signal;
use std::alloc::Global;
use std::marker::Model;

/// Which edges of a signal are meant.
#[derive(Clone, Copy)]
pub enum Way {
    Rise,
    Fall,
    Either,
}

/// A kind of event.
#[derive(Clone, Copy)]
pub enum Wanted {
    Edge(Signal, Way),
    /// An entry of this vector.
    Entry(u8),
    /// A transfer of this vector.
    Transfer(u8),
    Undefined,
    Reset,
    Watchdog,
    Powerdown,
    /// What the mark of this number is, counted from 0 in the order of their lines.
    Mark(usize),
}

/// A signal that has a level.
#[derive(Clone, Copy)]
pub struct Steady {
    pub signal: Signal,
    pub level: Level,
}

/// A kind of event, of which those count in whose state a signal has a level, if there is such a condition.
#[derive(Clone, Copy)]
pub struct Atom {
    pub wanted: Wanted,
    pub condition: Option<Steady>,
}

/// Events: each that one of some atoms means.
#[derive(Drop)]
pub struct Events {
    atoms: Vec<Atom>,
}

impl Model for Events {
    ghost use Rattle.std.specs.Prelude.{List};
    ghost use Rattle.kc_rules.specs.declared.events.Atom.{Atom};

    ghost Value = { List Atom };

    ghost view = { λ e. e.atoms.items };
}

impl Events {
    /// No events.
    pub(crate) fn new(alloc: Global) -> Events
        ensures { result ≡ [] }
    {
        Events {
            atoms: Vec::new(alloc),
        }
    }

    /// Appends an atom. A refusal changes nothing.
    pub(crate) fn push(&mut self, atom: Atom) -> Result<(), NoMemory>
        ensures ok { OnOk result (self.new ≡ self.old ++ atom ∷ []) }
        ensures err { OnErr result (self.new ≡ self.old) }
    {
        self.atoms.push(atom)?;
        Ok(())
    }

    /// The atoms, lent.
    pub fn atoms(&self) -> &[Atom]
        ensures { result.now ≡ self.now }
    {
        self.atoms.as_slice()
    }
}
