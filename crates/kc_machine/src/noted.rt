// The edges of pins that the accesses of a state make.
ghost use Rattle.std.specs.Prelude.{◌≡◌, []};
ghost use Rattle.std.specs.List.{All};
ghost use Rattle.std.specs.Bool.{OnTrue};
ghost use Rattle.kc_trace.specs.Printable.{HasName};

use arrayvec::ArrayVec;
use kc_base::{Edge, EdgeOut, StateTime};
use std::marker::Model;

/// The edges of pins that the accesses of one state have made, in order. There is room for 144.
#[derive(Drop)]
pub struct Noted {
    edges: ArrayVec<Edge, 144>,
}

impl Model for Noted {
    ghost use Rattle.std.specs.Prelude.{List};
    ghost use Rattle.std.specs.List.{All};
    ghost use Rattle.kc_base.specs.declared.types.Edge.{Edge};
    ghost use Rattle.kc_trace.specs.Printable.{HasName};

    ghost Value = { List Edge };

    ghost view = { λ noted. noted.edges.items };

    ghost invariant = { λ noted. All HasName noted.edges.items };
}

impl Noted {
    /// No edge.
    pub(crate) fn none() -> Noted
        ensures { result ≡ [] }
    {
        Noted {
            edges: ArrayVec::new(),
        }
    }

    /// Whether there is no edge.
    #[inline(always)]
    pub(crate) fn is_empty(&self) -> bool
        ensures { OnTrue result (self.now ≡ []) }
    {
        self.edges.is_empty()
    }

    /// Forgets all edges, and leaves the room for them as it is.
    pub(crate) fn forget(&mut self)
        ensures { self.new ≡ [] }
    {
        self.edges.clear();
    }

    /// The edges in order.
    pub(crate) fn as_slice(&self) -> &[Edge]
        ensures edges { result.now ≡ self.now }
        ensures named { All HasName self.now }
    {
        self.edges.as_slice()
    }
}

impl EdgeOut for Noted {
    ghost use Rattle.kc_machine.specs.Keeping.{one_noted};

    ghost led = { λ old at edge new. new ≡ one_noted old edge };

    fn edge(&mut self, _at: StateTime, edge: Edge) {
        if self.edges.len() < 144 {
            self.edges.push(edge);
        }
    }
}
